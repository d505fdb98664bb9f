// The scan record: what is answered and left of what C lends. A refusal leaves all of it as it came in.
ghost use Rattle.record_layout.specs.RecordLists.{KeepsRays, lent_record_lists};
ghost use Rattle.refusal.specs.Numbered.{refusal_in};
ghost use Rattle.scan.specs.Scan.{scan_of};
ghost use Rattle.c_structs.specs.Structs.{head_of};
ghost use Rattle.c_answers.specs.LentNumbers.{lent_head, lent_scan, lent_field, lent_written};
ghost use Rattle.c_answers.specs.RecordCalls.{ReadsHead, ReadsScan, FindsField, WritesRecord};

use c_structs::{head_numbers, head_of};
use record_reader::{field, field_place, read_head, read_scan};
use record_writer::write_scan;
use refusal::Refusal;
use scan::{Rays, RaysMut};

// ---- as read

pub fn answer_head(bytes: &[u8], scan: &mut [i64; 13]) -> Result<(), Refusal>
    ensures { ReadsHead bytes.now (lent_head scan) (refusal_in result) }
{
    *scan = head_numbers(read_head(bytes)?);
    Ok(())
}

pub fn answer_read(
    bytes: &[u8],
    scan: &mut [i64; 13],
    rays: &mut RaysMut<'_>,
) -> Result<(), Refusal>
    ensures read { ReadsScan bytes.now (lent_scan scan (lent_record_lists rays)) (refusal_in result) }
    ensures kept { KeepsRays rays.old rays.new }
{
    *scan = head_numbers(read_scan(bytes, rays)?);
    Ok(())
}

// The place and the length of a field's content; both are 0 for a number other than 1 to 7.
pub fn answer_field(
    bytes: &[u8],
    number: u32,
    start: &mut u64,
    size: &mut u64,
) -> Result<(), Refusal>
    ensures { FindsField bytes.now number (lent_field start size) (refusal_in result) }
{
    read_head(bytes)?;
    let number = number as usize;
    *start = field_place(bytes, number) as u64;
    *size = field(bytes, number).len() as u64;
    Ok(())
}

// ---- as written

pub fn answer_write(
    scan: &[i64; 13],
    rays: Rays<'_>,
    buffer: &mut [u8],
    size: &mut u64,
) -> Result<(), Refusal>
    ensures { WritesRecord (scan_of (head_of scan.now) rays.entry) (lent_written buffer size) (refusal_in result) }
{
    *size = write_scan(head_of(scan), rays, buffer)? as u64;
    Ok(())
}
