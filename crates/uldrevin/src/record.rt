// The scan record. The answer is 0, with what is lent written, or the refusal number, with all that is lent as it came in.
ghost use Rattle.record_layout.specs.RecordLists.{record_lists_apart};
ghost use Rattle.scan.specs.Scan.{scan_held};
ghost use Rattle.c_structs.specs.Structs.{head_of};
ghost use Rattle.c_answers.specs.LentNumbers.{lent_head, lent_scan, lent_field, lent_written};
ghost use Rattle.c_answers.specs.RecordCalls.{ReadsHead, ReadsScan, FindsField, WritesRecord};

use c_answers::{answer_field, answer_head, answer_read, answer_write, refusal_number};
use scan::{Rays, RaysMut};

// ---- as read

#[unsafe(no_mangle)]
pub extern "C" fn uldrevin_record_head(bytes: &[u8], scan: &mut [i64; 13]) -> u32
    ensures { ReadsHead bytes.now (lent_head scan) result }
{
    refusal_number(answer_head(bytes, scan))
}

#[unsafe(no_mangle)]
pub extern "C" fn uldrevin_record_read(
    bytes: &[u8],
    scan: &mut [i64; 13],
    azimuths: &mut [u32],
    values: &mut [u16],
    qualities: &mut [u8],
) -> u32
    ensures { ReadsScan bytes.now (lent_scan scan (record_lists_apart azimuths values qualities)) result }
{
    refusal_number(answer_read(
        bytes,
        scan,
        &mut RaysMut {
            azimuths,
            values,
            qualities,
        },
    ))
}

// The place and the length of a field's content in the record; both 0 for a number other than 1 to 7.
#[unsafe(no_mangle)]
pub extern "C" fn uldrevin_record_field(
    bytes: &[u8],
    number: u32,
    start: &mut u64,
    size: &mut u64,
) -> u32
    ensures { FindsField bytes.now number (lent_field start size) result }
{
    refusal_number(answer_field(bytes, number, start, size))
}

// ---- as written

#[unsafe(no_mangle)]
pub extern "C" fn uldrevin_record_write(
    scan: &[i64; 13],
    azimuths: &[u32],
    values: &[u16],
    qualities: &[u8],
    buffer: &mut [u8],
    size: &mut u64,
) -> u32
    ensures { WritesRecord (scan_held (head_of scan.now) azimuths.now values.now qualities.now) (lent_written buffer size) result }
{
    refusal_number(answer_write(
        scan,
        Rays {
            azimuths,
            values,
            qualities,
        },
        buffer,
        size,
    ))
}
