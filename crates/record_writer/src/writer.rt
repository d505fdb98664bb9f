// Writes a record.
ghost use Rattle.std.specs.Prelude.{◌≡◌, ◌≤◌, length};
ghost use Rattle.std.proofs.lemmas.List.Edits.{sets};
ghost use Rattle.scan.specs.Scan.{gates_of, scan_of};
ghost use Rattle.record_contents.specs.RecordBytes.{grid_bytes, record_of};
ghost use Rattle.refusal.specs.Numbered.{refusal_in};
ghost use Rattle.record_writer.specs.WriteRefusal.{write_refusal};
ghost use Rattle.record_writer.specs.RecordRoom.{record_length, Writable};
ghost use Rattle.record_layout.specs.RecordLists.{lent_bytes};
ghost use Rattle.record_writer.specs.RecordWritten.{Writes};

use limits::Grid;
use list_contents::put_numbers;
use record_contents::{put_gates, put_grid, put_site, put_weighting};
use refusal::Refusal;
use scan::{Rays, ScanHead};

// Any scan and any buffer. It answers the record's length and touches nothing past its end, and nothing at all where it refuses.
pub fn write_scan(head: ScanHead, rays: Rays<'_>, buffer: &mut [u8]) -> Result<usize, Refusal>
    ensures { Writes (scan_of head rays.entry) (lent_bytes buffer) result }
{
    check_write(head, rays, buffer.len())?;
    put_record(head, rays, buffer);
    Ok(record_length(head))
}

// 1 to 8, then 15, 16.
fn check_write(head: ScanHead, rays: Rays<'_>, room: usize) -> Result<(), Refusal>
    ensures { refusal_in result ≡ write_refusal (scan_of head rays.entry) room }
{
    scan::check_scan(
        head,
        scan::lists_accepted(head, rays),
        scan::azimuths_accepted(rays.azimuths),
        scan::qualities_accepted(rays.qualities),
    )?;
    if 32767 < scan::gates_of(head) {
        return Err(Refusal::LongRecord);
    }
    if room < record_length(head) {
        return Err(Refusal::ShortBuffer);
    }
    Ok(())
}

#[tactic(auto, using(record_contents::proofs::ContentLengths::grid_length_lem), unfolding(record_contents::proofs::ContentLengths::grid_length_of))]
fn grid_bytes(grid: Grid) -> usize
    ensures { result ≡ length (grid_bytes grid) }
{
    match grid {
        Grid::Radolan(_) => 17,
        Grid::Hrap(_) => 9,
    }
}

#[tactic(auto, using(record_contents::proofs::ContentLengths::grid_length_most), unfolding(crate::specs::RecordRoom::record_length))]
fn record_length(head: ScanHead) -> usize
    requires { gates_of head ≤ 32767 }
    ensures { result ≡ record_length head }
{
    42 + grid_bytes(head.grid) + 4 * (head.rays as usize) + 3 * scan::gates_of(head)
}

// The seven fields, one behind the other.
// Kept: the places of fields 4 to 7 as sums; the new form is no plainer: fields 1 to 3 have fixed places, and all are put by one form. The
// tags 5 to 7 are numbers, as the record's bytes hold them (document 01; definition `record_of`).
fn put_record(head: ScanHead, rays: Rays<'_>, buffer: &mut [u8])
    requires { Writable (scan_of head rays) (length buffer.old) }
    ensures { buffer.new ≡ sets buffer.old 0 (record_of (scan_of head rays.entry)) }
{
    put_site(buffer, head.site);
    put_gates(buffer, head);
    put_grid(buffer, head.grid);
    let after_grid = 29 + grid_bytes(head.grid);
    put_weighting(buffer, after_grid, head.weighting);
    let azimuths_start = after_grid + 4;
    put_numbers(buffer, azimuths_start, 5, rays.azimuths);
    let values_start = azimuths_start + 3 + 4 * rays.azimuths.len();
    put_numbers(buffer, values_start, 6, rays.values);
    let qualities_start = values_start + 3 + 2 * rays.values.len();
    put_numbers(buffer, qualities_start, 7, rays.qualities);
}
