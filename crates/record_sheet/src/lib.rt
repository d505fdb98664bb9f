// The sheet of a good record within the two sizes, by lists that are lent.
#![tactic(auto)]

ghost use Rattle.std.specs.Prelude.{true, ◌≡◌, ◌≤◌, ◌+◌, length};
ghost use Rattle.tally.specs.LentSums.{cells_in, sums_read, KeepsCells};
ghost use Rattle.scan.specs.LentLists.{lists_in, KeepsLists};
ghost use Rattle.scan.specs.Scan.{scan_held};
ghost use Rattle.scan.specs.ScanRefusal.{lists_exact};
ghost use Rattle.record_layout.specs.RecordLists.{KeepsRays};
ghost use Rattle.text.specs.StoredText.{Appends};
ghost use Rattle.record_sheet.specs.GoodSheet.{good_sheet};
ghost use Rattle.record_sheet.specs.SheetRoom.{Sized, CellRoom};

use scan::{ListsMut, RaysMut, ScanHead};
use sheet_lines::{Cells, put_sheet};
use tally::{CellsMut, SumsRef, fit_16_bits};
use text::Text;

// Read, tally, publish, print. For our own crates: they have tested record and sizes, and the lists have the exact lengths.
pub fn cells_text(
    bytes: &[u8],
    head: ScanHead,
    rays: &mut RaysMut<'_>,
    lists: &mut ListsMut<'_>,
    cells: &mut CellsMut<'_>,
    page: &mut Text<'_>,
)
    requires { Sized bytes.now head × (lists_exact (scan_held head rays.old.azimuths.now rays.old.values.now rays.old.qualities.now) (lists_in lists.old) ≡ true) × CellRoom head (cells_in cells.old) × (page.old.length + 120000 ≤ length page.old.buffer.now) }
    ensures rays_kept { KeepsRays rays.old rays.new }
    ensures lists_kept { KeepsLists lists.old lists.new }
    ensures cells_kept { KeepsCells cells.old cells.new }
    ensures appended { Appends page.old (good_sheet bytes.now) page.new }
    ensures bounded { page.new.length ≤ page.old.length + 120000 }
{
    // None of the three refuses what is good.
    let _ = record_reader::read_scan(bytes, rays);
    let read = rays.as_ref();
    fit_16_bits(read.values);
    let _ = scan_tally::tally(head, read, lists);
    let sums = sums_of(lists);
    let _ = publish::publish(head.weighting, sums, cells);
    let window = grid::window_of(head.grid);
    let gates = scan::gates_of(head);
    put_sheet(
        page,
        window.columns,
        window.rows,
        gates,
        published(sums.counts, cells),
    );
}

// The sums among the lists, to be read.
fn sums_of<'a>(lists: &'a ListsMut<'_>) -> SumsRef<'a>
    ensures { sums_read result ≡ (lists_in lists.now).sums }
{
    SumsRef {
        counts: lists.counts,
        quality_sums: lists.quality_sums,
        value_sums: lists.value_sums,
        weighted_sums: lists.weighted_sums,
    }
}

// What is printed of each cell.
fn published<'a>(counts: &'a [u32], cells: &'a CellsMut<'_>) -> Cells<'a>
    ensures counts { result.counts.now ≡ counts.now }
    ensures means { result.means.now ≡ cells.now.means.now }
    ensures qualities { result.qualities.now ≡ cells.now.qualities.now }
{
    Cells {
        counts,
        means: cells.means,
        qualities: cells.qualities,
    }
}
