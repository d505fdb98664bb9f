// The sheet of a good record within the two sizes. The lists are parts of arrays that hold the largest scan that is printed.
#![tactic(auto)]

ghost use Rattle.std.specs.Prelude.{◌≤◌, ◌+◌, length};
ghost use Rattle.text.specs.StoredText.{Appends};
ghost use Rattle.record_sheet.specs.GoodSheet.{good_sheet};
ghost use Rattle.record_sheet.specs.SheetRoom.{Sized};

use record_sheet::cells_text;
use scan::{ListsMut, RaysMut, ScanHead};
use tally::CellsMut;
use text::Text;

// For our own crates: they have tested record and sizes.
pub fn good_sheet(bytes: &[u8], head: ScanHead, page: &mut Text<'_>)
    requires { Sized bytes.now head × (page.old.length + 120000 ≤ length page.old.buffer.now) }
    ensures appended { Appends page.old (good_sheet bytes.now) page.new }
    ensures bounded { page.new.length ≤ page.old.length + 120000 }
{
    let rays = head.rays as usize;
    let gates = scan::gates_of(head);
    let cells = scan::cells_of(head);
    let mut azimuths = [0u32; 720];
    let mut values = [0u16; 4096];
    let mut qualities = [0u8; 4096];
    let mut ledger = [0u32; 4096];
    let mut marks = [0u8; 4096];
    let mut counts = [0u32; 1024];
    let mut quality_sums = [0u32; 1024];
    let mut value_sums = [0u64; 1024];
    let mut weighted_sums = [0u64; 1024];
    let mut means = [0u16; 1024];
    let mut cell_qualities = [0u8; 1024];
    cells_text(
        bytes,
        head,
        &mut RaysMut {
            azimuths: &mut azimuths[..rays],
            values: &mut values[..gates],
            qualities: &mut qualities[..gates],
        },
        &mut ListsMut {
            ledger: &mut ledger[..gates],
            marks: &mut marks[..gates],
            counts: &mut counts[..cells],
            quality_sums: &mut quality_sums[..cells],
            value_sums: &mut value_sums[..cells],
            weighted_sums: &mut weighted_sums[..cells],
        },
        &mut CellsMut {
            means: &mut means[..cells],
            qualities: &mut cell_qualities[..cells],
        },
        page,
    );
}
