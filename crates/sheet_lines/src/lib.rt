// Lines of a sheet, each stored in a page behind those before it. The functions are ours alone. A number takes 20 digits at most.
#![tactic(auto)]

ghost use Rattle.std.specs.Prelude.{◌≡◌, ◌≤◌, ◌+◌, ◌*◌, length, sum};
ghost use Rattle.text.specs.StoredText.{Appends};
ghost use Rattle.sheet_lines.specs.SheetLines.{top_lines, cell_line, cell_lines, sheet_lines, too_large};
ghost use Rattle.sheet_lines.specs.ListedCells.{IsListed, lines_of, sheet_of};

use text::Text;

// What is printed of a grid's cells, each list in the order of their numbers.
#[derive(Clone, Copy)]
pub struct Cells<'a> {
    pub counts: &'a [u32],
    pub means: &'a [u16],
    pub qualities: &'a [u8],
}

#[tactic(auto, unfolding(crate::specs::SheetLines::too_large, text::specs::DecimalText::line_of))]
pub fn put_too_large(page: &mut Text<'_>)
    requires { page.old.length + 10 ≤ length page.old.buffer.now }
    ensures appended { Appends page.old too_large page.new }
    ensures bounded { page.new.length ≤ page.old.length + 10 }
{
    page.word(b"too large\n");
}

// The two lines above the cells.
fn put_top(page: &mut Text<'_>, columns: u32, rows: u32, gates: usize, placed: u64)
    requires { page.old.length + 102 ≤ length page.old.buffer.now }
    ensures appended { Appends page.old (top_lines columns rows gates placed) page.new }
    ensures bounded { page.new.length ≤ page.old.length + 102 }
{
    page.word(b"grid ");
    page.number(u64::from(columns), b' ');
    page.number(u64::from(rows), b'\n');
    page.word(b"gates ");
    page.number(gates as u64, b' ');
    page.word(b"placed ");
    page.number(placed, b'\n');
}

// The line of a cell: column, row, mean, quality, count.
fn put_cell(page: &mut Text<'_>, columns: usize, cell: usize, mean: u16, quality: u8, count: u32)
    requires { (1 ≤ columns) × (page.old.length + 105 ≤ length page.old.buffer.now) }
    ensures appended { Appends page.old (cell_line columns cell mean quality count) page.new }
    ensures bounded { page.new.length ≤ page.old.length + 105 }
{
    page.number((cell % columns) as u64, b' ');
    page.number((cell / columns) as u64, b' ');
    page.number(u64::from(mean), b' ');
    page.number(u64::from(quality), b' ');
    page.number(u64::from(count), b'\n');
}

// Each cell with a count, south to north, west to east.
fn put_cells(page: &mut Text<'_>, columns: usize, cells: Cells<'_>)
    requires { (1 ≤ columns) × IsListed cells × (page.old.length + 105 * length cells.counts.now ≤ length page.old.buffer.now) }
    ensures appended { Appends page.old (lines_of columns cells.entry) page.new }
    ensures bounded { page.new.length ≤ page.old.length + 105 * length cells.entry.counts.now }
{
    for (cell, count) in cells.counts.iter().enumerate() {
        if *count == 0 {
            continue;
        }
        put_cell(
            page,
            columns,
            cell,
            cells.means[cell],
            cells.qualities[cell],
            *count,
        );
    }
}

// The counts of all cells together.
fn total(counts: &[u32]) -> u64
    requires { length counts.now ≤ 1024 }
    ensures { result ≡ sum counts.now }
{
    counts.iter().map(|n| u64::from(*n)).sum()
}

// The measured gates that lie inside are those that some cell counts. There are at most 1,024 cells, so that 120,000 bytes hold all lines.
pub fn put_sheet(page: &mut Text<'_>, columns: u32, rows: u32, gates: usize, cells: Cells<'_>)
    requires { (1 ≤ columns) × IsListed cells × (page.old.length + 120000 ≤ length page.old.buffer.now) }
    ensures appended { Appends page.old (sheet_of columns rows gates cells.entry) page.new }
    ensures bounded { page.new.length ≤ page.old.length + 120000 }
{
    put_top(page, columns, rows, gates, total(cells.counts));
    put_cells(page, columns as usize, cells);
}
