// Where a gate lies, in a line.
ghost use Rattle.std.specs.Prelude.{true, [], ◌∷◌, ◌≡◌, ◌≤◌, ◌+◌, ◌/◌, ◌%◌, length};
ghost use Rattle.text.specs.DecimalText.{decimal_of, signed_decimal_of, line_of, spaced};
ghost use Rattle.text.specs.StoredText.{Appends};
ghost use Rattle.ledger_text.specs.LedgerLine.{cell_words, placement_words};
ghost use Rattle.ledger_text.specs.PlacedColumns.{cell_there, columns_there};

use placement::Placement;
use refusal::Refusal;
use text::Text;

// X and Y, a space behind each. For our own crates: they have made sure of room for both.
pub fn put_position(line: &mut Text<'_>, placement: Placement)
    requires { line.old.length + 42 ≤ length line.old.buffer.now }
    ensures appended { Appends line.old (spaced (signed_decimal_of placement.x ∷ signed_decimal_of placement.y ∷ [])) line.new }
    ensures bounded { line.new.length ≤ line.old.length + 42 }
{
    line.integer(placement.x, b' ');
    line.integer(placement.y, b' ');
}

// Column and row of a cell, a space behind each. For our own crates: they have made sure of room for both.
pub fn put_column_and_row(line: &mut Text<'_>, columns: u32, cell: u32)
    requires { (1 ≤ columns) × (line.old.length + 42 ≤ length line.old.buffer.now) }
    ensures appended { Appends line.old (spaced (decimal_of (cell % columns) ∷ decimal_of (cell / columns) ∷ [])) line.new }
    ensures bounded { line.new.length ≤ line.old.length + 42 }
{
    line.number(u64::from(cell % columns), b' ');
    line.number(u64::from(cell / columns), b' ');
}

// Column and row, or the word `outside`.
fn put_cell(line: &mut Text<'_>, columns: u32, cell: Option<u32>)
    requires { (cell_there columns cell ≡ true) × (line.old.length + 42 ≤ length line.old.buffer.now) }
    ensures appended { Appends line.old (spaced (cell_words columns cell)) line.new }
    ensures bounded { line.new.length ≤ line.old.length + 42 }
{
    match cell {
        Some(cell) => put_column_and_row(line, columns, cell),
        None => line.field(b"outside", b' '),
    }
}

// The rest of a gate's line. A gate of a good record is never refused (proofs/NeverRefused.antt).
pub fn put_place(line: &mut Text<'_>, columns: u32, answer: Result<Placement, Refusal>)
    requires { (columns_there columns answer ≡ true) × (line.old.length + 105 ≤ length line.old.buffer.now) }
    ensures appended { Appends line.old (line_of (placement_words columns answer)) line.new }
    ensures bounded { line.new.length ≤ line.old.length + 105 }
{
    match answer {
        Ok(placement) => {
            put_position(line, placement);
            put_cell(line, columns, placement.cell);
            line.number(u64::from(placement.mark), b'\n');
        }
        Err(refusal) => line.refused(refusal.number()),
    }
}
