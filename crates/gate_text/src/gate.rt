// The line that answers the words that a gate is given in.
ghost use Rattle.std.specs.Prelude.{true, ◌≡◌, ◌≤◌, ◌+◌, length};
ghost use Rattle.std.proofs.lemmas.List.Edits.{sets};
ghost use Rattle.text.specs.DecimalText.{line_of};
ghost use Rattle.text.specs.StoredText.{Appends};
ghost use Rattle.gate_text.specs.GateText.{usage_line, placed_words, answer_words, answer_text, gate_text};
ghost use Rattle.ledger_text.specs.PlacedColumns.{cell_there, columns_there};

use gate_words::{hrap_given, is_given, radolan_given, site_given, unsigned_at};
use ledger_text::{columns_of, put_column_and_row, put_position};
use limits::Grid;
use placement::Placement;
use refusal::Refusal;
use text::Text;

// Any words, each ended by a byte 0; words that give no gate are answered by the usage line.
// Kept: the line with its length as the result, since that is the promise of `gate_text` that docs/STATEMENTS.md names.
pub fn gate_text(words: &[u8], line: &mut [u8; 256]) -> usize
    ensures value { result ≡ length (gate_text words.now) }
    ensures bounded { result ≤ 256 }
    ensures line_after { line.new ≡ sets line.old 0 (gate_text words.now) }
{
    let mut text = Text::new(line);
    put_gate(words, &mut text);
    text.length
}

#[tactic(auto, unfolding(crate::specs::GateText::usage_line))]
fn put_gate(words: &[u8], line: &mut Text<'_>)
    requires { line.old.length + 256 ≤ length line.old.buffer.now }
    ensures appended { Appends line.old (gate_text words.now) line.new }
    ensures bounded { line.new.length ≤ line.old.length + 256 }
{
    if is_given(words, 9, b"hrap") {
        return put_given(words, hrap_given(words), line);
    }
    if is_given(words, 10, b"radolan") {
        return put_given(words, radolan_given(words), line);
    }
    line.word(
        b"usage: gate latitude longitude azimuth range (hrap i j | radolan x y side) columns rows\n",
    );
}

// The placement of the gate that the words give, on that grid.
fn put_given(words: &[u8], grid: Grid, line: &mut Text<'_>)
    requires { line.old.length + 256 ≤ length line.old.buffer.now }
    ensures appended { Appends line.old (answer_text words.now grid) line.new }
    ensures bounded { line.new.length ≤ line.old.length + 256 }
{
    let site = site_given(words);
    let azimuth = unsigned_at(words, 2);
    let range = unsigned_at(words, 3);
    let answer = placement::place(site, grid, azimuth, range);
    put_answer(line, columns_of(grid), answer);
}

fn put_answer(line: &mut Text<'_>, columns: u32, answer: Result<Placement, Refusal>)
    requires { (columns_there columns answer ≡ true) × (line.old.length + 256 ≤ length line.old.buffer.now) }
    ensures appended { Appends line.old (line_of (answer_words columns answer)) line.new }
    ensures bounded { line.new.length ≤ line.old.length + 256 }
{
    match answer {
        Ok(placement) => put_placement(line, columns, placement),
        Err(refusal) => line.refused(refusal.number()),
    }
}

fn put_placement(line: &mut Text<'_>, columns: u32, placement: Placement)
    requires { (cell_there columns placement.cell ≡ true) × (line.old.length + 256 ≤ length line.old.buffer.now) }
    ensures appended { Appends line.old (line_of (placed_words columns placement.cell placement)) line.new }
    ensures bounded { line.new.length ≤ line.old.length + 256 }
{
    let mark = u64::from(placement.mark);
    match placement.cell {
        Some(cell) => {
            line.field(b"inside", b' ');
            put_position(line, placement);
            put_column_and_row(line, columns, cell);
            line.number(u64::from(cell), b' ');
            line.number(mark, b'\n');
        }
        None => {
            line.field(b"outside", b' ');
            put_position(line, placement);
            line.number(mark, b'\n');
        }
    }
}
