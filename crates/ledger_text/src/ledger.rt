// The line of one gate of a record: ray, gate, azimuth, range, value, quality, X, Y, then column and row or the word `outside`, and the mark.
ghost use Rattle.std.specs.Prelude.{[], ◌∷◌, ◌≡◌, ◌≤◌, ◌<◌, ◌+◌, length};
ghost use Rattle.std.proofs.lemmas.List.Edits.{sets};
ghost use Rattle.scan.specs.Scan.{gates_of};
ghost use Rattle.record_layout.specs.RecordPlaces.{head_in};
ghost use Rattle.record_layout.specs.RecordRefusal.{head_refusal};
ghost use Rattle.text.specs.DecimalText.{decimal_of, spaced};
ghost use Rattle.text.specs.StoredText.{Appends};
ghost use Rattle.ledger_text.specs.LedgerLine.{ledger_line};

use crate::columns::columns_of;
use crate::place::put_place;
use text::Text;

// Any bytes and any gate, gates numbered ray by ray. A refused record, or one that has no such gate, is answered by 0, and the line
// stays as it was.
// Kept: the line with its length as the result, 0 where there is no line, since that is the promise of `ledger_line` that
// docs/STATEMENTS.md names.
pub fn ledger_line(bytes: &[u8], k: usize, line: &mut [u8; 256]) -> usize
    ensures value { result ≡ length (ledger_line bytes.now k) }
    ensures bounded { result ≤ 256 }
    ensures line_after { line.new ≡ sets line.old 0 (ledger_line bytes.now k) }
{
    match record_reader::read_head(bytes) {
        Ok(head) if k < scan::gates_of(head) => good_line(bytes, k, line),
        _ => 0,
    }
}

// The same without the tests. For our own crates: they have tested the record, once for all of its gates, and the gate.
// Kept: likewise, since `good_line` promises the same line in the same words.
pub fn good_line(bytes: &[u8], k: usize, line: &mut [u8; 256]) -> usize
    requires { (head_refusal bytes.now ≡ 0) × (k < gates_of (head_in bytes.now)) }
    ensures value { result ≡ length (ledger_line bytes.now k) }
    ensures bounded { result ≤ 256 }
    ensures line_after { line.new ≡ sets line.old 0 (ledger_line bytes.now k) }
{
    let head = record_layout::head_in(bytes);
    let ray = k / head.gates as usize;
    let gate = k % head.gates as usize;
    let azimuth = record_reader::azimuth_in(bytes, ray);
    let range = head.first + gate as u32 * head.spacing;
    let value = record_reader::value_in(bytes, k);
    let quality = record_reader::quality_in(bytes, k);
    let columns = columns_of(head.grid);
    let placed = placement::place(head.site, head.grid, azimuth, range);
    let mut text = Text::new(line);
    put_gate(&mut text, ray, gate, azimuth, range, value, quality);
    put_place(&mut text, columns, placed);
    text.length
}

// What the record says of a gate; a space behind each.
fn put_gate(
    line: &mut Text<'_>,
    ray: usize,
    gate: usize,
    azimuth: u32,
    range: u32,
    value: u16,
    quality: u8,
)
    requires { line.old.length + 126 ≤ length line.old.buffer.now }
    ensures appended { Appends line.old (spaced (decimal_of ray ∷ decimal_of gate ∷ decimal_of azimuth ∷ decimal_of range ∷ decimal_of value ∷ decimal_of quality ∷ [])) line.new }
    ensures bounded { line.new.length ≤ line.old.length + 126 }
{
    line.number(ray as u64, b' ');
    line.number(gate as u64, b' ');
    line.number(u64::from(azimuth), b' ');
    line.number(u64::from(range), b' ');
    line.number(u64::from(value), b' ');
    line.number(u64::from(quality), b' ');
}
