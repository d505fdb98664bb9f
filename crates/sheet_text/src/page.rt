// What is printed for any bytes.
ghost use Rattle.std.specs.Prelude.{◌≡◌, ◌≤◌, ◌+◌, length};
ghost use Rattle.std.proofs.lemmas.List.Edits.{sets};
ghost use Rattle.text.specs.StoredText.{Appends};
ghost use Rattle.sheet_text.specs.SheetText.{sized_sheet, sheet_text};

use good_sheet::good_sheet;
use record_reader::GoodRecord;
use sheet_lines::put_too_large;
use text::Text;

// At most 4,096 gates and 1,024 cells.
fn sized_sheet(good: GoodRecord<'_>, page: &mut Text<'_>)
    requires { page.old.length + 120000 ≤ length page.old.buffer.now }
    ensures appended { Appends page.old (sized_sheet good.entry.bytes.now) page.new }
    ensures bounded { page.new.length ≤ page.old.length + 120000 }
{
    if 4096 < scan::gates_of(good.head) {
        return put_too_large(page);
    }
    if 1024 < scan::cells_of(good.head) {
        return put_too_large(page);
    }
    good_sheet(good.bytes, good.head, page);
}

fn put_text(bytes: &[u8], page: &mut Text<'_>)
    requires { page.old.length + 120000 ≤ length page.old.buffer.now }
    ensures appended { Appends page.old (sheet_text bytes.now) page.new }
    ensures bounded { page.new.length ≤ page.old.length + 120000 }
{
    if 16384 < bytes.len() {
        return put_too_large(page);
    }
    match GoodRecord::read(bytes) {
        Ok(good) => sized_sheet(good, page),
        Err(refusal) => page.refused(refusal.number()),
    }
}

// Any bytes. It answers the length of the text, stores it from the start of the page on, and leaves the rest of the page as it was.
// Kept: the page with its length as the result, since that is the promise of `sheet` that docs/STATEMENTS.md names.
pub fn sheet(bytes: &[u8], page: &mut [u8; 120000]) -> usize
    ensures value { result ≡ length (sheet_text bytes.now) }
    ensures upper_bound { result ≤ 120000 }
    ensures page_after { page.new ≡ sets page.old 0 (sheet_text bytes.now) }
{
    let mut text = Text::new(page);
    put_text(bytes, &mut text);
    text.length
}
