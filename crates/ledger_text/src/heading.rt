// The line above a ledger's gates.
ghost use Rattle.std.specs.Prelude.{◌≡◌, ◌≤◌, length};
ghost use Rattle.std.proofs.lemmas.List.Edits.{sets};
ghost use Rattle.ledger_text.specs.LedgerHeading.{ledger_heading};

use text::Text;

// Kept: the line with its length as the result, since that is the promise of `ledger_heading` that docs/STATEMENTS.md names.
#[tactic(auto, unfolding(crate::specs::LedgerHeading::field_names, crate::specs::LedgerHeading::ledger_heading, text::specs::DecimalText::line_of))]
pub fn ledger_heading(line: &mut [u8; 256]) -> usize
    ensures value { result ≡ length ledger_heading }
    ensures bounded { result ≤ 256 }
    ensures line_after { line.new ≡ sets line.old 0 ledger_heading }
{
    let mut text = Text::new(line);
    text.word(b"ray gate azimuth range value quality x y column row mark\n");
    text.length
}
