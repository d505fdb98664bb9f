// The content of a field, as a part of the caller's own record, and its place there.
ghost use Rattle.std.specs.Prelude.{◌≡◌, ◌+◌};
ghost use Rattle.record_reader.specs.FieldPart.{field_part, field_place, content_place};

use record_layout::{Field, check_record, content_length, content_start};

// Any bytes and any number: a refused record or a number other than 1 to 7 gives an empty part.
#[tactic(auto, using(crate::proofs::FieldParts::field_inside), unfolding(crate::specs::FieldPart::field_part, crate::specs::FieldPart::field_place, crate::specs::FieldPart::part, refusal::specs::Checks::in_range, record_layout::specs::RecordRefusal::head_refusal))]
pub fn field(bytes: &[u8], number: usize) -> &[u8]
    ensures result_value { result.now ≡ field_part bytes.now number }
    ensures place { (result.ref_ptr.0 ≡ bytes.entry.ref_ptr.0) × (result.ref_ptr.1 ≡ bytes.entry.ref_ptr.1 + field_place bytes.now number) }
{
    let Some(field) = Field::numbered(number) else {
        return &bytes[..0];
    };
    if check_record(bytes, true).is_err() {
        return &bytes[..0];
    }
    let start = content_start(bytes, field);
    let end = start + content_length(bytes, field);
    &bytes[start..end]
}

// Where the content of that field starts in any bytes; of a record that is not refused, that is where the part starts.
// Kept: 0 for a number other than 1 to 7; what may not change: the clause says `content_place`, which holds it.
#[tactic(auto, unfolding(crate::specs::FieldPart::content_place, refusal::specs::Checks::in_range))]
pub fn field_place(bytes: &[u8], number: usize) -> usize
    ensures { result ≡ content_place bytes.now number }
{
    match Field::numbered(number) {
        Some(field) => content_start(bytes, field),
        None => 0,
    }
}
