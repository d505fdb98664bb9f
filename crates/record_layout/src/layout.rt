// Where the seven fields stand, and whether the bytes are laid out so.
ghost use Rattle.std.specs.Prelude.{◌≡◌, ◌<◌, ◌≤◌, ◌^◌};
ghost use Rattle.refusal.specs.Numbered.{refusal_in};
ghost use Rattle.record_layout.specs.Fields.{index_of};
ghost use Rattle.record_layout.specs.RecordPlaces.{rays_in, gates_in, grid_length, content_length, field_start, content_start};
ghost use Rattle.record_layout.specs.RecordRefusal.{kind_accepted, weighting_accepted, content_accepted, field_refusal, layout_refusal};

use crate::field::Field;
use big_endian::{Word, byte_at};
use refusal::Refusal;

#[tactic(auto, unfolding(crate::specs::RecordPlaces::rays_in))]
pub fn rays_in(bytes: &[u8]) -> usize
    ensures value { result ≡ rays_in bytes.now }
    ensures bounded { result ≤ 65535 }
{
    usize::from(u16::read(bytes, 14))
}

// All gates of the scan.
#[tactic(auto, unfolding(crate::specs::RecordPlaces::gates_in))]
pub fn gates_in(bytes: &[u8]) -> usize
    ensures value { result ≡ gates_in bytes.now }
    ensures bounded { result ≤ 4294836225 }
{
    usize::from(u16::read(bytes, 14)) * usize::from(u16::read(bytes, 16))
}

// Field 3 may have 17 or 9.
// Kept: what may not change: the record's two bytes hold the length as a number (document 01; definition `grid_length`).
#[tactic(auto, unfolding(crate::specs::RecordPlaces::grid_length))]
pub fn grid_length(bytes: &[u8]) -> usize
    ensures value { result ≡ grid_length bytes.now }
    ensures bounded { result ≤ 17 }
{
    if u16::read(bytes, 27) == 17 {
        return 17;
    }
    9
}

// The content's length that the earlier fields imply.
#[tactic(auto, unfolding(crate::specs::RecordPlaces::content_length))]
pub fn content_length(bytes: &[u8], field: Field) -> usize
    ensures value { result ≡ content_length bytes.now (index_of field) }
    ensures bounded { result ≤ 8589672450 }
{
    match field {
        Field::Site => 8,
        Field::Gates => 12,
        Field::Grid => grid_length(bytes),
        Field::Weighting => 1,
        Field::Azimuths => 4 * rays_in(bytes),
        Field::Values => 2 * gates_in(bytes),
        Field::Qualities => gates_in(bytes),
        Field::End => 0,
    }
}

// The place of a field's tag, or of the record's end.
pub fn field_start(bytes: &[u8], field: Field) -> usize
    ensures value { result ≡ field_start bytes.now (index_of field) }
    ensures bounded { result < 2 ^ 36 }
{
    let mut start = 0;
    for before in &Field::ALL[..field.index()] {
        start += 3 + content_length(bytes, *before);
    }
    start
}

#[tactic(auto, unfolding(crate::specs::RecordPlaces::content_start))]
pub fn content_start(bytes: &[u8], field: Field) -> usize
    ensures value { result ≡ content_start bytes.now (index_of field) }
    ensures bounded { result < 2 ^ 37 }
{
    field_start(bytes, field) + 3
}

// Kind 1 has 17 bytes, kind 2 has 9.
// Kept: what may not change: the record's byte holds the kind as a number (document 01; definition `kind_accepted`).
#[tactic(auto, unfolding(crate::specs::RecordRefusal::kind_accepted))]
fn kind_accepted(bytes: &[u8]) -> bool
    ensures { result ≡ kind_accepted bytes.now }
{
    let kind = byte_at(bytes, 29);
    if grid_length(bytes) == 17 {
        return kind == 1;
    }
    kind == 2
}

#[tactic(auto, unfolding(crate::specs::RecordRefusal::weighting_accepted))]
fn weighting_accepted(bytes: &[u8]) -> bool
    ensures { result ≡ weighting_accepted bytes.now }
{
    byte_at(bytes, content_start(bytes, Field::Weighting)) <= 1
}

#[tactic(auto, unfolding(crate::specs::RecordRefusal::content_accepted))]
fn content_accepted(bytes: &[u8], field: Field) -> bool
    ensures { result ≡ content_accepted bytes.now (index_of field) }
{
    match field {
        Field::Grid => kind_accepted(bytes),
        Field::Weighting => weighting_accepted(bytes),
        _ => true,
    }
}

// Three header bytes there, tag, length, content there, then kind and weighting byte.
#[tactic(auto, unfolding(crate::specs::RecordRefusal::field_refusal, refusal::specs::Checks::first_refusal))]
fn check_field(bytes: &[u8], field: Field) -> Result<(), Refusal>
    ensures { refusal_in result ≡ field_refusal bytes.now (index_of field) }
{
    let start = field_start(bytes, field);
    let content = content_start(bytes, field);
    let length = content_length(bytes, field);
    if bytes.len() < content {
        return Err(Refusal::CutShort);
    }
    if usize::from(byte_at(bytes, start)) != field.index() + 1 {
        return Err(Refusal::WrongTag);
    }
    if usize::from(u16::read(bytes, start + 1)) != length {
        return Err(Refusal::WrongField);
    }
    if bytes.len() < content + length {
        return Err(Refusal::CutShort);
    }
    if !content_accepted(bytes, field) {
        return Err(Refusal::WrongField);
    }
    Ok(())
}

// Field by field; after field 7, 14.
pub fn check_layout(bytes: &[u8]) -> Result<(), Refusal>
    ensures { refusal_in result ≡ layout_refusal bytes.now }
{
    for field in &Field::ALL {
        check_field(bytes, *field)?;
    }
    if bytes.len() != field_start(bytes, Field::End) {
        return Err(Refusal::BytesAfter);
    }
    Ok(())
}
