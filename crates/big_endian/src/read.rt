// Whole numbers as they stand in bytes. These functions are for our own crates: the places lie in a record or just past it, far below the
// largest number of 64 bits.
ghost use Rattle.std.specs.Prelude.{◌≡◌, ◌<◌, ◌^◌, get_or};
ghost use Rattle.big_endian.specs.BigEndian.{signed_at};

use crate::word::Word;

// The byte at a place, 0 past the end.
// Kept: bytes and a place; the new form is no plainer, as any bytes are read, at places that don't follow each other (29, then content_start of field 4).
pub fn byte_at(bytes: &[u8], at: usize) -> u8
    ensures { result ≡ get_or bytes.now at 0 }
{
    bytes.get(at).copied().unwrap_or(0)
}

// Kept: what may not change: docs/STATEMENTS.md names i16_at and i32_at for "Two's complement"; so they stay two.
#[tactic(auto, using(crate::proofs::ReadNumbers::signed_two), unfolding(crate::specs::BigEndian::signed_at))]
pub fn i16_at(bytes: &[u8], at: usize) -> i64
    requires { at < 2 ^ 40 }
    ensures { result ≡ signed_at 2 bytes.now at }
{
    i64::from(u16::read(bytes, at).cast_signed())
}

// Kept: see i16_at; docs/STATEMENTS.md names both.
#[tactic(auto, using(crate::proofs::ReadNumbers::signed_four), unfolding(crate::specs::BigEndian::signed_at))]
pub fn i32_at(bytes: &[u8], at: usize) -> i64
    requires { at < 2 ^ 39 }
    ensures { result ≡ signed_at 4 bytes.now at }
{
    i64::from(u32::read(bytes, at).cast_signed())
}
