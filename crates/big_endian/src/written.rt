// Whole numbers put into bytes. These functions are for our own crates: they have made sure of room in the buffer.
ghost use Rattle.std.specs.Prelude.{◌≡◌, ◌<◌, ◌≤◌, ◌+◌, ◌^◌, nat_abs, length};
ghost use Rattle.std.proofs.lemmas.List.Edits.{sets};
ghost use Rattle.big_endian.specs.BigEndian.{bytes_of, signed_bytes_of};

// The last N of the number's bytes.
// Kept: a buffer and a place; the new form is no plainer, as `put::<2>(buffer, 14, rays)` shows the place that `u16::read(bytes, 14)` reads.
#[tactic(auto, using(crate::proofs::StoredNumbers::four_stored))]
pub fn put<const N: usize>(buffer: &mut [u8], at: usize, n: u32)
    requires { (N ≤ 4) × (at + N ≤ length buffer.old) }
    ensures { buffer.new ≡ sets buffer.old at (bytes_of N n) }
{
    buffer[at..at + N].copy_from_slice(&n.to_be_bytes()[4 - N..]);
}

// Kept: a buffer and a place; what may not change: docs/STATEMENTS.md names the contract of put_signed, which says `sets buffer.old at`.
#[tactic(auto, using(crate::proofs::StoredNumbers::eight_stored))]
pub fn put_signed<const N: usize>(buffer: &mut [u8], at: usize, z: i64)
    requires { (N ≤ 8) × (at + N ≤ length buffer.old) × (nat_abs z < 256 ^ N) }
    ensures { buffer.new ≡ sets buffer.old at (signed_bytes_of N z) }
{
    buffer[at..at + N].copy_from_slice(&z.to_be_bytes()[8 - N..]);
}
