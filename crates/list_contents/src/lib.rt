// Writes fields 5 to 7 into a buffer, each with its tag and length. This function is for our own crate `record_writer`, which has checked
// the scan and the buffer's length.
#![tactic(auto)]

ghost use Rattle.std.specs.Prelude.{◌≡◌, ◌≤◌, ◌+◌, ◌*◌, map, length};
ghost use Rattle.std.proofs.lemmas.List.Edits.{sets};
ghost use Rattle.big_endian.specs.BigEndian.{all_bytes_of};
ghost use Rattle.record_contents.specs.RecordBytes.{field_bytes};

use big_endian::{Word, put_list};
use record_contents::put_header;

// Kept: a buffer and a place, by the one form of all seven fields, which is no plainer otherwise (put_header of record_contents).
#[tactic(auto, using(record_contents::proofs::WrittenBytes::numbers_stored))]
pub fn put_numbers<T: Word>(buffer: &mut [u8], at: usize, tag: u32, numbers: &[T])
    requires { (length numbers.now ≤ 32767) × (at + 3 + T.WIDTH * length numbers.now ≤ length buffer.old) }
    ensures { buffer.new ≡ sets buffer.old at (field_bytes tag (all_bytes_of T.WIDTH (map T.number numbers.now))) }
{
    put_header(buffer, at, tag, (T::WIDTH * numbers.len()) as u32);
    put_list(buffer, at + 3, numbers);
}
