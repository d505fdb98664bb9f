// A number that stands in a fixed count of bytes, and lists of them. These functions are for our own crates: the places lie in a record or just past
// it, and they have made sure of room in the buffer.
ghost use Rattle.std.specs.Prelude.{◌≡◌, ℕ, ◌<◌, ◌≤◌, ◌+◌, ◌*◌, ◌^◌, map, length};
ghost use Rattle.std.proofs.lemmas.List.Edits.{sets};
ghost use Rattle.std.proofs.Common.{rules};
ghost use Rattle.big_endian.specs.BigEndian.{bytes_of, all_bytes_of, number_at, numbers_at};

use crate::read::byte_at;
use crate::written::put;

// Kept: a place beside the bytes or the buffer, here and in the two lists; the new form is no plainer, as one text says where a number is
// read and where it is put: `T::read(bytes, at + T::WIDTH * k)`, `n.put(buffer, at + T::WIDTH * k)`.
pub trait Word: Copy {
    ghost WIDTH: { ℕ };

    const WIDTH: usize;

    ghost number: { Self → ℕ };

    fn read(bytes: &[u8], at: usize) -> Self
        requires { at < 2 ^ 40 }
        ensures { number result ≡ number_at WIDTH bytes.now at };

    fn put(self, buffer: &mut [u8], at: usize)
        requires { at + WIDTH ≤ length buffer.old }
        ensures { buffer.new ≡ sets buffer.old at (bytes_of WIDTH (number self)) };

    ghost narrow: { WIDTH ≤ 4 };
}

impl Word for u8 {
    ghost WIDTH = { 1 };

    const WIDTH: usize = 1;

    ghost number = { λ n. n };

    #[tactic(auto, using(crate::proofs::BigEndianLaws::number_one))]
    fn read(bytes: &[u8], at: usize) -> u8 {
        byte_at(bytes, at)
    }

    fn put(self, buffer: &mut [u8], at: usize) {
        put::<1>(buffer, at, u32::from(self));
    }

    ghost narrow = { Prim.search rules };
}

impl Word for u16 {
    ghost WIDTH = { 2 };

    const WIDTH: usize = 2;

    ghost number = { λ n. n };

    #[tactic(auto, using(crate::proofs::ReadNumbers::number_two))]
    fn read(bytes: &[u8], at: usize) -> u16 {
        u16::from_be_bytes([byte_at(bytes, at), byte_at(bytes, at + 1)])
    }

    fn put(self, buffer: &mut [u8], at: usize) {
        put::<2>(buffer, at, u32::from(self));
    }

    ghost narrow = { Prim.search rules };
}

impl Word for u32 {
    ghost WIDTH = { 4 };

    const WIDTH: usize = 4;

    ghost number = { λ n. n };

    #[tactic(auto, using(crate::proofs::ReadNumbers::number_four))]
    fn read(bytes: &[u8], at: usize) -> u32 {
        u32::from_be_bytes([
            byte_at(bytes, at),
            byte_at(bytes, at + 1),
            byte_at(bytes, at + 2),
            byte_at(bytes, at + 3),
        ])
    }

    fn put(self, buffer: &mut [u8], at: usize) {
        put::<4>(buffer, at, self);
    }

    ghost narrow = { Prim.search rules };
}

pub fn read_list<T: Word>(bytes: &[u8], at: usize, list: &mut [T])
    requires { at + T.WIDTH * length list.old < 2 ^ 39 }
    ensures { map T.number list.new ≡ numbers_at T.WIDTH bytes.now at (length list.old) }
{
    for (k, n) in list.iter_mut().enumerate() {
        *n = T::read(bytes, at + T::WIDTH * k);
    }
}

pub fn put_list<T: Word>(buffer: &mut [u8], at: usize, list: &[T])
    requires { at + T.WIDTH * length list.now ≤ length buffer.old }
    ensures { buffer.new ≡ sets buffer.old at (all_bytes_of T.WIDTH (map T.number list.now)) }
{
    for (k, n) in list.iter().enumerate() {
        n.put(buffer, at + T::WIDTH * k);
    }
}
