// Whole numbers as bytes, big-endian, negative ones in two's complement.
#![tactic(auto)]

mod read;
mod word;
mod written;

pub use read::{byte_at, i16_at, i32_at};
pub use word::{Word, put_list, read_list};
pub use written::{put, put_signed};
