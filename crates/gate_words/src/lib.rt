// One gate given in words: the words, and the numbers that they give.
#![tactic(auto)]

mod given;
mod words;

pub use given::{hrap_given, is_given, radolan_given, site_given, unsigned_at};
