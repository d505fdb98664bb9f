// The numbers that the words give. These functions are for our own crates: a gate is given in at most 10 words.
ghost use Rattle.std.specs.Prelude.{◌≡◌, ◌≤◌, ◌+◌};
ghost use Rattle.refusal.specs.Unsigned.{unsigned32};
ghost use Rattle.word_value.specs.WordValue.{parsed};
ghost use Rattle.gate_words.specs.GivenWords.{word, number_at, are_numbers};
ghost use Rattle.gate_words.specs.GivenGate.{given, site_given, hrap_given, radolan_given};

use crate::words::{word, word_start};
use limits::{Grid, HrapGrid, RadolanGrid, Site};

// Kept: `n ≤ 10` is asked here and below, no plainer as a type: a struct of the number of a word would be made of a literal at each call.
fn number(words: &[u8], n: usize) -> Option<i64>
    requires { n ≤ 10 }
    ensures { result ≡ parsed (word words.now n) }
{
    word_value::parse(word(words, n))
}

// 0 where the word is no number.
// Kept: what may not change, the definitions `site_given`, `hrap_given` and `radolan_given`, which take 0 there.
#[tactic(auto, unfolding(crate::specs::GivenWords::number_at))]
fn number_at(words: &[u8], n: usize) -> i64
    requires { n ≤ 10 }
    ensures { result ≡ number_at words.now n }
{
    number(words, n).unwrap_or(0)
}

fn are_numbers(words: &[u8], from: usize, count: usize) -> bool
    requires { from + count ≤ 10 }
    ensures { result ≡ are_numbers words.now from count }
{
    (0..count).all(|k| number(words, from + k).is_some())
}

pub fn unsigned_at(words: &[u8], n: usize) -> u32
    requires { n ≤ 10 }
    ensures { result ≡ unsigned32 (number_at words.now n) }
{
    refusal::unsigned32(number_at(words, n))
}

// So many words, the fifth of them the kind, all others numbers.
#[tactic(auto, using(crate::proofs::GivenLaws::same_bytes), unfolding(crate::specs::GivenGate::given, crate::specs::GivenWords::are_words))]
pub fn is_given(words: &[u8], count: usize, kind: &[u8]) -> bool
    requires { (5 ≤ count) × (count ≤ 10) }
    ensures { result ≡ given words.now count kind.now }
{
    word_start(words, count) == words.len()
        && word(words, 4) == kind
        && are_numbers(words, 0, 4)
        && are_numbers(words, 5, count - 5)
}

pub fn site_given(words: &[u8]) -> Site
    ensures { result ≡ site_given words.now }
{
    Site {
        latitude: number_at(words, 0),
        longitude: number_at(words, 1),
    }
}

pub fn hrap_given(words: &[u8]) -> Grid
    ensures { result ≡ hrap_given words.now }
{
    Grid::Hrap(HrapGrid {
        i: number_at(words, 5),
        j: number_at(words, 6),
        columns: unsigned_at(words, 7),
        rows: unsigned_at(words, 8),
    })
}

pub fn radolan_given(words: &[u8]) -> Grid
    ensures { result ≡ radolan_given words.now }
{
    Grid::Radolan(RadolanGrid {
        x: number_at(words, 5),
        y: number_at(words, 6),
        side: unsigned_at(words, 7),
        columns: unsigned_at(words, 8),
        rows: unsigned_at(words, 9),
    })
}
