// Whole numbers read from words.
#![tactic(auto)]

ghost use Rattle.std.specs.Prelude.{◌≡◌, true, pos, ◌<◌, ◌≤ℤ◌, IfSome};
ghost use Rattle.std.specs.Char.{is_ascii_digit};
ghost use Rattle.std.specs.List.{list_all};
ghost use Rattle.word_value.specs.WordValue.{is_natural, value_of, number_or, parsed};

fn are_digits(word: &[u8]) -> bool
    ensures { result ≡ list_all is_ascii_digit word.now }
{
    word.iter().all(|b| b.is_ascii_digit())
}

// 1 to 18 digits and nothing else. The length is tested first: a long word is refused unread.
#[tactic(auto, using(crate::proofs::WordLaws::same_digits), unfolding(crate::specs::WordValue::is_natural))]
fn is_natural(word: &[u8]) -> bool
    ensures { result ≡ is_natural word.now }
{
    (1..=18).contains(&word.len()) && are_digits(word)
}

fn value_of(word: &[u8]) -> u64
    requires { is_natural word.now ≡ true }
    ensures value { result ≡ value_of word.now }
    ensures upper_bound { result < 1000000000000000000 }
{
    let mut value = 0;
    for b in word {
        value = value * 10 + u64::from(b - b'0');
    }
    value
}

// The number that digits alone give.
#[tactic(auto, unfolding(crate::specs::WordValue::number_or))]
fn natural(word: &[u8]) -> Option<i64>
    ensures value { result ≡ number_or (is_natural word.now) (pos (value_of word.now)) }
    ensures not_negative { IfSome result (λ z. pos 0 ≤ℤ z) }
{
    if !is_natural(word) {
        return None;
    }
    Some(value_of(word) as i64)
}

// Any word.
// Kept: what may not change, the definition `parsed`: 1 to 18 digits and no plus sign, where `str::parse` takes 19 digits and a plus sign.
pub fn parse(word: &[u8]) -> Option<i64>
    ensures { result ≡ parsed word.now }
{
    match word.strip_prefix(b"-") {
        Some(digits) => natural(digits).map(|z| -z),
        None => natural(word),
    }
}
