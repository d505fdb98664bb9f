// Words given one behind the other, each ended by a byte 0, counted from 0. Each function here is ours alone: at most 10 words are
// looked for.
ghost use Rattle.std.specs.Prelude.{◌≡◌, ◌==◌, ◌≤◌, length, position, drop};
ghost use Rattle.gate_words.specs.GivenWords.{word_length, word_start, word};

fn first_nought(bytes: &[u8]) -> Option<usize>
    ensures { result ≡ position (λ b. b == 0) bytes.now }
{
    bytes.iter().position(|b| *b == 0)
}

// How many bytes stand before the first byte 0, or before the end.
#[tactic(auto, using(crate::proofs::GivenLaws::length_or, crate::proofs::GivenLaws::length_within))]
fn word_length(bytes: &[u8]) -> usize
    ensures value { result ≡ word_length bytes.now }
    ensures bounded { result ≤ length bytes.now }
{
    first_nought(bytes).unwrap_or(bytes.len())
}

// The bytes from a place on; none past the end.
fn rest(words: &[u8], start: usize) -> &[u8]
    ensures { result.now ≡ drop start words.now }
{
    words.get(start..).unwrap_or(&[])
}

// Where a word begins; past the end where there are not so many.
pub fn word_start(words: &[u8], n: usize) -> usize
    requires { n ≤ 10 }
    ensures { result ≡ word_start words.now n }
{
    let mut start = 0;
    for _ in 0..n {
        start += word_length(rest(words, start)) + 1;
    }
    start
}

// An empty one where there are not so many.
pub fn word(words: &[u8], n: usize) -> &[u8]
    requires { n ≤ 10 }
    ensures { result.now ≡ word words.now n }
{
    let bytes = rest(words, word_start(words, n));
    &bytes[..word_length(bytes)]
}
