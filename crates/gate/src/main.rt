// The placement of one gate that the arguments give:
//     gate latitude longitude azimuth range hrap i j columns rows
//     gate latitude longitude azimuth range radolan x y side columns rows
// It prints `inside` with X, Y, column, row and cell, `outside` with X and Y, or `refused` with a number; anything else is answered by
// the usage line.
#![tactic(auto)]

ghost use Rattle.std.specs.Prelude.{IfSome, ◌≤◌, length};

use std::env::{Env, FillError};

fn main(rt: HostRuntime) {
    let mut words = [0u8; 4096];
    // Words that do not fit give no gate, as no words at all.
    let n = join_arguments(&rt, &mut words).unwrap_or(0);
    print_answer(&rt, &words[..n]);
}

// Puts the arguments one behind the other, each with a byte 0, and answers how many bytes that are; none where they do not fit. Argument
// 0 is the program's own name.
fn join_arguments(env: &impl Env, words: &mut [u8]) -> Option<usize>
    ensures { IfSome result (λ n. n ≤ length words.new) }
{
    let mut end = 0;
    for i in 1..argument_count(env) {
        end = put_argument(env, i, words, end)?;
    }
    Some(end)
}

// How many arguments there are, the program's own name among them.
fn argument_count(env: &impl Env) -> usize {
    (0..usize::MAX)
        .find(|i| matches!(env.arg(*i, &mut []), Err(FillError::NotPresent)))
        .unwrap_or(usize::MAX)
}

// Puts an argument and a byte 0 at a place. The place behind; none where it does not fit.
fn put_argument(env: &impl Env, i: usize, words: &mut [u8], at: usize) -> Option<usize>
    requires { at ≤ length words.old }
    ensures { IfSome result (λ n. n ≤ length words.new) }
{
    let end = at + env.arg(i, &mut words[at..]).ok()?;
    if words.len() <= end {
        return None;
    }
    words[end] = 0;
    Some(end + 1)
}

fn print_answer(to: &impl Print, words: &[u8]) {
    let mut line = [0u8; 256];
    let n = gate_text::gate_text(words, &mut line);
    // Where nobody reads what it prints, the program ends in silence.
    let _ = to.write_all(&line[..n]);
}
