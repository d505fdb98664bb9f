// Laws of numbers and lists, in proofs/, and the one quotient that several crates work.
#![tactic(auto)]

ghost use Rattle.std.specs.Prelude.{◌≡◌, ◌<◌};
ghost use Rattle.arithmetic.specs.Floor.{◌÷◌};

// floor(a / d). -1 - a takes a negative number apart: floor(a / d) is -1 - floor((-1 - a) / d). For our own crates: they divide by a side
// or by Q + n, which are positive.
pub fn floor_div(a: i64, d: u64) -> i64
    requires { 0 < d }
    ensures { result ≡ a ÷ d }
{
    // Kept: what may not change, the clause `requires { 0 < d }`: `div_euclid` divides by an i64, and would ask for d < 2^63 as well.
    if a < 0 {
        -1 - (((-1 - a) as u64 / d) as i64)
    } else {
        (a as u64 / d) as i64
    }
}
