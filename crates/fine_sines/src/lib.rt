// Document 01, "Sine tables": the entries of F and G, worked out when they are needed.
#![tactic(auto)]

ghost use Rattle.std.specs.Prelude.{◌≡◌, ◌+◌, ◌/◌, ◌^◌, ◌<◌, pos};
ghost use Rattle.sine_series.specs.Tables.{F, G};

const Q: u64 = 1073741824;

// An angle unit is x = pi / 1,800,000. For b of them, up to 999, two terms of each series give every entry.

// The sine, x b - x^3 b^3 / 6: Q x and Q x^3 / 6 times 2^35, to the nearest.
const SINE_SCALE: u64 = 34359738368;

const FIRST: u64 = 64391284071797;

const THIRD: u64 = 33;

// The cosine, 1 - x^2 b^2 / 2: Q x^2 / 2 times 2^25, to the nearest.
const COSINE_SCALE: u64 = 33554432;

const SECOND: u64 = 54875;

// F[b], the sine of b angle units. For our own crate `sine`: b is a remainder by 1,000.
pub fn fine_sine(b: u64) -> u32
    requires { b < 1000 }
    ensures { pos result ≡ F b }
{
    let scaled = FIRST * b - THIRD * b * b * b;
    nearest::<SINE_SCALE>(scaled) as u32
}

// G[b], the cosine of b angle units. For our own crate `sine`: b is a remainder by 1,000.
pub fn fine_cosine(b: u64) -> u32
    requires { b < 1000 }
    ensures { pos result ≡ G b }
{
    let scaled = SECOND * b * b;
    (Q - nearest::<COSINE_SCALE>(scaled)) as u32
}

// The whole number nearest to a scaled one.
fn nearest<const SCALE: u64>(scaled: u64) -> u64
    requires { (0 < SCALE) × (scaled + SCALE / 2 < 2 ^ 64) }
    ensures { result ≡ (scaled + SCALE / 2) / SCALE }
{
    (scaled + SCALE / 2) / SCALE
}
