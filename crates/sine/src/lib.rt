// Document 01, "Sine of any angle": sine and cosine times Q = 2^30, of an angle in ten-thousandths of a degree.
#![tactic(auto)]

ghost use Rattle.std.specs.Prelude.{◌≡◌, ◌*◌, ◌<◌, ◌≤◌, neg_ℤ};
ghost use Rattle.arithmetic.specs.Floor.{◌modulo◌};
ghost use Rattle.sine.specs.Quarters.{in_turn};
ghost use Rattle.sine.specs.Sine.{quarter_sine, sine_of, cosine_of};

const Q: u64 = 1073741824;

const TURN: i64 = 3600000;

const QUARTER: u32 = 900000;

// The sine of any angle, negative ones too.
pub fn sine(angle: i64) -> i64
    ensures { result ≡ sine_of angle }
{
    sine_in_turn(turn(angle))
}

// The sine of the angle plus 900,000. Whole turns are taken off first, so that no angle is too large for the sum.
pub fn cosine(angle: i64) -> i64
    ensures { result ≡ cosine_of angle }
{
    sine_in_turn((turn(angle) + QUARTER) % 3600000)
}

// The angle modulo 3,600,000.
#[tactic(auto, using(arithmetic::proofs::Floor::remainder_modulo))]
fn turn(angle: i64) -> u32
    ensures { (result ≡ angle modulo 3600000) × (result < 3600000) }
{
    angle.rem_euclid(TURN) as u32
}

// The four quarters in order: the sine of t, the sine of 900,000 - t, minus the first, minus the second.
fn sine_in_turn(m: u32) -> i64
    requires { m < 3600000 }
    ensures { result ≡ in_turn neg_ℤ quarter_sine m }
{
    let quarter = m / QUARTER;
    let t = m % QUARTER;
    match quarter {
        0 => quarter_sine(t),
        1 => quarter_sine(QUARTER - t),
        2 => -quarter_sine(t),
        _ => -quarter_sine(QUARTER - t),
    }
}

// The sine of t from 0 to 900,000, by the sine of the sum of a tenths of a degree and b angle units.
fn quarter_sine(t: u32) -> i64
    requires { t ≤ 900000 }
    ensures { result ≡ quarter_sine t }
{
    let a = (t / 1000) as usize;
    let b = u64::from(t % 1000);
    let s = coarse_sines::coarse_sines();
    let sum = u64::from(s[a]) * u64::from(fine_sines::fine_cosine(b))
        + u64::from(s[900 - a]) * u64::from(fine_sines::fine_sine(b));
    (sum / Q) as i64
}
