// What C, Rust and Python link: the proved functions under C names.
#![tactic(auto)]

pub mod gate;
pub mod published_sums;
pub mod record;
pub mod tallied_scan;
pub mod turning_scan;

ghost use Rattle.std.specs.Prelude.{◌≡◌};
ghost use Rattle.sine.specs.Sine.{sine_of, cosine_of};

// The sine of an angle in ten-thousandths of a degree, times 2^30.
#[unsafe(no_mangle)]
pub extern "C" fn uldrevin_sine(angle: i64) -> i64
    ensures { result ≡ sine_of angle }
{
    sine::sine(angle)
}

// The cosine of an angle in ten-thousandths of a degree, times 2^30.
#[unsafe(no_mangle)]
pub extern "C" fn uldrevin_cosine(angle: i64) -> i64
    ensures { result ≡ cosine_of angle }
{
    sine::cosine(angle)
}
