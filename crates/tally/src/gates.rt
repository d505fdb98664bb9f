// What a gate contributes to its cell.
ghost use Rattle.std.specs.Prelude.{◌≡◌};
ghost use Rattle.tally.specs.Gates.{echo_of, is_measured, weighted_echo};

// 65,535 means not measured.
// Kept: what may not change: document 01 and the C interface name 65,535 and 65,534 in lists of 16-bit values.
#[tactic(auto, unfolding(crate::specs::Gates::is_measured))]
pub fn is_measured(value: u16) -> bool
    ensures { result ≡ is_measured value }
{
    value != 65535
}

// To the value sum: the value. 65,534 means measured with no echo and counts as 0.
#[tactic(auto, unfolding(crate::specs::Gates::echo_of))]
pub fn echo_of(value: u16) -> u16
    ensures { result ≡ echo_of value }
{
    if value == 65534 { 0 } else { value }
}

// To the weighted sum: value x quality.
#[tactic(auto, unfolding(crate::specs::Gates::weighted_echo))]
pub fn weighted_echo(value: u16, quality: u8) -> u64
    ensures { result ≡ weighted_echo value quality }
{
    u64::from(echo_of(value)) * u64::from(quality)
}
