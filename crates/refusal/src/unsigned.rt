// A number of any sign and size where a number of 32 bits without a sign is meant.
ghost use Rattle.std.specs.Prelude.{◌≡◌};
ghost use Rattle.refusal.specs.Unsigned as spec;

// 4,294,967,295 stands for a number that does not fit: it is beyond every limit, so that the number is refused by its rule.
#[tactic(auto, unfolding(crate::specs::Unsigned::unsigned32))]
// Kept: what may not change, the clause below: by it a number that does not fit is refused by its own rule.
pub fn unsigned32(z: i64) -> u32
    ensures { result ≡ spec.unsigned32 z }
{
    u32::try_from(z).unwrap_or(u32::MAX)
}
