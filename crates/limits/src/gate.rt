// What is accepted of the direction and the range of a gate.
ghost use Rattle.std.specs.Prelude.{◌≡◌};
ghost use Rattle.limits.specs.Accepted.{range_accepted, azimuth_accepted};

#[tactic(auto, unfolding(crate::specs::Accepted::range_accepted))]
pub fn range_accepted(range: u32) -> bool
    ensures { result ≡ range_accepted range }
{
    range <= 46000000
}

#[tactic(auto, unfolding(crate::specs::Accepted::azimuth_accepted))]
pub fn azimuth_accepted(azimuth: u32) -> bool
    ensures { result ≡ azimuth_accepted azimuth }
{
    azimuth <= 3599999
}
