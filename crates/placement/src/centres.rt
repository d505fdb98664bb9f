// Where the centres of a ray's gates are.
ghost use Rattle.std.specs.Prelude.{◌≡◌, ◌<◌, ◌^◌};
ghost use Rattle.placement.specs.Centres.{centre_of};

// The first centre and the spacing, in centimetres.
#[derive(Clone, Copy)]
pub struct Centres {
    pub first: u32,
    pub spacing: u32,
}

impl Centres {
    // For our own crates: they have tested the ranges.
    pub fn centre(self, gate: u32) -> u32
        requires { centre_of self gate < 2 ^ 32 }
        ensures { result ≡ centre_of self gate }
    {
        self.first + gate * self.spacing
    }
}
