// Where the radar stands, and what is accepted of that.
ghost use Rattle.std.specs.Prelude.{◌≡◌};
ghost use Rattle.limits.specs.Accepted.{site_accepted};

// Latitude and longitude, in ten-thousandths of a degree, east positive.
#[derive(Clone, Copy)]
pub struct Site {
    pub latitude: i64,
    pub longitude: i64,
}

#[tactic(auto, unfolding(crate::specs::Accepted::site_accepted, refusal::specs::Checks::in_signed_range))]
pub fn site_accepted(site: Site) -> bool
    ensures { result ≡ site_accepted site }
{
    (200000..=750000).contains(&site.latitude) && (-1800000..=1800000).contains(&site.longitude)
}
