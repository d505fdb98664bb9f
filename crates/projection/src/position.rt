// Document 01, "Position". Six numbers depend on the site and the ray, two on the range, and a gate's position on those eight.
ghost use Rattle.std.specs.Prelude.{◌≡◌};
ghost use Rattle.arithmetic.specs.Magnitude.{Magnitude};
ghost use Rattle.projection.specs.Position.{site_terms, ray_terms, position_by};
ghost use Rattle.projection.specs.Terms.{Sound};

use crate::arc::ArcTerms;
use crate::over_q::over_q;
use arithmetic::floor_div;
use limits::Site;

const Q: i64 = 1073741824;

// Sine and cosine, times Q, of the latitude, and of the longitude less the central meridian.
#[derive(Clone, Copy)]
pub struct SiteTerms {
    pub sp: i64,
    pub cp: i64,
    pub sl: i64,
    pub cl: i64,
}

// Sine and cosine of the azimuth, times Q.
#[derive(Clone, Copy)]
pub struct RayTerms {
    pub sa: i64,
    pub ca: i64,
}

// Centimetres east and north of the pole, on the plane of the projection.
#[derive(Clone, Copy)]
pub struct Position {
    pub x: i64,
    pub y: i64,
}

// For our own crates: they have tested the site.
pub fn site_terms(meridian: i64, site: Site) -> SiteTerms
    requires { Magnitude meridian 1050000 × Magnitude site.longitude 1800000 }
    ensures { result ≡ site_terms meridian site }
{
    let latitude = site.latitude;
    let longitude = site.longitude - meridian;
    SiteTerms {
        sp: sine::sine(latitude),
        cp: sine::cosine(latitude),
        sl: sine::sine(longitude),
        cl: sine::cosine(longitude),
    }
}

pub fn ray_terms(azimuth: u32) -> RayTerms
    ensures { result ≡ ray_terms azimuth }
{
    let angle = i64::from(azimuth);
    RayTerms {
        sa: sine::sine(angle),
        ca: sine::cosine(angle),
    }
}

// For our own crates: the eight numbers are those of a site, an azimuth and a range that they have tested.
pub fn position_of(s: SiteTerms, a: RayTerms, c: ArcTerms, k: i64) -> Position
    requires { Sound s a c k }
    ensures { result ≡ position_by s a c k }
{
    let w = over_q(c.sd * a.ca);
    let e = over_q(c.sd * a.sa);
    let n = over_q(s.sp * c.cd + s.cp * w);
    let m = over_q(s.cp * c.cd - s.sp * w);
    let u = over_q(e * s.cl + m * s.sl);
    let v = over_q(m * s.cl - e * s.sl);
    let divisor = (Q + n) as u64;
    Position {
        x: floor_div(k * u, divisor),
        y: floor_div(-k * v, divisor),
    }
}
