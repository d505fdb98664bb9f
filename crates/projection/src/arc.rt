// Document 01, "Arc": what depends on the range alone.
ghost use Rattle.std.specs.Prelude.{◌≡◌, ◌≤◌};
ghost use Rattle.projection.specs.Arc.{arc_terms};

const Q: u64 = 1073741824;

// Sine and cosine of the arc, times Q.
#[derive(Clone, Copy)]
pub struct ArcTerms {
    pub sd: i64,
    pub cd: i64,
}

// None of the quotients is negative, so they are worked in u64 and converted once. For our own crates: they have tested the range.
pub fn arc_terms(radius: u64, range: u32) -> ArcTerms
    requires { (637004000 ≤ radius) × (radius ≤ 637120000) × (range ≤ 46000000) }
    ensures { result ≡ arc_terms radius range }
{
    let d = u64::from(range) * Q / radius;
    let d2 = d * d / Q;
    let d3 = d2 * d / Q;
    let d4 = d2 * d2 / Q;
    let d5 = d4 * d / Q;
    ArcTerms {
        sd: (d - d3 / 6 + d5 / 120) as i64,
        cd: (Q - d2 / 2 + d4 / 24) as i64,
    }
}
