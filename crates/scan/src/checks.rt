// What is refused of a scan.
ghost use Rattle.std.specs.Prelude.{◌≡◌, ◌≤◌, ◌*◌};
ghost use Rattle.arithmetic.specs.Places.{all_of};
ghost use Rattle.limits.specs.Accepted.{azimuth_accepted};
ghost use Rattle.refusal.specs.Numbered.{refusal_in};
ghost use Rattle.scan.specs.ScanRefusal.{centres_accepted, quality_accepted, scan_number};

use crate::head::ScanHead;
use refusal::Refusal;

// The lowest refusal of 1 to 8 that applies: of the numbers, of the lists' lengths, of the azimuths and of the qualities.
#[tactic(auto, unfolding(crate::specs::ScanRefusal::scan_number, refusal::specs::Checks::first_refusal, refusal::specs::Checks::in_range))]
pub fn check_scan(
    head: ScanHead,
    lengths: bool,
    azimuths: bool,
    qualities: bool,
) -> Result<(), Refusal>
    ensures { refusal_in result ≡ scan_number head lengths azimuths qualities }
{
    if !(1..=720).contains(&head.rays) {
        return Err(Refusal::Rays);
    }
    if !(1..=1000).contains(&head.gates) {
        return Err(Refusal::Gates);
    }
    if !centres_accepted(head.gates, head.first, head.spacing) {
        return Err(Refusal::Centres);
    }
    if !limits::site_accepted(head.site) {
        return Err(Refusal::Site);
    }
    if !limits::grid_accepted(head.grid) {
        return Err(Refusal::Grid);
    }
    if !lengths {
        return Err(Refusal::Length);
    }
    if !azimuths {
        return Err(Refusal::Azimuth);
    }
    if !qualities {
        return Err(Refusal::Quality);
    }
    Ok(())
}

#[tactic(auto, unfolding(crate::specs::ScanRefusal::centres_accepted, refusal::specs::Checks::in_range))]
fn centres_accepted(gates: u32, first: u32, spacing: u32) -> bool
    requires { (1 ≤ gates) × (gates ≤ 1000) }
    ensures { result ≡ centres_accepted gates first spacing }
{
    first <= 46000000
        && (1..=1000000).contains(&spacing)
        && first + (gates - 1) * spacing <= 46000000
}

pub fn azimuths_accepted(azimuths: &[u32]) -> bool
    ensures { result ≡ all_of azimuth_accepted azimuths.now }
{
    azimuths
        .iter()
        .all(|azimuth| limits::azimuth_accepted(*azimuth))
}

pub fn qualities_accepted(qualities: &[u8]) -> bool
    ensures { result ≡ all_of quality_accepted qualities.now }
{
    qualities.iter().all(|quality| *quality <= 100)
}
