// The ledger of rays and their marks, one ray after the other.
#![tactic(auto)]

ghost use Rattle.std.specs.Prelude.{◌≡◌};
ghost use Rattle.std.proofs.lemmas.List.Edits.{sets};
ghost use Rattle.placement.specs.Gate.{entry_of, mark_of};
ghost use Rattle.scan.specs.Rays.{regular_rays};
ghost use Rattle.scan_ledger.specs.LedgerRoom.{RaysSpan, surveyed_gates};

use placement::{Centres, Survey, ray_ledger};

// Each ray has `gates` gates; what is lent behind these stays. For our own crates: they have tested the scan.
pub fn scan_ledger(
    survey: Survey,
    gates: usize,
    centres: Centres,
    azimuths: &[u32],
    ledger: &mut [u32],
    marks: &mut [u8],
)
    requires { RaysSpan gates centres azimuths.now ledger.old marks.old }
    ensures entries { ledger.new ≡ sets ledger.old 0 (surveyed_gates entry_of survey centres (regular_rays gates azimuths.now)) }
    ensures marks { marks.new ≡ sets marks.old 0 (surveyed_gates mark_of survey centres (regular_rays gates azimuths.now)) }
{
    for (ray, azimuth) in azimuths.iter().enumerate() {
        let start = ray * gates;
        let end = start + gates;
        ray_ledger(
            survey,
            *azimuth,
            centres,
            &mut ledger[start..end],
            &mut marks[start..end],
        );
    }
}
