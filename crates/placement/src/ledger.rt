// The ledger of one ray: for each of its gates, measured or not, the cell that it goes to, and its mark.
ghost use Rattle.std.specs.Prelude.{◌≡◌, length};
ghost use Rattle.std.proofs.lemmas.List.Edits.{sets};
ghost use Rattle.placement.specs.Gate.{entry_of, mark_of};
ghost use Rattle.placement.specs.Survey.{RaySpan, surveyed_ray};

use crate::centres::Centres;
use crate::gate::gate_at;
use crate::survey::Survey;
use projection::ray_terms;

// Kept: document 01 and the C interface name 4,294,967,295 for a gate outside.
const OUTSIDE: u32 = 4294967295;

// Writes the entries and marks of a ray's gates; marks behind these stay. For our own crates: they have tested site, grid and ranges.
#[tactic(auto, using(arithmetic::proofs::Places::written_none, projection::proofs::GateTerms::ray_limits))]
pub fn ray_ledger(
    survey: Survey,
    azimuth: u32,
    centres: Centres,
    ledger: &mut [u32],
    marks: &mut [u8],
)
    requires { RaySpan centres ledger.old marks.old }
    ensures entries { ledger.new ≡ surveyed_ray entry_of survey centres azimuth (length ledger.old) }
    ensures marks { marks.new ≡ sets marks.old 0 (surveyed_ray mark_of survey centres azimuth (length ledger.old)) }
{
    let ray = ray_terms(azimuth);
    for (gate, entry) in ledger.iter_mut().enumerate() {
        let placement = gate_at(survey, ray, centres.centre(gate as u32));
        // Kept: by its index. With `zip(marks.iter_mut())` the proof didn't close: nothing is known of what either list then holds.
        marks[gate] = u8::from(placement.mark);
        let Some(cell) = placement.cell else {
            *entry = OUTSIDE;
            continue;
        };
        *entry = cell;
    }
}
