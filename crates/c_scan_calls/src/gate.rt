// The placement of one gate.
ghost use Rattle.refusal.specs.Numbered.{refusal_in};
ghost use Rattle.c_answers.specs.LentNumbers.{KeepsGate, gate_lent};
ghost use Rattle.c_scan_calls.specs.ScanCalls.{PlacesGate};

use c_answers::GateMut;
use c_structs::{grid_at, site_at};
use placement::place;
use refusal::{Refusal, unsigned32};

pub fn answer_place(
    site: &[i64; 2],
    grid: &[i64; 6],
    azimuth: i64,
    range: i64,
    gate: &mut GateMut<'_>,
) -> Result<(), Refusal>
    ensures placed { PlacesGate site.now grid.now azimuth range (gate_lent gate) (refusal_in result) }
    ensures kept { KeepsGate gate.old gate.new }
{
    let azimuth = unsigned32(azimuth);
    let range = unsigned32(range);
    gate.put(place(site_at(site), grid_at(grid), azimuth, range)?);
    Ok(())
}
