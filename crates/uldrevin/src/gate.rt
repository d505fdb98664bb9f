// The placement of one gate. The answer is 0, with cell, X, Y and mark written, or the refusal number, with the four as they came in. The
// cell of a gate outside the grid is 4,294,967,295.
ghost use Rattle.c_answers.specs.LentNumbers.{lent_gate};
ghost use Rattle.c_scan_calls.specs.ScanCalls.{PlacesGate};

use c_answers::{GateMut, refusal_number};
use c_scan_calls::answer_place;

#[unsafe(no_mangle)]
pub extern "C" fn uldrevin_place(
    site: &[i64; 2],
    grid: &[i64; 6],
    azimuth: i64,
    range: i64,
    cell: &mut u32,
    x: &mut i64,
    y: &mut i64,
    mark: &mut u8,
) -> u32
    ensures { PlacesGate site.now grid.now azimuth range (lent_gate cell x y mark) result }
{
    refusal_number(answer_place(
        site,
        grid,
        azimuth,
        range,
        &mut GateMut { cell, x, y, mark },
    ))
}
