// The published cells, from any sums. The answer is 0, with the lent cells written, or the refusal number, with them as they came in.
ghost use Rattle.tally.specs.LentSums.{sums_held};
ghost use Rattle.c_structs.specs.Structs.{weighting_of};
ghost use Rattle.c_answers.specs.LentNumbers.{cells_apart};
ghost use Rattle.c_scan_calls.specs.ScanCalls.{PublishesSums};

use c_answers::refusal_number;
use c_scan_calls::answer_publish;
use tally::{CellsMut, SumsRef};

// 0 asks for plain means, any other number for those by quality.
// Kept: the C interface, where each list is a parameter of its own.
#[unsafe(no_mangle)]
pub extern "C" fn uldrevin_publish(
    weighting: i64,
    counts: &[u32],
    quality_sums: &[u32],
    value_sums: &[u64],
    weighted_sums: &[u64],
    means: &mut [u16],
    cell_qualities: &mut [u8],
) -> u32
    ensures { PublishesSums (weighting_of weighting) (sums_held counts.now quality_sums.now value_sums.now weighted_sums.now) (cells_apart means cell_qualities) result }
{
    refusal_number(answer_publish(
        weighting,
        SumsRef {
            counts,
            quality_sums,
            value_sums,
            weighted_sums,
        },
        &mut CellsMut {
            means,
            qualities: cell_qualities,
        },
    ))
}
