// A scan whose rays are fed while the antenna turns. The answer is 0, with the state and the lent lists written, or the refusal number, with all
// of them as they came in.
ghost use Rattle.tally.specs.LentSums.{sums_held};
ghost use Rattle.scan.specs.LentLists.{lent_apart};
ghost use Rattle.sweep_checks.specs.RayGroup.{group_held};
ghost use Rattle.c_structs.specs.Structs.{head_of};
ghost use Rattle.c_answers.specs.LentNumbers.{sums_apart, cells_apart};
ghost use Rattle.c_sweep_calls.specs.SweepCalls.{OpensSweep, TakesRays, ClosesSweep};

use c_answers::refusal_number;
use c_sweep_calls::{answer_close, answer_open, answer_take};
use scan::{ListsMut, Rays};
use tally::{CellsMut, SumsMut, SumsRef};

#[unsafe(no_mangle)]
pub extern "C" fn uldrevin_sweep_open(
    scan: &[i64; 13],
    counts: &mut [u32],
    quality_sums: &mut [u32],
    value_sums: &mut [u64],
    weighted_sums: &mut [u64],
    sweep: &mut [i64; 15],
) -> u32
    ensures { OpensSweep (head_of scan.now) (sums_apart counts quality_sums value_sums weighted_sums) sweep result }
{
    refusal_number(answer_open(
        scan,
        &mut SumsMut {
            counts,
            quality_sums,
            value_sums,
            weighted_sums,
        },
        sweep,
    ))
}

// Kept: the C interface, where each list is a parameter of its own.
#[unsafe(no_mangle)]
pub extern "C" fn uldrevin_sweep_take(
    sweep: &mut [i64; 15],
    azimuths: &[u32],
    values: &[u16],
    qualities: &[u8],
    ledger: &mut [u32],
    marks: &mut [u8],
    counts: &mut [u32],
    quality_sums: &mut [u32],
    value_sums: &mut [u64],
    weighted_sums: &mut [u64],
) -> u32
    ensures { TakesRays sweep (group_held azimuths.now values.now qualities.now) (lent_apart ledger marks counts quality_sums value_sums weighted_sums) result }
{
    refusal_number(answer_take(
        sweep,
        Rays {
            azimuths,
            values,
            qualities,
        },
        &mut ListsMut {
            ledger,
            marks,
            counts,
            quality_sums,
            value_sums,
            weighted_sums,
        },
    ))
}

// Kept: the C interface, where each list is a parameter of its own.
#[unsafe(no_mangle)]
pub extern "C" fn uldrevin_sweep_close(
    sweep: &mut [i64; 15],
    counts: &[u32],
    quality_sums: &[u32],
    value_sums: &[u64],
    weighted_sums: &[u64],
    means: &mut [u16],
    cell_qualities: &mut [u8],
) -> u32
    ensures { ClosesSweep sweep (sums_held counts.now quality_sums.now value_sums.now weighted_sums.now) (cells_apart means cell_qualities) result }
{
    refusal_number(answer_close(
        sweep,
        SumsRef {
            counts,
            quality_sums,
            value_sums,
            weighted_sums,
        },
        &mut CellsMut {
            means,
            qualities: cell_qualities,
        },
    ))
}
