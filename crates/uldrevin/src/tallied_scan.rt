// The tally of a scan. The answer is 0, with the lent lists written, or the refusal number, with all of them as they came in.
ghost use Rattle.scan.specs.LentLists.{lent_apart};
ghost use Rattle.scan.specs.Scan.{scan_held};
ghost use Rattle.c_structs.specs.Structs.{head_of};
ghost use Rattle.c_scan_calls.specs.ScanCalls.{TalliesScan};

use c_answers::refusal_number;
use c_scan_calls::answer_tally;
use scan::{ListsMut, Rays};

// Kept: the C interface, where each list is a parameter of its own.
#[unsafe(no_mangle)]
pub extern "C" fn uldrevin_tally(
    scan: &[i64; 13],
    azimuths: &[u32],
    values: &[u16],
    qualities: &[u8],
    ledger: &mut [u32],
    marks: &mut [u8],
    counts: &mut [u32],
    quality_sums: &mut [u32],
    value_sums: &mut [u64],
    weighted_sums: &mut [u64],
) -> u32
    ensures { TalliesScan (scan_held (head_of scan.now) azimuths.now values.now qualities.now) (lent_apart ledger marks counts quality_sums value_sums weighted_sums) result }
{
    refusal_number(answer_tally(
        scan,
        Rays {
            azimuths,
            values,
            qualities,
        },
        &mut ListsMut {
            ledger,
            marks,
            counts,
            quality_sums,
            value_sums,
            weighted_sums,
        },
    ))
}
