// The tally of a scan.
ghost use Rattle.refusal.specs.Numbered.{refusal_in};
ghost use Rattle.scan.specs.LentLists.{KeepsLists, lent_lists};
ghost use Rattle.scan.specs.Scan.{scan_of};
ghost use Rattle.c_structs.specs.Structs.{head_of};
ghost use Rattle.c_scan_calls.specs.ScanCalls.{TalliesScan};

use c_structs::head_of;
use refusal::Refusal;
use scan::{ListsMut, Rays};
use scan_tally::tally;

pub fn answer_tally(
    scan: &[i64; 13],
    rays: Rays<'_>,
    lists: &mut ListsMut<'_>,
) -> Result<(), Refusal>
    ensures tallied { TalliesScan (scan_of (head_of scan.now) rays.entry) (lent_lists lists) (refusal_in result) }
    ensures kept { KeepsLists lists.old lists.new }
{
    tally(head_of(scan), rays, lists)
}
