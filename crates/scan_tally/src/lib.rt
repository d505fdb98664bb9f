// The tally of a scan: one scan, one site and one grid come in; out come the ledger, the marks and the cell sums.
#![tactic(auto)]

ghost use Rattle.scan.specs.LentLists.{KeepsLists, lent_lists};
ghost use Rattle.scan.specs.Scan.{scan_of};
ghost use Rattle.scan_tally.specs.ScanTally.{Tallies};

use accepted_tally::accepted_tally;
use refusal::Refusal;
use scan::{
    ListsMut, Rays, ScanHead, azimuths_accepted, check_scan, lengths_accepted, qualities_accepted,
};

// Takes any scan whatever. A refusal leaves every lent list as it came in.
#[tactic(auto, unfolding(scan::specs::ScanRefusal::refusal_for, scan::specs::ScanRefusal::scan_refusal))]
pub fn tally(head: ScanHead, rays: Rays<'_>, lists: &mut ListsMut<'_>) -> Result<(), Refusal>
    ensures kept { KeepsLists lists.old lists.new }
    ensures tallied { Tallies (scan_of head rays.entry) (lent_lists lists) result }
{
    check_scan(
        head,
        lengths_accepted(head, rays, lists),
        azimuths_accepted(rays.azimuths),
        qualities_accepted(rays.qualities),
    )?;
    accepted_tally(head, rays, lists);
    Ok(())
}
