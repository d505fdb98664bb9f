// A group of rays, of accepted numbers and lists: the sums, then ledger and marks.
#![tactic(auto)]

ghost use Rattle.std.specs.Prelude.{false, ◌≡◌};
ghost use Rattle.scan.specs.LentLists.{KeepsLists, lent_lists, lists_in};
ghost use Rattle.sweep_checks.specs.RayGroup.{group_of};
ghost use Rattle.accepted_take.specs.TakenLists.{take_checks, TakesGroup};

use group_sums::add_rays;
use placement::Centres;
use scan::{ListsMut, Rays, ScanHead};
use scan_ledger::scan_ledger;
use tally::SumsMut;

// Ledger and marks may not be written before the group is known to fit, so each ray's entries are worked out into an array first, and again for the
// ledger. Says whether the group fits. For our own crates: they have tested the state, which is not closed, the rays and the lengths of the lists.
pub fn accepted_take(head: ScanHead, taken: u32, rays: Rays<'_>, lists: &mut ListsMut<'_>) -> bool
    requires { take_checks head false taken (group_of rays) (lists_in lists.old) ≡ 0 }
    ensures kept { KeepsLists lists.old lists.new }
    ensures takes { TakesGroup head taken (group_of rays.entry) (lent_lists lists) result }
{
    let gates = head.gates as usize;
    let survey = placement::survey_of(head.site, head.grid);
    let centres = Centres {
        first: head.first,
        spacing: head.spacing,
    };
    let mut entries = [0u32; 1000];
    let mut sums = SumsMut {
        counts: lists.counts,
        quality_sums: lists.quality_sums,
        value_sums: lists.value_sums,
        weighted_sums: lists.weighted_sums,
    };
    if !add_rays(survey, centres, &mut entries[..gates], rays, &mut sums) {
        return false;
    }
    let start = (taken as usize) * gates;
    let end = start + rays.azimuths.len() * gates;
    scan_ledger(
        survey,
        gates,
        centres,
        rays.azimuths,
        &mut lists.ledger[start..end],
        &mut lists.marks[start..end],
    );
    true
}
