// The tally of a scan, of accepted numbers and lists: ledger and marks, then the sums.
#![tactic(auto)]

ghost use Rattle.std.specs.Prelude.{◌≡◌};
ghost use Rattle.scan.specs.LentLists.{lists_in, KeepsLists};
ghost use Rattle.scan.specs.Scan.{scan_of};
ghost use Rattle.scan.specs.ScanRefusal.{refusal_for};
ghost use Rattle.tally.specs.LentSums.{KeepsSums, sums_in};
ghost use Rattle.tally.specs.Tally.{cleared};
ghost use Rattle.tally.specs.TallyRoom.{Addable, AddsGates};
ghost use Rattle.accepted_tally.specs.TalliedLists.{tallied_lists};

use placement::{Centres, survey_of};
use scan::{ListsMut, Rays, ScanHead};
use scan_ledger::scan_ledger;
use tally::{Gates, SumsMut, fit_16_bits};

// For our own crates: they have tested the scan and the lengths of the lists.
pub fn accepted_tally(head: ScanHead, rays: Rays<'_>, lists: &mut ListsMut<'_>)
    requires { refusal_for (scan_of head rays) (lists_in lists.old) ≡ 0 }
    ensures kept { KeepsLists lists.old lists.new }
    ensures tallied { lists_in lists.new ≡ tallied_lists (scan_of head rays.entry) }
{
    // No value is past 16 bits: the list's type says so.
    fit_16_bits(rays.values);
    let survey = survey_of(head.site, head.grid);
    let centres = Centres {
        first: head.first,
        spacing: head.spacing,
    };
    scan_ledger(
        survey,
        head.gates as usize,
        centres,
        rays.azimuths,
        lists.ledger,
        lists.marks,
    );
    let ledger = &mut *lists.ledger;
    let mut sums = SumsMut {
        counts: lists.counts,
        quality_sums: lists.quality_sums,
        value_sums: lists.value_sums,
        weighted_sums: lists.weighted_sums,
    };
    sum_gates(ledger, rays, &mut sums);
}

// The gates' sums alone: what the lists held before plays no part.
fn sum_gates(ledger: &[u32], rays: Rays<'_>, sums: &mut SumsMut<'_>) -> usize
    requires { Addable ledger.now rays.values.now rays.qualities.now (cleared (sums_in sums.old)) }
    ensures kept { KeepsSums sums.old sums.new }
    ensures added { AddsGates ledger.now rays.entry.values.now rays.entry.qualities.now (record { entry = cleared (sums_in sums.old); exit = sums_in sums.new }) result }
{
    sums.clear();
    sums.add_gates(Gates {
        ledger,
        values: rays.values,
        qualities: rays.qualities,
    })
}
