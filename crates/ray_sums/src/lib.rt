// The gates of one ray, added onto the sums or taken out of them again. `entries` is room for the ray's ledger, of as many places as it has gates.
#![tactic(auto)]

ghost use Rattle.std.specs.Prelude.{◌≡◌, length};
ghost use Rattle.placement.specs.Gate.{entry_of};
ghost use Rattle.placement.specs.Survey.{surveyed_ray};
ghost use Rattle.tally.specs.LentSums.{KeepsSums, lent_sums, sums_in};
ghost use Rattle.tally.specs.Tally.{added_sums};
ghost use Rattle.take_out.specs.TakeOutRoom.{AddedBefore};
ghost use Rattle.ray_sums.specs.RaySums.{AddsAll, RayAddable, RayRanges};

use placement::{Centres, Survey, ray_ledger};
use take_out::take_out_gates;
use tally::{Gates, SumsMut};

// All of the ray's gates, or none where by them a count or sum would pass its width; says which. For our own crates: they have tested the ray.
pub fn add_ray(
    survey: Survey,
    azimuth: u32,
    centres: Centres,
    entries: &mut [u32],
    values: &[u16],
    qualities: &[u8],
    sums: &mut SumsMut<'_>,
) -> bool
    requires { RayAddable centres entries.old values.now qualities.now (sums_in sums.old) }
    ensures kept { KeepsSums sums.old sums.new }
    ensures added { AddsAll (surveyed_ray entry_of survey centres azimuth (length entries.old)) values.now qualities.now (lent_sums sums) result }
{
    ray_entries(survey, azimuth, centres, entries);
    let added = sums.add_gates(Gates {
        ledger: entries,
        values,
        qualities,
    });
    if added == entries.len() {
        return true;
    }
    let first = Gates {
        ledger: &entries[..added],
        values: &values[..added],
        qualities: &qualities[..added],
    };
    take_out_gates(first, sums);
    false
}

// Leaves the sums onto which the ray's gates were added. For our own crates: they have added them.
pub fn take_out_ray(
    survey: Survey,
    azimuth: u32,
    centres: Centres,
    entries: &mut [u32],
    values: &[u16],
    qualities: &[u8],
    sums: &mut SumsMut<'_>,
)
    requires { RayAddable centres entries.old values.now qualities.now (sums_in sums.old)
        × AddedBefore (surveyed_ray entry_of survey centres azimuth (length entries.old)) values.now qualities.now (sums_in sums.old) }
    ensures kept { KeepsSums sums.old sums.new }
    ensures taken_out { let held = lent_sums sums in
        held.entry ≡ added_sums (surveyed_ray entry_of survey centres azimuth (length entries.old)) values.now qualities.now held.exit }
{
    ray_entries(survey, azimuth, centres, entries);
    let gates = Gates {
        ledger: entries,
        values,
        qualities,
    };
    take_out_gates(gates, sums);
}

// The ray's entries. Its marks, which no sum is made of, go into an array that is left.
fn ray_entries(survey: Survey, azimuth: u32, centres: Centres, entries: &mut [u32])
    requires { RayRanges centres (length entries.old) }
    ensures { entries.new ≡ surveyed_ray entry_of survey centres azimuth (length entries.old) }
{
    let mut marks = [0u8; 1000];
    let gates = entries.len();
    ray_ledger(survey, azimuth, centres, entries, &mut marks[..gates]);
}
