// The gates of a group of rays, added onto the sums: all of them or none. `entries` is room for the ledger of one ray, of as many places as a ray
// has gates.
#![tactic(auto)]

mod undo;

ghost use Rattle.std.specs.Prelude.{length};
ghost use Rattle.placement.specs.Gate.{entry_of};
ghost use Rattle.tally.specs.LentSums.{KeepsSums, lent_sums, sums_in};
ghost use Rattle.scan.specs.Rays.{regular_rays};
ghost use Rattle.scan_ledger.specs.LedgerRoom.{surveyed_gates};
ghost use Rattle.ray_sums.specs.RaySums.{AddsAll};
ghost use Rattle.group_sums.specs.GroupRoom.{GroupAddable};

use crate::undo::take_out_rays;
use placement::{Centres, Survey};
use ray_sums::add_ray;
use scan::Rays;
use tally::SumsMut;

// Adds ray after ray; where one has no room, those before it are taken out again. Says whether all were added. For our own crates: they have tested
// the rays.
pub fn add_rays(
    survey: Survey,
    centres: Centres,
    entries: &mut [u32],
    rays: Rays<'_>,
    sums: &mut SumsMut<'_>,
) -> bool
    requires { GroupAddable centres (length entries.old) rays.azimuths.now rays.values.now rays.qualities.now (sums_in sums.old) }
    ensures kept { KeepsSums sums.old sums.new }
    ensures added { AddsAll (surveyed_gates entry_of survey centres (regular_rays (length entries.old) rays.entry.azimuths.now)) rays.entry.values.now rays.entry.qualities.now (lent_sums sums) result }
{
    // No count or sum is past its width as it comes in: the types of the lists say so.
    sums.fit();
    let gates = entries.len();
    for (ray, azimuth) in rays.azimuths.iter().enumerate() {
        let start = ray * gates;
        let end = start + gates;
        let values = &rays.values[start..end];
        let qualities = &rays.qualities[start..end];
        if !add_ray(survey, *azimuth, centres, entries, values, qualities, sums) {
            take_out_rays(survey, centres, entries, rays, ray, sums);
            return false;
        }
    }
    true
}
