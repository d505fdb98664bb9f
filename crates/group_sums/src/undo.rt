// The first rays of a group, taken out of the sums again.
ghost use Rattle.std.specs.Prelude.{◌≡◌, ◌*◌, ◌≤◌, length};
ghost use Rattle.placement.specs.Gate.{entry_of};
ghost use Rattle.tally.specs.LentSums.{KeepsSums, lent_sums, sums_in};
ghost use Rattle.tally.specs.Tally.{added_first};
ghost use Rattle.scan.specs.Rays.{regular_rays};
ghost use Rattle.scan_ledger.specs.LedgerRoom.{surveyed_gates};
ghost use Rattle.group_sums.specs.GroupRoom.{GroupAddable, RaysAdded};

use placement::{Centres, Survey};
use ray_sums::take_out_ray;
use scan::Rays;
use tally::SumsMut;

// Leaves the sums onto which the first rays were added. The ray that was added last goes first.
pub fn take_out_rays(
    survey: Survey,
    centres: Centres,
    entries: &mut [u32],
    rays: Rays<'_>,
    count: usize,
    sums: &mut SumsMut<'_>,
)
    requires { GroupAddable centres (length entries.old) rays.azimuths.now rays.values.now rays.qualities.now (sums_in sums.old)
        × (count ≤ length rays.azimuths.now)
        × RaysAdded (surveyed_gates entry_of survey centres (regular_rays (length entries.old) rays.azimuths.now)) rays.values.now rays.qualities.now (count * length entries.old) (sums_in sums.old) }
    ensures kept { KeepsSums sums.old sums.new }
    ensures taken_out { let held = lent_sums sums in
        let gates = length entries.old in
        held.entry ≡ added_first (surveyed_gates entry_of survey centres (regular_rays gates rays.entry.azimuths.now)) rays.entry.values.now rays.entry.qualities.now (count * gates) held.exit }
{
    let gates = entries.len();
    for ray in (0..count).rev() {
        let start = ray * gates;
        let end = start + gates;
        let values = &rays.values[start..end];
        let qualities = &rays.qualities[start..end];
        take_out_ray(
            survey,
            rays.azimuths[ray],
            centres,
            entries,
            values,
            qualities,
            sums,
        );
    }
}
