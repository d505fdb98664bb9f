// The lengths of the lists that an operation of a sweep is lent.
ghost use Rattle.std.specs.Prelude.{◌≡◌, ◌&&◌, ◌≤◌, length};
ghost use Rattle.tally.specs.LentSums.{sums_read, cells_in};
ghost use Rattle.scan.specs.LentLists.{lists_in};
ghost use Rattle.sweep_checks.specs.RayGroup.{group_of};
ghost use Rattle.sweep_checks.specs.SweepLengths.{sums_accepted, group_accepted, cells_accepted};

use scan::{ListsMut, Rays, ScanHead, cells_of, gates_of};
use tally::{CellsMut, SumsRef};

// Columns x rows each.
#[tactic(auto, unfolding(crate::specs::SweepLengths::sums_accepted))]
pub fn sums_accepted(head: ScanHead, sums: SumsRef<'_>) -> bool
    ensures { result ≡ sums_accepted head (sums_read sums.entry) }
{
    let cells = cells_of(head);
    sums.counts.len() == cells
        && sums.quality_sums.len() == cells
        && sums.value_sums.len() == cells
        && sums.weighted_sums.len() == cells
}

// A ray or more; rays x gates of the group; rays x gates of the whole ledger and of all marks. No more rays than are announced.
#[tactic(auto, unfolding(crate::specs::SweepLengths::group_accepted))]
fn group_accepted(head: ScanHead, rays: Rays<'_>, lists: &ListsMut<'_>) -> bool
    requires { length rays.azimuths.now ≤ head.rays }
    ensures { result ≡ group_accepted head (group_of rays.entry) (lists_in lists.now) }
{
    let gates = rays.azimuths.len() * (head.gates as usize);
    let all = gates_of(head);
    rays.azimuths.len() != 0
        && rays.values.len() == gates
        && rays.qualities.len() == gates
        && lists.ledger.len() == all
        && lists.marks.len() == all
}

// Of all that a group is taken with.
pub fn taken_accepted(head: ScanHead, rays: Rays<'_>, lists: &ListsMut<'_>) -> bool
    requires { length rays.azimuths.now ≤ head.rays }
    ensures { result ≡ (group_accepted head (group_of rays.entry) (lists_in lists.now) && sums_accepted head (lists_in lists.now).sums) }
{
    group_accepted(head, rays, lists) && sums_accepted(head, lists.sums())
}

// Columns x rows each.
#[tactic(auto, unfolding(crate::specs::SweepLengths::cells_accepted))]
pub fn cells_accepted(head: ScanHead, cells: &CellsMut<'_>) -> bool
    ensures { result ≡ cells_accepted head (cells_in cells.now) }
{
    let count = cells_of(head);
    cells.means.len() == count && cells.qualities.len() == count
}
