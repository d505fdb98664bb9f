// What is refused of an operation of a sweep. The numbers of a state are tested at each operation, since its owner may alter them.
ghost use Rattle.std.specs.Prelude.{◌≡◌};
ghost use Rattle.arithmetic.specs.Places.{all_of};
ghost use Rattle.refusal.specs.Numbered.{refusal_in};
ghost use Rattle.limits.specs.Accepted.{azimuth_accepted};
ghost use Rattle.tally.specs.LentSums.{sums_in, sums_read, cells_in};
ghost use Rattle.scan.specs.LentLists.{lists_in};
ghost use Rattle.scan.specs.ScanRefusal.{quality_accepted};
ghost use Rattle.sweep_checks.specs.RayGroup.{group_of};
ghost use Rattle.sweep_checks.specs.SweepNumbers.{state_number, open_number, rays_number, take_number, close_number};

use crate::lengths::{cells_accepted, sums_accepted, taken_accepted};
use refusal::Refusal;
use scan::{ListsMut, Rays, ScanHead, azimuths_accepted, check_scan, qualities_accepted};
use tally::{CellsMut, SumsMut, SumsRef};

// 19 for a closed state, then 17 for more rays than were announced.
// Kept: what may not change: `Sweep` with its three operations is the crate `sweep`, above this one, so head, closed and taken are apart here.
#[tactic(auto, unfolding(crate::specs::SweepNumbers::state_number, refusal::specs::Checks::first_refusal))]
fn check_state(head: ScanHead, closed: bool, taken: u32, more: usize) -> Result<(), Refusal>
    ensures { refusal_in result ≡ state_number head closed taken more }
{
    if closed {
        return Err(Refusal::Closed);
    }
    match head.rays.checked_sub(taken) {
        Some(left) if more <= left as usize => Ok(()),
        _ => Err(Refusal::RaysPast),
    }
}

// 1 to 6.
#[tactic(auto, unfolding(crate::specs::SweepNumbers::open_number))]
pub fn check_open(head: ScanHead, sums: &SumsMut<'_>) -> Result<(), Refusal>
    ensures { refusal_in result ≡ open_number head (sums_in sums.now) }
{
    check_scan(head, sums_accepted(head, sums.as_ref()), true, true)
}

// 19, 17, 1 to 8.
#[tactic(auto, unfolding(crate::specs::SweepNumbers::take_number))]
pub fn check_take(
    head: ScanHead,
    closed: bool,
    taken: u32,
    rays: Rays<'_>,
    lists: &ListsMut<'_>,
) -> Result<(), Refusal>
    ensures { refusal_in result ≡ take_number head closed taken (group_of rays.entry) (lists_in lists.now) (all_of azimuth_accepted rays.entry.azimuths.now) (all_of quality_accepted rays.entry.qualities.now) }
{
    check_state(head, closed, taken, rays.azimuths.len())?;
    check_scan(
        head,
        taken_accepted(head, rays, lists),
        azimuths_accepted(rays.azimuths),
        qualities_accepted(rays.qualities),
    )
}

// The same for a caller that has tested azimuths and qualities itself, whatever it tells of them.
pub fn check_group(
    head: ScanHead,
    closed: bool,
    taken: u32,
    rays: Rays<'_>,
    lists: &ListsMut<'_>,
    azimuths: bool,
    qualities: bool,
) -> Result<(), Refusal>
    ensures { refusal_in result ≡ take_number head closed taken (group_of rays.entry) (lists_in lists.now) azimuths qualities }
{
    check_state(head, closed, taken, rays.azimuths.len())?;
    check_scan(head, taken_accepted(head, rays, lists), azimuths, qualities)
}

// The same for a caller that has tested the lengths too: so many rays are to be taken.
pub fn check_rays(
    head: ScanHead,
    closed: bool,
    taken: u32,
    more: usize,
    lengths: bool,
    azimuths: bool,
    qualities: bool,
) -> Result<(), Refusal>
    ensures { refusal_in result ≡ rays_number head closed taken more lengths azimuths qualities }
{
    check_state(head, closed, taken, more)?;
    check_scan(head, lengths, azimuths, qualities)
}

// 19, 17, 1 to 5, 18 for closing early, then 6.
#[tactic(auto, unfolding(crate::specs::SweepNumbers::close_number, refusal::specs::Checks::first_refusal))]
pub fn check_close(
    head: ScanHead,
    closed: bool,
    taken: u32,
    sums: SumsRef<'_>,
    cells: &CellsMut<'_>,
) -> Result<(), Refusal>
    ensures { refusal_in result ≡ close_number head closed taken (sums_read sums.entry) (cells_in cells.now) }
{
    check_state(head, closed, taken, 0)?;
    check_scan(head, true, true, true)?;
    if taken < head.rays {
        return Err(Refusal::ClosedEarly);
    }
    if !sums_accepted(head, sums) {
        return Err(Refusal::Length);
    }
    if !cells_accepted(head, cells) {
        return Err(Refusal::Length);
    }
    Ok(())
}
