// The operations of a sweep on C's struct of its state. A refusal leaves the state and the lent lists as they came in.
#![tactic(auto)]

ghost use Rattle.refusal.specs.Numbered.{refusal_in};
ghost use Rattle.tally.specs.LentSums.{KeepsCells, KeepsSums, lent_cells, lent_sums, sums_read};
ghost use Rattle.scan.specs.LentLists.{KeepsLists, lent_lists};
ghost use Rattle.sweep_checks.specs.RayGroup.{group_of};
ghost use Rattle.c_structs.specs.Structs.{head_of};
ghost use Rattle.c_sweep_calls.specs.SweepCalls.{OpensSweep, TakesRays, ClosesSweep};

use c_structs::head_of;
use c_sweep::{sweep_numbers, sweep_of};
use refusal::Refusal;
use scan::{ListsMut, Rays};
use sweep::Sweep;
use tally::{CellsMut, SumsMut, SumsRef};

pub fn answer_open(
    scan: &[i64; 13],
    sums: &mut SumsMut<'_>,
    sweep: &mut [i64; 15],
) -> Result<(), Refusal>
    ensures opens { OpensSweep (head_of scan.now) (lent_sums sums) sweep (refusal_in result) }
    ensures kept { KeepsSums sums.old sums.new }
{
    *sweep = sweep_numbers(Sweep::open(head_of(scan), sums)?);
    Ok(())
}

pub fn answer_take(
    sweep: &mut [i64; 15],
    rays: Rays<'_>,
    lists: &mut ListsMut<'_>,
) -> Result<(), Refusal>
    ensures takes { TakesRays sweep (group_of rays.entry) (lent_lists lists) (refusal_in result) }
    ensures kept { KeepsLists lists.old lists.new }
{
    let state = sweep_of(sweep);
    *sweep = sweep_numbers(state.take_rays(rays, lists)?);
    Ok(())
}

pub fn answer_close(
    sweep: &mut [i64; 15],
    sums: SumsRef<'_>,
    cells: &mut CellsMut<'_>,
) -> Result<(), Refusal>
    ensures closes { ClosesSweep sweep (sums_read sums.entry) (lent_cells cells) (refusal_in result) }
    ensures kept { KeepsCells cells.old cells.new }
{
    let state = sweep_of(sweep);
    *sweep = sweep_numbers(state.close(sums, cells)?);
    Ok(())
}
