// A sweep: a scan whose rays are fed while the antenna turns.
#![tactic(auto)]

ghost use Rattle.tally.specs.LentSums.{sums_read, lent_sums, lent_cells, KeepsSums, KeepsCells};
ghost use Rattle.scan.specs.LentLists.{lent_lists, KeepsLists};
ghost use Rattle.sweep_checks.specs.RayGroup.{group_of};
ghost use Rattle.sweep.specs.SweepOperations.{Opens, Takes, Closes};

use accepted_take::accepted_take;
use publish::publish_cells;
use refusal::Refusal;
use scan::{ListsMut, Rays, ScanHead};
use sweep_checks::{check_close, check_open, check_take};
use tally::{CellsMut, SumsMut, SumsRef};

// The state: the scan's head, how many of its rays were taken, and whether it is closed. Plain data, which its owner may keep, copy or alter.
// Each operation gives the new state. A refusal leaves the state and every lent list as they came in.
#[derive(Clone, Copy)]
pub struct Sweep {
    pub head: ScanHead,
    pub taken: u32,
    // Kept: what may not change: the state is plain data, and `closed` is the fifteenth number of C's struct.
    pub closed: bool,
}

impl Sweep {
    // Announces rays and gates. The sums become 0.
    pub fn open(head: ScanHead, sums: &mut SumsMut<'_>) -> Result<Sweep, Refusal>
        ensures opens { Opens head (lent_sums sums) result }
        ensures kept { KeepsSums sums.old sums.new }
    {
        check_open(head, sums)?;
        sums.clear();
        Ok(Sweep {
            head,
            taken: 0,
            closed: false,
        })
    }

    // Takes one ray or several: all of them, or none. Ledger and marks are those of the whole scan.
    pub fn take_rays(self, rays: Rays<'_>, lists: &mut ListsMut<'_>) -> Result<Sweep, Refusal>
        ensures takes { Takes self (group_of rays.entry) (lent_lists lists) result }
        ensures kept { KeepsLists lists.old lists.new }
    {
        check_take(self.head, self.closed, self.taken, rays, lists)?;
        if !accepted_take(self.head, self.taken, rays, lists) {
            return Err(Refusal::FullSum);
        }
        Ok(Sweep {
            taken: self.taken + rays.azimuths.len() as u32,
            ..self
        })
    }

    // Publishes the cells, from whatever the sums hold, in the weighting with which the scan was opened, and ends the scan.
    pub fn close(self, sums: SumsRef<'_>, cells: &mut CellsMut<'_>) -> Result<Sweep, Refusal>
        ensures closes { Closes self (sums_read sums.entry) (lent_cells cells) result }
        ensures kept { KeepsCells cells.old cells.new }
    {
        check_close(self.head, self.closed, self.taken, sums, cells)?;
        publish_cells(self.head.weighting, sums, cells);
        Ok(Sweep {
            closed: true,
            ..self
        })
    }
}
