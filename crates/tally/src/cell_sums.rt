// The count and the sums of one cell. For our own crates: they have tested the lists' lengths, and take out what they added.
ghost use Rattle.std.specs.Prelude.{◌≡◌};
ghost use Rattle.tally.specs.CellSums.{HasCell, HasGate, cell_of, gate_added, with_cell, with_gate};
ghost use Rattle.tally.specs.LentSums.{KeepsSums, lent_sums, sums_in};

use crate::gates::{echo_of, weighted_echo};
use crate::lists::SumsMut;

#[derive(Clone, Copy)]
pub struct CellSums {
    pub count: u32,
    pub quality_sum: u32,
    pub value_sum: u64,
    pub weighted_sum: u64,
}

impl CellSums {
    // With one measured gate more, unless the count or a sum would pass its width.
    #[tactic(auto, using(std::proofs::lemmas::Bool::Decides::nat_tests), unfolding(crate::specs::CellSums::with_gate, crate::specs::Width::has_room))]
    pub fn with_gate(self, value: u16, quality: u8) -> Option<CellSums>
        ensures { result ≡ with_gate self value quality }
    {
        let echo = u64::from(echo_of(value));
        let weighted = weighted_echo(value, quality);
        Some(CellSums {
            count: self.count.checked_add(1)?,
            quality_sum: self.quality_sum.checked_add(u32::from(quality))?,
            value_sum: self.value_sum.checked_add(echo)?,
            weighted_sum: self.weighted_sum.checked_add(weighted)?,
        })
    }

    // The sums onto which this gate was added.
    pub fn without_gate(self, value: u16, quality: u8) -> CellSums
        requires { HasGate self value quality }
        ensures { self ≡ gate_added result value quality }
    {
        CellSums {
            count: self.count - 1,
            quality_sum: self.quality_sum - u32::from(quality),
            value_sum: self.value_sum - u64::from(echo_of(value)),
            weighted_sum: self.weighted_sum - weighted_echo(value, quality),
        }
    }
}

impl SumsMut<'_> {
    pub fn cell(&self, cell: usize) -> CellSums
        requires { HasCell (sums_in self.now) cell }
        ensures { result ≡ cell_of (sums_in self.now) cell }
    {
        CellSums {
            count: self.counts[cell],
            quality_sum: self.quality_sums[cell],
            value_sum: self.value_sums[cell],
            weighted_sum: self.weighted_sums[cell],
        }
    }

    pub fn set_cell(&mut self, cell: usize, sums: CellSums)
        requires { HasCell (sums_in self.old) cell }
        ensures kept { KeepsSums self.old self.new }
        ensures the_cell { let lists = lent_sums self in
            lists.exit ≡ with_cell lists.entry cell sums }
    {
        self.counts[cell] = sums.count;
        self.quality_sums[cell] = sums.quality_sum;
        self.value_sums[cell] = sums.value_sum;
        self.weighted_sums[cell] = sums.weighted_sum;
    }
}
