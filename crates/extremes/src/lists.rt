// The lists that are lent for the least and the greatest value of each cell.
ghost use Rattle.std.specs.Prelude.{◌≡◌};
ghost use Rattle.extremes.specs.CompareRoom.{Comparable};
ghost use Rattle.extremes.specs.Extremes.{compared, emptied};
ghost use Rattle.extremes.specs.LentExtremes.{KeepsExtremes, extremes_in, lent_extremes};

use tally::{echo_of, is_measured};

// A number for each cell in both.
#[derive(Drop)]
pub struct ExtremesMut<'a> {
    pub least: &'a mut [u16],
    pub greatest: &'a mut [u16],
}

impl ExtremesMut<'_> {
    // An empty cell has 65,535 and 0: what the lent lists held before plays no part.
    #[tactic(auto, unfolding(crate::specs::Extremes::emptied))]
    pub fn clear(&mut self)
        ensures kept { KeepsExtremes self.old self.new }
        ensures emptied { let extremes = lent_extremes self in
            extremes.exit ≡ emptied extremes.entry }
    {
        // Kept: what may not change: these are the numbers of an empty cell in the lists that the contract's `emptied` names.
        self.least.fill(u16::MAX);
        self.greatest.fill(0);
    }

    // Compares the value of each measured gate with what the lists hold for its cell. For our own crates: they have tested the lists' lengths.
    pub fn compare_gates(&mut self, ledger: &[u32], values: &[u16])
        requires { Comparable ledger.now values.now (extremes_in self.old) }
        ensures kept { KeepsExtremes self.old self.new }
        ensures compared { let extremes = lent_extremes self in
            extremes.exit ≡ compared ledger.now values.now extremes.entry }
    {
        for (entry, value) in ledger.iter().zip(values) {
            let cell = *entry as usize;
            if cell < self.least.len() && is_measured(*value) {
                let echo = echo_of(*value);
                self.least[cell] = self.least[cell].min(echo);
                self.greatest[cell] = self.greatest[cell].max(echo);
            }
        }
    }
}
