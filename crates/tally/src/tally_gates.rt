// Counts and sums of the cells, from the ledger.
ghost use Rattle.tally.specs.LentSums.{KeepsSums, lent_sums, sums_in};
ghost use Rattle.tally.specs.TallyRoom.{Addable, AddsGates};

use crate::gates::is_measured;
use crate::lists::{Gates, SumsMut};

impl SumsMut<'_> {
    // Adds gate after gate onto what the sums hold, up to the first by which a count or sum would pass its width; says how many were added.
    // For our own crates: they have tested the lists' lengths.
    pub fn add_gates(&mut self, gates: Gates<'_>) -> usize
        requires { Addable gates.ledger.now gates.values.now gates.qualities.now (sums_in self.old) }
        ensures kept { KeepsSums self.old self.new }
        ensures added { AddsGates gates.entry.ledger.now gates.entry.values.now gates.entry.qualities.now (lent_sums self) result }
    {
        // No count or sum is past its width as it comes in: the types of the lists say so.
        self.fit();
        for (k, entry) in gates.ledger.iter().enumerate() {
            let cell = *entry as usize;
            // Kept: by its index, since the new form is no plainer: (k, ((entry, value), quality)) of two zips and enumerate.
            let value = gates.values[k];
            if self.counts.len() <= cell || !is_measured(value) {
                continue;
            }
            let Some(sums) = self.cell(cell).with_gate(value, gates.qualities[k]) else {
                return k;
            };
            self.set_cell(cell, sums);
        }
        gates.ledger.len()
    }
}
