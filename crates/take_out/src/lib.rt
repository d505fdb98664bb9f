// Gates taken out of the sums again.
#![tactic(auto)]

ghost use Rattle.std.specs.Prelude.{◌≡◌};
ghost use Rattle.tally.specs.LentSums.{KeepsSums, lent_sums, sums_in};
ghost use Rattle.tally.specs.Tally.{added_sums};
ghost use Rattle.take_out.specs.TakeOutRoom.{AddedBefore};

use tally::{Gates, SumsMut, is_measured};

// Leaves the sums onto which these gates were added: with the gates added, they are what came in. The gate that was added last goes first.
// For our own crates: they have added the gates.
pub fn take_out_gates(gates: Gates<'_>, sums: &mut SumsMut<'_>)
    requires { AddedBefore gates.ledger.now gates.values.now gates.qualities.now (sums_in sums.old) }
    ensures kept { KeepsSums sums.old sums.new }
    ensures taken_out { let held = lent_sums sums in
        held.entry ≡ added_sums gates.entry.ledger.now gates.entry.values.now gates.entry.qualities.now held.exit }
{
    // Kept: by its index, since the new form is no plainer: ((entry, value), quality) of two zips, reversed.
    for k in (0..gates.ledger.len()).rev() {
        let cell = gates.ledger[k] as usize;
        let value = gates.values[k];
        if sums.counts.len() <= cell || !is_measured(value) {
            continue;
        }
        let less = sums.cell(cell).without_gate(value, gates.qualities[k]);
        sums.set_cell(cell, less);
    }
}
