// The publisher: any sums come in, and the weighting asked; out come the means and qualities of the cells.
ghost use Rattle.tally.specs.LentSums.{sums_read, lent_cells, KeepsCells};
ghost use Rattle.publish.specs.Publication.{Publishes};

use crate::cells::publish_cells;
use crate::lengths::equally_long;
use limits::Weighting;
use refusal::Refusal;
use tally::{CellsMut, SumsRef};

// Refuses lists that are not all equally long, and leaves them as they came in.
#[tactic(auto, using(crate::proofs::EqualLengths::all_equal), unfolding(crate::specs::Publication::publish_refusal, refusal::specs::Checks::first_refusal, refusal::specs::Answer::answered, refusal::specs::Answer::afterwards))]
pub fn publish(
    weighting: Weighting,
    sums: SumsRef<'_>,
    cells: &mut CellsMut<'_>,
) -> Result<(), Refusal>
    ensures published { Publishes weighting (sums_read sums.entry) (lent_cells cells) result }
    ensures kept { KeepsCells cells.old cells.new }
{
    if !equally_long(sums, cells) {
        return Err(Refusal::Length);
    }
    publish_cells(weighting, sums, cells);
    Ok(())
}
