// The lengths of the lists that the publisher is lent.
ghost use Rattle.std.specs.Prelude.{◌≡◌};
ghost use Rattle.tally.specs.LentSums.{sums_read, cells_in};
ghost use Rattle.publish.specs.Publication.{equally_long};

use tally::{CellsMut, SumsRef};

#[tactic(auto, unfolding(crate::specs::Publication::equally_long))]
pub fn equally_long(sums: SumsRef<'_>, cells: &CellsMut<'_>) -> bool
    ensures { result ≡ equally_long (sums_read sums.entry) (cells_in cells.now) }
{
    let length = sums.counts.len();
    sums.quality_sums.len() == length
        && sums.value_sums.len() == length
        && sums.weighted_sums.len() == length
        && cells.means.len() == length
        && cells.qualities.len() == length
}
