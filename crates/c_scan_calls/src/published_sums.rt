// The published cells, from any sums.
ghost use Rattle.refusal.specs.Numbered.{refusal_in};
ghost use Rattle.tally.specs.LentSums.{KeepsCells, lent_cells, sums_read};
ghost use Rattle.c_structs.specs.Structs.{weighting_of};
ghost use Rattle.c_scan_calls.specs.ScanCalls.{PublishesSums};

use c_structs::weighting_of;
use publish::publish;
use refusal::Refusal;
use tally::{CellsMut, SumsRef};

pub fn answer_publish(
    weighting: i64,
    sums: SumsRef<'_>,
    cells: &mut CellsMut<'_>,
) -> Result<(), Refusal>
    ensures published { PublishesSums (weighting_of weighting) (sums_read sums.entry) (lent_cells cells) (refusal_in result) }
    ensures kept { KeepsCells cells.old cells.new }
{
    publish(weighting_of(weighting), sums, cells)
}
