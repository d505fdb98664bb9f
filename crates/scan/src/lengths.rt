// The lengths of the lists of a scan.
ghost use Rattle.std.specs.Prelude.{◌≡◌};
ghost use Rattle.scan.specs.LentLists.{lists_in};
ghost use Rattle.scan.specs.Scan.{scan_of};
ghost use Rattle.scan.specs.ScanRefusal.{given_exact, lists_exact};

use crate::head::{ScanHead, cells_of, gates_of};
use crate::lists::{ListsMut, Rays};

// The exact lengths of azimuths, values and qualities.
#[tactic(auto, unfolding(crate::specs::ScanRefusal::given_exact, crate::specs::ScanRefusal::lists_accepted))]
pub fn lists_accepted(head: ScanHead, rays: Rays<'_>) -> bool
    ensures { result ≡ given_exact (scan_of head rays.entry) }
{
    let gates = gates_of(head);
    rays.azimuths.len() == head.rays as usize
        && rays.values.len() == gates
        && rays.qualities.len() == gates
}

// The exact lengths of all lists.
#[tactic(auto, unfolding(crate::specs::ScanRefusal::lists_exact))]
pub fn lengths_accepted(head: ScanHead, rays: Rays<'_>, lists: &ListsMut<'_>) -> bool
    ensures { result ≡ lists_exact (scan_of head rays.entry) (lists_in lists.now) }
{
    let gates = gates_of(head);
    let cells = cells_of(head);
    lists_accepted(head, rays)
        && lists.ledger.len() == gates
        && lists.marks.len() == gates
        && lists.counts.len() == cells
        && lists.quality_sums.len() == cells
        && lists.value_sums.len() == cells
        && lists.weighted_sums.len() == cells
}
