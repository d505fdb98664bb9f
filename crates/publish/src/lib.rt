// The published cells, from any counts and sums: means and qualities.
#![tactic(auto)]

mod cells;
mod lengths;
mod publish_sums;

pub use cells::publish_cells;
pub use publish_sums::publish;
