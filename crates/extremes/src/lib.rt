// The least and the greatest value of the gates of each cell.
#![tactic(auto)]

mod lists;

pub use lists::ExtremesMut;
