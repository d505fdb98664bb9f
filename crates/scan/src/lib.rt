// A scan: its numbers, the lengths of its lists, and what is refused of it.
#![tactic(auto)]

mod checks;
mod head;
mod lengths;
mod lists;

pub use checks::{azimuths_accepted, check_scan, qualities_accepted};
pub use head::{ScanHead, cells_of, gates_of};
pub use lengths::{lengths_accepted, lists_accepted};
pub use lists::{ListsMut, Rays, RaysMut};
