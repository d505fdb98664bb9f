// What the gates give to their cells: counts and sums.
#![tactic(auto)]

mod cell_sums;
mod clear;
mod gates;
mod lists;
mod tally_gates;
mod widths;

pub use cell_sums::CellSums;
pub use gates::{echo_of, is_measured, weighted_echo};
pub use lists::{CellsMut, Gates, SumsMut, SumsRef};
pub use widths::fit_16_bits;
