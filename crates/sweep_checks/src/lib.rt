// What is refused of a sweep: the numbers of its state, and the lengths of the lists that an operation is lent.
#![tactic(auto)]

mod lengths;
mod refusal_numbers;

pub use refusal_numbers::{check_close, check_group, check_open, check_rays, check_take};
