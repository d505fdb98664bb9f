// What a refusal is, what a call answers and leaves, and a number of any size where one of 32 bits is meant.
#![tactic(auto)]

mod numbered;
mod unsigned;

pub use numbered::Refusal;
pub use unsigned::unsigned32;
