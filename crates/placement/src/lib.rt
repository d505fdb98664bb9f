// A gate to its position and its cell, and the ledger of one ray.
#![tactic(auto)]

mod centres;
mod gate;
mod ledger;
mod survey;

pub use centres::Centres;
pub use gate::{Placement, place};
pub use ledger::ray_ledger;
pub use survey::{Survey, survey_of};
