// What our functions answer, as C is told it: the values in what is lent, and a refusal as its number.
#![tactic(auto)]

mod gate;
mod number;
mod record;

pub use gate::GateMut;
pub use number::refusal_number;
pub use record::{answer_field, answer_head, answer_read, answer_write};
