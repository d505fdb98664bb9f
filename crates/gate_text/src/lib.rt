// The line that answers the words that a gate is given in.
#![tactic(auto)]

mod gate;

pub use gate::gate_text;
