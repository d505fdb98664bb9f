// A scan record that is written.
#![tactic(auto)]

mod writer;

pub use writer::write_scan;
