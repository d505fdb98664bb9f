// A scan record that is read.
#![tactic(auto)]

mod field_part;
mod gates;
mod good_record;
mod reader;

pub use field_part::{field, field_place};
pub use gates::{azimuth_in, quality_in, value_in};
pub use good_record::GoodRecord;
pub use reader::{read_head, read_scan};
