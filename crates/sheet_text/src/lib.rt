// What is printed for any bytes: the sheet of a scan record, or why there is none.
#![tactic(auto)]

mod page;

pub use page::sheet;
