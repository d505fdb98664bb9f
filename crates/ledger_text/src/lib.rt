// A record's gates as lines of text, with a heading.
#![tactic(auto)]

mod columns;
mod heading;
mod ledger;
mod place;

pub use columns::columns_of;
pub use heading::ledger_heading;
pub use ledger::{good_line, ledger_line};
pub use place::{put_column_and_row, put_position};
