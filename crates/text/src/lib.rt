// Decimal text stored in a buffer: words, numbers, fields of a line, and the line of a refusal.
#![tactic(auto)]

mod decimal;
mod fields;
mod text;

pub use text::Text;
