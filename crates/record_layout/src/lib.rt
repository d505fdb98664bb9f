// Where the numbers of a scan record stand, and what is refused of it.
#![tactic(auto)]

mod checks;
mod field;
mod head;
mod layout;

pub use checks::check_record;
pub use field::Field;
pub use head::head_in;
pub use layout::{content_length, content_start, gates_in, rays_in};
