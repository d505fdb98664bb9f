// The sphere of a kind of grid, the cells that a grid spans, and what lies near their lines.
#![tactic(auto)]

mod mark;
mod sphere;
mod window;

pub use mark::near_line;
pub use sphere::{Sphere, sphere_of};
pub use window::{Window, cell_number, in_span, index_of, window_of};
