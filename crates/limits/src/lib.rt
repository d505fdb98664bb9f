// Site, grid and weighting, and what is accepted of a site, a grid, an azimuth and a range: document 01, "The scan".
#![tactic(auto)]

mod gate;
mod grid;
mod site;
mod weighting;

pub use gate::{azimuth_accepted, range_accepted};
pub use grid::{Grid, HrapGrid, RadolanGrid, grid_accepted};
pub use site::{Site, site_accepted};
pub use weighting::Weighting;
