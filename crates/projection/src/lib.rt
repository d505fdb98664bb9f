// A gate to its position: document 01, "Projection" from "Arc" on.
#![tactic(auto)]

mod arc;
mod over_q;
mod position;

pub use arc::{ArcTerms, arc_terms};
pub use position::{Position, RayTerms, SiteTerms, position_of, ray_terms, site_terms};
