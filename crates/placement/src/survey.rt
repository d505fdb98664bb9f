// What a site and a grid give once for all of their gates.
ghost use Rattle.std.specs.Prelude.{◌≡◌, true};
ghost use Rattle.limits.specs.Accepted.{site_accepted, grid_accepted};
ghost use Rattle.placement.specs.Survey.{survey_of};

use grid::{Sphere, Window, sphere_of, window_of};
use limits::{Grid, Site};
use projection::{SiteTerms, site_terms};
use std::marker::Model;

// Its numbers lie within the limits that accepted sites and grids keep to. Who builds one proves it, in other crates too.
#[derive(Clone, Copy)]
pub struct Survey {
    pub terms: SiteTerms,
    pub sphere: Sphere,
    pub window: Window,
}

impl Model for Survey {
    ghost use Rattle.placement.specs.SurveyTerms.{SurveyTerms, Surveyed};

    ghost Value = { SurveyTerms };

    ghost view = { λ s. record { terms = s.terms; sphere = s.sphere; window = s.window } };

    ghost inverse = { λ s. record { terms = s.terms; sphere = s.sphere; window = s.window } };

    ghost invariant = { λ s. Surveyed (record { terms = s.terms; sphere = s.sphere; window = s.window }) };
}

// For our own crates: they have tested site and grid.
#[tactic(auto, using(limits::proofs::Accepted::accepted_site, projection::proofs::GateTerms::good_sphere), unfolding(crate::specs::Survey::survey_of))]
pub fn survey_of(site: Site, grid: Grid) -> Survey
    requires { (site_accepted site ≡ true) × (grid_accepted grid ≡ true) }
    ensures { result ≡ survey_of site grid }
{
    let sphere = sphere_of(grid);
    let terms = site_terms(sphere.meridian, site);
    let window = window_of(grid);
    Survey {
        terms,
        sphere,
        window,
    }
}
