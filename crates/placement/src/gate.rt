// The placement of one gate.
ghost use Rattle.std.specs.Prelude.{◌≡◌, true, ◌≤◌};
ghost use Rattle.refusal.specs.Answer.{answered};
ghost use Rattle.placement.specs.Gate.{placement_of, placement_answer, placed_gate};
ghost use Rattle.placement.specs.GateNearness.{PositionWithin};
ghost use Rattle.placement.specs.ExactCell.{ExactUnlessMarked};
ghost use Rattle.projection.specs.Position.{position_of};
ghost use Rattle.limits.specs.Accepted.{range_accepted, site_accepted, grid_accepted};
ghost use Rattle.placement.specs.GateRefusal.{gate_refusal};
ghost use Rattle.grid.specs.Sphere.{sphere_of};
ghost use Rattle.grid.specs.Mark.{tolerance};
ghost use Rattle.placement.specs.Survey.{surveyed};
ghost use Rattle.grid.specs.Window.{window_of, index_of};
ghost use Rattle.placement.specs.Located.{marked, located};
ghost use Rattle.placement.specs.CellRoom.{Reachable};
ghost use Rattle.projection.specs.Terms.{RayLimits};

use crate::survey::{Survey, survey_of};
use grid::{Window, cell_number, in_span, index_of, near_line};
use limits::{Grid, Site, azimuth_accepted, grid_accepted, range_accepted, site_accepted};
use projection::{Position, RayTerms, arc_terms, position_of, ray_terms};
use refusal::Refusal;

// Where a gate lies: its cell, or none outside the grid, and its position. Marked where X or Y lies near a line of the grid.
#[derive(Clone, Copy)]
pub struct Placement {
    pub cell: Option<u32>,
    pub x: i64,
    pub y: i64,
    pub mark: bool,
}

// Takes any site, grid, azimuth and range whatever. It answers inside, outside or refused, with document 01's numbers. Demand 3: whenever
// the answer is a position, X and Y each lie within 50 centimetres of the exact ones. Document 02, T-10: a gate that is not marked has the very
// cell that the exact reference gives, or is outside in both.
#[tactic(auto, unfolding(crate::specs::Gate::placement_of, crate::specs::Gate::unless_refused, crate::specs::Gate::refusal_of, crate::specs::Gate::placement_answer, crate::specs::Gate::placed_gate, crate::specs::GateRefusal::gate_refusal, crate::specs::GateNearness::PositionWithin, crate::specs::ExactCell::ExactUnlessMarked, refusal::specs::Checks::first_refusal, refusal::specs::Answer::answered))]
pub fn place(site: Site, grid: Grid, azimuth: u32, range: u32) -> Result<Placement, Refusal>
    ensures rule { result ≡ placement_of site grid azimuth range }
    ensures numbers { placement_answer result ≡ answered (gate_refusal site grid azimuth range) (placed_gate site grid azimuth range) }
    ensures within_50_centimetres { PositionWithin tolerance site grid azimuth range result }
    ensures exact_unless_marked { ExactUnlessMarked site grid azimuth range result }
{
    if !range_accepted(range) {
        return Err(Refusal::Centres);
    }
    if !site_accepted(site) {
        return Err(Refusal::Site);
    }
    if !grid_accepted(grid) {
        return Err(Refusal::Grid);
    }
    if !azimuth_accepted(azimuth) {
        return Err(Refusal::Azimuth);
    }
    Ok(accepted_place(site, grid, azimuth, range))
}

// The placement of a gate whose numbers are accepted.
#[tactic(auto, using(projection::proofs::GateTerms::ray_limits, limits::proofs::Accepted::accepted_range), unfolding(crate::specs::Survey::surveyed, crate::specs::Survey::survey_of, projection::specs::Position::position_of))]
fn accepted_place(site: Site, grid: Grid, azimuth: u32, range: u32) -> Placement
    requires { (range_accepted range ≡ true) × (site_accepted site ≡ true) × (grid_accepted grid ≡ true) }
    ensures { result ≡ located (window_of grid) (position_of (sphere_of grid) site azimuth range) }
{
    gate_at(survey_of(site, grid), ray_terms(azimuth), range)
}

// The same from what site, grid and ray give once for all of a ray's gates.
#[tactic(auto, unfolding(crate::specs::Survey::surveyed))]
pub fn gate_at(survey: Survey, ray: RayTerms, range: u32) -> Placement
    requires { RayLimits ray × (range ≤ 46000000) }
    ensures { result ≡ surveyed survey ray range }
{
    let arc = arc_terms(survey.sphere.radius, range);
    cell_at(
        survey.window,
        position_of(survey.terms, ray, arc, survey.sphere.k),
    )
}

// The cell that a position falls into: on a west or south edge, the one east or north of it.
#[tactic(auto, using(grid::proofs::Cells::in_span_wider), unfolding(crate::specs::Located::located, crate::specs::Located::cell_at, crate::specs::Located::in_window, crate::specs::Located::row, crate::specs::Located::column))]
fn cell_at(window: Window, at: Position) -> Placement
    requires { Reachable window at }
    ensures { result ≡ located window at }
{
    let x = at.x;
    let y = at.y;
    let columns = window.columns;
    let column = index_of(window.x, window.side, x);
    let row = index_of(window.y, window.side, y);
    let mark = mark_at(window, at, column, row);
    // Kept: in place of `bool::then`, whose closure asks for a proof that it may be called; with in_span_wider and these unfoldings it stayed open.
    let cell = if in_span(columns, column) && in_span(window.rows, row) {
        Some(cell_number(columns, row, column))
    } else {
        None
    };
    Placement { cell, x, y, mark }
}

// Whether X or Y lies near a line, from the column and the row of the position.
#[tactic(auto, unfolding(crate::specs::Located::marked))]
fn mark_at(window: Window, at: Position, column: i64, row: i64) -> bool
    requires { Reachable window at × (column ≡ index_of window.x window.side at.x) × (row ≡ index_of window.y window.side at.y) }
    ensures { result ≡ marked window at }
{
    near_line(window.x, window.side, at.x, column) || near_line(window.y, window.side, at.y, row)
}
