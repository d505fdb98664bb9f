// The cells that a grid spans.
ghost use Rattle.std.specs.Prelude.{◌≡◌, true, ◌<◌, ◌≤◌};
ghost use Rattle.arithmetic.specs.Magnitude.{Magnitude};
ghost use Rattle.grid.specs.Window.{window_of, index_of, in_span, cell_number};
ghost use Rattle.limits.specs.Accepted.{grid_accepted};

use arithmetic::floor_div;
use limits::Grid;

// The cells of a grid of either kind.
#[derive(Clone, Copy)]
pub struct Window {
    pub x: i64,
    pub y: i64,
    pub side: u64,
    pub columns: u32,
    pub rows: u32,
}

const HRAP_SIDE: i64 = 476250;

// For our own crates: they have tested the grid.
pub fn window_of(grid: Grid) -> Window
    requires { grid_accepted grid ≡ true }
    ensures { result ≡ window_of grid }
{
    match grid {
        Grid::Radolan(g) => Window {
            x: g.x,
            y: g.y,
            side: u64::from(g.side),
            columns: g.columns,
            rows: g.rows,
        },
        Grid::Hrap(g) => Window {
            x: (g.i - 401) * HRAP_SIDE,
            y: (g.j - 1601) * HRAP_SIDE,
            side: 476250,
            columns: g.columns,
            rows: g.rows,
        },
    }
}

// The column or row of a coordinate: floor((x - corner) / side). For our own crates: they have tested the grid, and a position is bounded.
pub fn index_of(corner: i64, side: u64, x: i64) -> i64
    requires { (0 < side) × Magnitude corner 10000000000 × Magnitude x 10000000000 }
    ensures { result ≡ index_of corner side x }
{
    floor_div(x - corner, side)
}

// A column or row is one of the grid's.
#[tactic(auto, unfolding(crate::specs::Window::in_span))]
pub fn in_span(count: u32, index: i64) -> bool
    ensures { result ≡ in_span count index }
{
    (0..i64::from(count)).contains(&index)
}

// row x columns + column. For our own crates: they have found both in the grid.
pub fn cell_number(columns: u32, row: i64, column: i64) -> u32
    requires { (columns ≤ 1500) × (in_span 1500 row ≡ true) × (in_span 1500 column ≡ true) }
    ensures { result ≡ cell_number columns row column }
{
    (row as u32) * columns + column as u32
}
