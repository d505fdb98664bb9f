// What a scan is besides its lists, and how many gates and cells that makes.
ghost use Rattle.std.specs.Prelude.{◌≡◌, ◌*◌};
ghost use Rattle.scan.specs.Scan.{gates_of, cells_of};

use limits::{Grid, Site, Weighting};

// What a scan is besides its lists.
#[derive(Clone, Copy)]
pub struct ScanHead {
    pub site: Site,
    pub rays: u32,
    pub gates: u32,
    pub first: u32,
    pub spacing: u32,
    pub grid: Grid,
    pub weighting: Weighting,
}

fn product(a: u32, b: u32) -> usize
    ensures { result ≡ a * b }
{
    (a as usize) * (b as usize)
}

// Rays x gates.
#[tactic(auto, unfolding(crate::specs::Scan::gates_of))]
pub fn gates_of(head: ScanHead) -> usize
    ensures { result ≡ gates_of head }
{
    product(head.rays, head.gates)
}

// Columns x rows.
#[tactic(auto, unfolding(crate::specs::Scan::cells_of, grid::specs::Window::window_of))]
pub fn cells_of(head: ScanHead) -> usize
    ensures { result ≡ cells_of head }
{
    let grid = head.grid;
    match grid {
        Grid::Radolan(g) => product(g.columns, g.rows),
        Grid::Hrap(g) => product(g.columns, g.rows),
    }
}
