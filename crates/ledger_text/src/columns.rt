// The columns of a grid of either kind.
ghost use Rattle.std.specs.Prelude.{◌≡◌};
ghost use Rattle.grid.specs.Window.{window_of};

use limits::Grid;

#[tactic(auto, unfolding(grid::specs::Window::window_of))]
pub fn columns_of(grid: Grid) -> u32
    ensures { result ≡ (window_of grid).columns }
{
    match grid {
        Grid::Radolan(g) => g.columns,
        Grid::Hrap(g) => g.columns,
    }
}
