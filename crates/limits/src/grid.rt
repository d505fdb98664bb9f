// The grid is one of two kinds, each carrying its own numbers; what is accepted of them.
ghost use Rattle.std.specs.Prelude.{◌≡◌};
ghost use Rattle.limits.specs.declared.grid.Grid.TheVariants.{Radolan, Hrap};
ghost use Rattle.limits.specs.Accepted.{size_accepted, grid_accepted};

// RADOLAN: the corner in centimetres from the pole, the side of a cell, columns and rows.
#[derive(Clone, Copy)]
pub struct RadolanGrid {
    pub x: i64,
    pub y: i64,
    pub side: u32,
    pub columns: u32,
    pub rows: u32,
}

// HRAP: the first column I and the first row J of the mesh, columns and rows.
#[derive(Clone, Copy)]
pub struct HrapGrid {
    pub i: i64,
    pub j: i64,
    pub columns: u32,
    pub rows: u32,
}

#[derive(Clone, Copy)]
pub enum Grid {
    Radolan(RadolanGrid),
    Hrap(HrapGrid),
}

#[tactic(auto, unfolding(crate::specs::Accepted::grid_accepted))]
pub fn grid_accepted(grid: Grid) -> bool
    ensures { result ≡ grid_accepted grid }
{
    match grid {
        Grid::Radolan(g) => radolan_accepted(g),
        Grid::Hrap(g) => hrap_accepted(g),
    }
}

#[tactic(auto, unfolding(crate::specs::Accepted::grid_accepted, refusal::specs::Checks::in_range, refusal::specs::Checks::in_signed_range))]
fn radolan_accepted(g: RadolanGrid) -> bool
    ensures { result ≡ grid_accepted (Radolan g) }
{
    (-2000000000..=2000000000).contains(&g.x)
        && (-2000000000..=2000000000).contains(&g.y)
        && ((10000..=10000000).contains(&g.side) && size_accepted(g.columns, g.rows))
}

#[tactic(auto, unfolding(crate::specs::Accepted::grid_accepted, refusal::specs::Checks::in_signed_range))]
fn hrap_accepted(g: HrapGrid) -> bool
    ensures { result ≡ grid_accepted (Hrap g) }
{
    (-10000..=10000).contains(&g.i)
        && (-10000..=10000).contains(&g.j)
        && size_accepted(g.columns, g.rows)
}

#[tactic(auto, unfolding(crate::specs::Accepted::size_accepted, refusal::specs::Checks::in_range))]
fn size_accepted(columns: u32, rows: u32) -> bool
    ensures { result ≡ size_accepted columns rows }
{
    (1..=1500).contains(&columns) && (1..=1500).contains(&rows)
}
