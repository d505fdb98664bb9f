// Site, grid and scan head from the structs of signed numbers in which they cross from C, and back.
#![tactic(auto)]

ghost use Rattle.std.specs.Prelude.{◌≡◌};
ghost use Rattle.c_structs.specs.Structs.{site_at, grid_at, grid_of, weighting_of, head_of, grid_numbers, head_numbers};

use limits::{Grid, HrapGrid, RadolanGrid, Site, Weighting};
use record_contents::weighting_byte;
use refusal::unsigned32;
use scan::ScanHead;

// The numbers of a grid of either kind: 1 RADOLAN; 2 HRAP, where x and y are I and J.
#[derive(Clone, Copy)]
pub struct GridNumbers {
    // Kept: the C interface, where a grid's kind is the first of its numbers.
    pub kind: i64,
    pub x: i64,
    pub y: i64,
    pub side: i64,
    pub columns: i64,
    pub rows: i64,
}

// ---- from C

// Any other kind becomes a grid that is refused.
impl From<GridNumbers> for Grid {
    ghost from_gives = { λ g r. r ≡ grid_of g };

    #[tactic(auto, unfolding(crate::specs::Structs::grid_of, crate::specs::Structs::no_grid, crate::specs::Structs::is_number))]
    fn from(g: GridNumbers) -> Grid {
        match g.kind {
            1 => Grid::Radolan(RadolanGrid {
                x: g.x,
                y: g.y,
                side: unsigned32(g.side),
                columns: unsigned32(g.columns),
                rows: unsigned32(g.rows),
            }),
            2 => Grid::Hrap(HrapGrid {
                i: g.x,
                j: g.y,
                columns: unsigned32(g.columns),
                rows: unsigned32(g.rows),
            }),
            _ => Grid::Radolan(RadolanGrid {
                x: 0,
                y: 0,
                side: 0,
                columns: 0,
                rows: 0,
            }),
        }
    }
}

// Kept: no plainer as From: `Site::from(*site)` would put the order of C's numbers into `limits`, and the head's into `scan`.
#[tactic(auto, unfolding(crate::specs::Structs::site_at))]
pub fn site_at(numbers: &[i64; 2]) -> Site
    ensures { result ≡ site_at numbers.now 0 }
{
    let [latitude, longitude] = *numbers;
    Site {
        latitude,
        longitude,
    }
}

#[tactic(auto, unfolding(crate::specs::Structs::grid_at))]
pub fn grid_at(numbers: &[i64; 6]) -> Grid
    ensures { result ≡ grid_of (grid_at numbers.now 0) }
{
    let [kind, x, y, side, columns, rows] = *numbers;
    Grid::from(GridNumbers {
        kind,
        x,
        y,
        side,
        columns,
        rows,
    })
}

// 0 plain, any other number by quality.
// Kept: no plainer as one with that of a record's byte: `Weighting::from(i64::from(byte))` there, for four lines here.
#[tactic(auto, unfolding(crate::specs::Structs::weighting_of, crate::specs::Structs::is_number))]
pub fn weighting_of(z: i64) -> Weighting
    ensures { result ≡ weighting_of z }
{
    match z {
        0 => Weighting::Plain,
        _ => Weighting::ByQuality,
    }
}

#[tactic(auto, unfolding(crate::specs::Structs::head_of, crate::specs::Structs::site_at, crate::specs::Structs::grid_at))]
pub fn head_of(numbers: &[i64; 13]) -> ScanHead
    ensures { result ≡ head_of numbers.now }
{
    let [
        latitude,
        longitude,
        rays,
        gates,
        first,
        spacing,
        kind,
        x,
        y,
        side,
        columns,
        rows,
        weighting,
    ] = *numbers;
    let grid = Grid::from(GridNumbers {
        kind,
        x,
        y,
        side,
        columns,
        rows,
    });
    ScanHead {
        site: Site {
            latitude,
            longitude,
        },
        rays: unsigned32(rays),
        gates: unsigned32(gates),
        first: unsigned32(first),
        spacing: unsigned32(spacing),
        grid,
        weighting: weighting_of(weighting),
    }
}

// ---- to C

impl From<Grid> for GridNumbers {
    ghost from_gives = { λ grid r. r ≡ grid_numbers grid };

    #[tactic(auto, unfolding(crate::specs::Structs::grid_numbers))]
    fn from(grid: Grid) -> GridNumbers {
        match grid {
            Grid::Radolan(g) => GridNumbers {
                kind: 1,
                x: g.x,
                y: g.y,
                side: i64::from(g.side),
                columns: i64::from(g.columns),
                rows: i64::from(g.rows),
            },
            Grid::Hrap(g) => GridNumbers {
                kind: 2,
                x: g.i,
                y: g.j,
                side: 476250,
                columns: i64::from(g.columns),
                rows: i64::from(g.rows),
            },
        }
    }
}

#[tactic(auto, unfolding(crate::specs::Structs::head_numbers))]
pub fn head_numbers(head: ScanHead) -> [i64; 13]
    ensures { result ≡ head_numbers head }
{
    let site = head.site;
    let grid = GridNumbers::from(head.grid);
    [
        site.latitude,
        site.longitude,
        i64::from(head.rays),
        i64::from(head.gates),
        i64::from(head.first),
        i64::from(head.spacing),
        grid.kind,
        grid.x,
        grid.y,
        grid.side,
        grid.columns,
        grid.rows,
        i64::from(weighting_byte(head.weighting)),
    ]
}
