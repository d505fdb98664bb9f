// The sphere of a kind of grid.
ghost use Rattle.std.specs.Prelude.{◌≡◌};
ghost use Rattle.grid.specs.Sphere.{sphere_of};

use limits::Grid;

// The sphere of a kind of grid: radius R, central meridian and K, always together.
#[derive(Clone, Copy)]
pub struct Sphere {
    pub radius: u64,
    pub meridian: i64,
    pub k: i64,
}

#[tactic(auto, unfolding(crate::specs::Sphere::sphere_of, crate::specs::Sphere::radolan_sphere, crate::specs::Sphere::hrap_sphere))]
pub fn sphere_of(grid: Grid) -> Sphere
    ensures { result ≡ sphere_of grid }
{
    match grid {
        Grid::Radolan(_) => Sphere {
            radius: 637004000,
            meridian: 100000,
            k: 1188665646,
        },
        Grid::Hrap(_) => Sphere {
            radius: 637120000,
            meridian: -1050000,
            k: 1188882105,
        },
    }
}
