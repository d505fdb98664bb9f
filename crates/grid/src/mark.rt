// Coordinates near an edge line of a grid. The lines are prolonged beyond the grid.
ghost use Rattle.std.specs.Prelude.{◌≡◌};
ghost use Rattle.grid.specs.Mark.{past_line, near_line};
ghost use Rattle.grid.specs.LineRoom.{LineRoom};

// How far a coordinate may lie from the exact one, in centimetres: demand 3.
const TOLERANCE: u64 = 50;

// How far a coordinate lies past the line of its own column or row.
fn past_line(corner: i64, side: u64, x: i64, index: i64) -> u64
    requires { LineRoom corner side x index }
    ensures { result ≡ past_line corner side x }
{
    (x - corner - index * (side as i64)) as u64
}

// Whether a coordinate lies near a line, from its column or row, so that nothing is divided twice. For our own crates: they have tested the grid,
// and a position is bounded.
pub fn near_line(corner: i64, side: u64, x: i64, index: i64) -> bool
    requires { LineRoom corner side x index }
    ensures { result ≡ near_line corner side x }
{
    let past = past_line(corner, side, x, index);
    past < TOLERANCE || side - TOLERANCE <= past
}
