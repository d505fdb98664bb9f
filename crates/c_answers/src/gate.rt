// The numbers of one gate, as they are lent for its placement.
ghost use Rattle.std.specs.Prelude.{◌≡◌};
ghost use Rattle.placement.specs.Gate.{gate_of};
ghost use Rattle.c_answers.specs.LentNumbers.{KeepsGate, gate_in};

use placement::Placement;

#[derive(Drop)]
pub struct GateMut<'a> {
    pub cell: &'a mut u32,
    pub x: &'a mut i64,
    pub y: &'a mut i64,
    pub mark: &'a mut u8,
}

impl GateMut<'_> {
    // The cell of a gate outside the grid is 4,294,967,295.
    pub fn put(&mut self, placement: Placement)
        ensures written { gate_in self.new ≡ gate_of placement }
        ensures kept { KeepsGate self.old self.new }
    {
        // Kept: the C interface, where this number is no cell.
        *self.cell = placement.cell.unwrap_or(u32::MAX);
        *self.x = placement.x;
        *self.y = placement.y;
        *self.mark = u8::from(placement.mark);
    }
}
