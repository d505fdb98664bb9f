// Sums of nothing.
ghost use Rattle.std.specs.Prelude.{◌≡◌};
ghost use Rattle.tally.specs.LentSums.{lent_sums, KeepsSums};
ghost use Rattle.tally.specs.Tally.{cleared};

use crate::lists::SumsMut;

impl SumsMut<'_> {
    // Tallies start from nothing: what the lent lists held before plays no part.
    #[tactic(auto, unfolding(crate::specs::Tally::cleared))]
    pub fn clear(&mut self)
        ensures kept { KeepsSums self.old self.new }
        ensures emptied { let sums = lent_sums self in sums.exit ≡ cleared sums.entry }
    {
        self.counts.fill(0);
        self.quality_sums.fill(0);
        self.value_sums.fill(0);
        self.weighted_sums.fill(0);
    }
}
