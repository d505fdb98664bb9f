// What the types of lists say of the numbers in them. A check knows it of a slice that is a parameter, and not of one that a struct holds.
ghost use Rattle.std.specs.Prelude.{ℕ, ◌≤◌, get_or};
ghost use Rattle.tally.specs.LentSums.{sums_in};
ghost use Rattle.tally.specs.Width.{Fitting};

use crate::lists::SumsMut;

// Kept: the three are apart, since the new form is no plainer: one function over a trait of the numbers would need an impl for u16, u32 and u64
// each, whose ghost member says what these three clauses say.
pub fn fit_16_bits(list: &[u16])
    ensures { (k : ℕ) → get_or list.now k 0 ≤ 65535 }
{}

fn fit_32_bits(list: &[u32])
    ensures { (k : ℕ) → get_or list.now k 0 ≤ 4294967295 }
{}

fn fit_64_bits(list: &[u64])
    ensures { (k : ℕ) → get_or list.now k 0 ≤ 18446744073709551615 }
{}

impl SumsMut<'_> {
    // No count or sum is past its width.
    pub fn fit(&self)
        ensures { Fitting (sums_in self.now) }
    {
        fit_32_bits(self.counts);
        fit_32_bits(self.quality_sums);
        fit_64_bits(self.value_sums);
        fit_64_bits(self.weighted_sums);
    }
}
