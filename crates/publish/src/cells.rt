// The published cells, from counts and sums.
ghost use Rattle.std.specs.Prelude.{◌≡◌, ℕ, length, slice_get, Some};
ghost use Rattle.publish.specs.Publish.{published_mean, published_quality, published_cells};
ghost use Rattle.tally.specs.LentSums.{sums_read, cells_in, KeepsCells};
ghost use Rattle.publish.specs.PublishRoom.{Publishable};

use limits::Weighting;
use tally::{CellsMut, SumsRef};

// Means and qualities of all cells, of any counts and sums. For our own crates: they have tested the lists' lengths.
// Plain: the value sums by the counts; by quality: the weighted sums by the quality sums.
pub fn publish_cells(weighting: Weighting, sums: SumsRef<'_>, cells: &mut CellsMut<'_>)
    requires { Publishable (sums_read sums) (cells_in cells.old) }
    ensures the_cells { cells_in cells.new ≡ published_cells weighting (sums_read sums.entry) }
    ensures kept { KeepsCells cells.old cells.new }
{
    fill_cells(sums.quality_sums, sums.counts, cells.qualities, quality_of);
    match weighting {
        Weighting::Plain => fill_cells(sums.value_sums, sums.counts, cells.means, mean_of),
        Weighting::ByQuality => fill_cells(
            sums.weighted_sums,
            sums.quality_sums,
            cells.means,
            mean_of,
        ),
    }
}

#[tactic(auto, unfolding(crate::specs::Publish::published_mean, crate::specs::Publish::mean_of))]
fn mean_of(value_sum: u64, divisor: u32) -> u16
    ensures { result ≡ published_mean value_sum divisor }
{
    match value_sum.checked_div(u64::from(divisor)) {
        Some(mean) if mean <= 65533 => mean as u16,
        // Kept: what may not change: document 01 and the C interface name 65,535 for no mean.
        _ => 65535,
    }
}

#[tactic(auto, unfolding(crate::specs::Publish::published_quality, crate::specs::Publish::quality_of))]
fn quality_of(quality_sum: u32, count: u32) -> u8
    ensures { result ≡ published_quality quality_sum count }
{
    quality_sum.checked_div(count).unwrap_or(0).min(100) as u8
}

// Writes to each cell what its two sums give.
fn fill_cells<S: Copy, T: Copy, F: Fn(S, u32) -> T>(
    sums: &[S],
    divisors: &[u32],
    cells: &mut [T],
    quotient: F,
)
    requires callable { F.IsAlwaysCallable quotient }
    requires lengths { (length sums.now ≡ length cells.old) × (length divisors.now ≡ length cells.old) }
    ensures same_length { length cells.new ≡ length cells.old }
    ensures given { (k : ℕ) (s : _) (d : _) (q : _) → slice_get sums.now k ≡ Some s → slice_get divisors.now k ≡ Some d → slice_get cells.new k ≡ Some q → F.post quotient s d q }
{
    // Kept: by its index. With `cells.iter_mut().zip(sums)` the proof didn't close: nothing is known of what the list then holds.
    for (c, cell) in cells.iter_mut().enumerate() {
        *cell = quotient(sums[c], divisors[c]);
    }
}
