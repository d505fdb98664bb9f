// The weighting in which cells are published.

// Each measured gate alike, or by its quality.
#[derive(Clone, Copy)]
pub enum Weighting {
    Plain,
    ByQuality,
}
