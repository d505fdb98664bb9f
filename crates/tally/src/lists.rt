// The lists that callers lend for cells, and those of gates.
ghost use Rattle.std.specs.Prelude.{◌≡◌};
ghost use Rattle.tally.specs.LentSums.{sums_in, sums_read};

// A number for each cell, to be changed.
#[derive(Drop)]
pub struct SumsMut<'a> {
    pub counts: &'a mut [u32],
    pub quality_sums: &'a mut [u32],
    pub value_sums: &'a mut [u64],
    pub weighted_sums: &'a mut [u64],
}

// The same, to be read.
#[derive(Clone, Copy)]
pub struct SumsRef<'a> {
    pub counts: &'a [u32],
    pub quality_sums: &'a [u32],
    pub value_sums: &'a [u64],
    pub weighted_sums: &'a [u64],
}

impl SumsMut<'_> {
    pub fn as_ref(&self) -> SumsRef<'_>
        ensures { sums_read result ≡ sums_in self.now }
    {
        SumsRef {
            counts: self.counts,
            quality_sums: self.quality_sums,
            value_sums: self.value_sums,
            weighted_sums: self.weighted_sums,
        }
    }
}

// The published cells, a number for each.
#[derive(Drop)]
pub struct CellsMut<'a> {
    pub means: &'a mut [u16],
    pub qualities: &'a mut [u8],
}

// A ledger entry, a value and a quality for each gate.
#[derive(Clone, Copy)]
pub struct Gates<'a> {
    pub ledger: &'a [u32],
    pub values: &'a [u16],
    pub qualities: &'a [u8],
}
