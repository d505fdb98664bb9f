// The lists of a scan, and those that are lent for its tally.
ghost use Rattle.std.specs.Prelude.{◌≡◌};
ghost use Rattle.tally.specs.LentSums.{sums_read};
ghost use Rattle.scan.specs.LentLists.{lists_in};

use tally::SumsRef;

// A scan's own lists, or those of a group of its rays: an azimuth for each ray, a value and a quality for each gate.
#[derive(Clone, Copy)]
pub struct Rays<'a> {
    pub azimuths: &'a [u32],
    pub values: &'a [u16],
    pub qualities: &'a [u8],
}

// The same, to be filled from a record.
#[derive(Drop)]
pub struct RaysMut<'a> {
    pub azimuths: &'a mut [u32],
    pub values: &'a mut [u16],
    pub qualities: &'a mut [u8],
}

impl RaysMut<'_> {
    pub fn as_ref(&self) -> Rays<'_>
        ensures azimuths { result.azimuths.now ≡ self.now.azimuths.now }
        ensures values { result.values.now ≡ self.now.values.now }
        ensures qualities { result.qualities.now ≡ self.now.qualities.now }
    {
        Rays {
            azimuths: self.azimuths,
            values: self.values,
            qualities: self.qualities,
        }
    }
}

// What is lent for a tally: ledger and marks have a number for each gate, the sums one for each cell.
// Kept: the four sums beside `SumsMut`. With `sums: SumsMut<'a>` in their place the proofs of callers that make it from their own parameters didn't
// close: "a reference at an intersection of lifetimes".
#[derive(Drop)]
pub struct ListsMut<'a> {
    pub ledger: &'a mut [u32],
    pub marks: &'a mut [u8],
    pub counts: &'a mut [u32],
    pub quality_sums: &'a mut [u32],
    pub value_sums: &'a mut [u64],
    pub weighted_sums: &'a mut [u64],
}

impl ListsMut<'_> {
    pub fn sums(&self) -> SumsRef<'_>
        ensures { sums_read result ≡ (lists_in self.now).sums }
    {
        SumsRef {
            counts: self.counts,
            quality_sums: self.quality_sums,
            value_sums: self.value_sums,
            weighted_sums: self.weighted_sums,
        }
    }
}
