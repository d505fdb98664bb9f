// What may be refused: document 01, "Refusal numbers", and document 02 for 17, 18, 19 and 31.
ghost use Rattle.std.specs.Prelude.{◌≡◌};
ghost use Rattle.refusal.specs.Numbered.{number_of};

// The reason of a refusal, which is all that a refusal gives.
#[derive(Clone, Copy)]
pub enum Refusal {
    Rays = 1,
    Gates = 2,
    // First centre, spacing or last centre; of a single gate, its range.
    Centres = 3,
    Site = 4,
    Grid = 5,
    // Of a lent list.
    Length = 6,
    Azimuth = 7,
    Quality = 8,
    CutShort = 11,
    WrongTag = 12,
    // Length, kind or weighting byte of a record's field.
    WrongField = 13,
    BytesAfter = 14,
    // Over 32,767 gates to write.
    LongRecord = 15,
    ShortBuffer = 16,
    // More rays than were announced.
    RaysPast = 17,
    ClosedEarly = 18,
    Closed = 19,
    // A count or sum would pass its width.
    FullSum = 31,
}

impl Refusal {
    pub fn number(self) -> u32
        ensures { result ≡ number_of self }
    {
        self as u32
    }
}
