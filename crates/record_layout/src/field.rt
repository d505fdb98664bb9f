// The seven fields of a record, and its end.
ghost use Rattle.std.specs.Prelude.{◌≡◌, ◌≤◌, ◌+◌, false, MatchOption};
ghost use Rattle.refusal.specs.Checks.{in_range};
ghost use Rattle.record_layout.specs.Fields.{index_of};

// In their order; the first has the tag 1.
#[derive(Clone, Copy)]
pub enum Field {
    Site,
    Gates,
    Grid,
    Weighting,
    Azimuths,
    Values,
    Qualities,
    // Behind the seven, where the record ends.
    // Kept: what may not change: content_start answers for place 7 too, as it did by number.
    End,
}

impl Field {
    // The seven.
    pub const ALL: [Field; 7] = [
        Field::Site,
        Field::Gates,
        Field::Grid,
        Field::Weighting,
        Field::Azimuths,
        Field::Values,
        Field::Qualities,
    ];

    // How many fields stand before it.
    pub fn index(self) -> usize
        ensures { result ≡ index_of self }
    {
        self as usize
    }

    // The field of a number from 1 to 7.
    #[tactic(auto, unfolding(refusal::specs::Checks::in_range))]
    pub fn numbered(number: usize) -> Option<Field>
        ensures { MatchOption result (in_range 1 7 number ≡ false) (λ field. (index_of field + 1 ≡ number) × (number ≤ 7)) }
    {
        match number {
            1 => Some(Field::Site),
            2 => Some(Field::Gates),
            3 => Some(Field::Grid),
            4 => Some(Field::Weighting),
            5 => Some(Field::Azimuths),
            6 => Some(Field::Values),
            7 => Some(Field::Qualities),
            _ => None,
        }
    }
}
