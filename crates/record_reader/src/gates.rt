// What a record says of one ray or one gate, gates numbered ray by ray.
ghost use Rattle.std.specs.Prelude.{◌≡◌, ◌<◌, ◌^◌, get_or, option_map, unwrap_or};
ghost use Rattle.big_endian.specs.BigEndian.{numbers_at};
ghost use Rattle.record_layout.specs.RecordPlaces.{azimuths_in, values_in, qualities_in};

use big_endian::Word;
use record_layout::{Field, content_start, gates_in, rays_in};

// One of the numbers that stand one behind the other, if there are so many.
#[tactic(auto, using(big_endian::proofs::NumberInList::no_such_number, big_endian::proofs::NumberInList::number_there))]
fn number_in<T: Word>(bytes: &[u8], start: usize, count: usize, k: usize) -> Option<T>
    requires { (start < 2 ^ 37) × (count < 2 ^ 32) }
    ensures { unwrap_or (option_map T.number result) 0 ≡ get_or (numbers_at T.WIDTH bytes.now start count) k 0 }
{
    if count <= k {
        return None;
    }
    Some(T::read(bytes, start + T::WIDTH * k))
}

// Of any bytes; 0 where the record has no such ray.
// Kept: what may not change: the clause says `get_or (azimuths_in bytes.now) ray 0`.
#[tactic(auto, unfolding(record_layout::specs::RecordPlaces::azimuths_in))]
pub fn azimuth_in(bytes: &[u8], ray: usize) -> u32
    ensures { result ≡ get_or (azimuths_in bytes.now) ray 0 }
{
    number_in(
        bytes,
        content_start(bytes, Field::Azimuths),
        rays_in(bytes),
        ray,
    )
    .unwrap_or(0)
}

// Of any bytes; 0 where the record has no such gate.
// Kept: what may not change: the clause says `get_or (values_in bytes.now) k 0`.
#[tactic(auto, unfolding(record_layout::specs::RecordPlaces::values_in))]
pub fn value_in(bytes: &[u8], k: usize) -> u16
    ensures { result ≡ get_or (values_in bytes.now) k 0 }
{
    number_in(
        bytes,
        content_start(bytes, Field::Values),
        gates_in(bytes),
        k,
    )
    .unwrap_or(0)
}

// Of any bytes; 0 where the record has no such gate.
// Kept: what may not change: the clause says `get_or (qualities_in bytes.now) k 0`.
#[tactic(auto, unfolding(record_layout::specs::RecordPlaces::qualities_in))]
pub fn quality_in(bytes: &[u8], k: usize) -> u8
    ensures { result ≡ get_or (qualities_in bytes.now) k 0 }
{
    number_in(
        bytes,
        content_start(bytes, Field::Qualities),
        gates_in(bytes),
        k,
    )
    .unwrap_or(0)
}
