// What is refused of a record: its layout, then the scan that it holds.
ghost use Rattle.std.specs.Prelude.{◌≡◌};
ghost use Rattle.arithmetic.specs.Places.{all_of};
ghost use Rattle.limits.specs.Accepted.{azimuth_accepted};
ghost use Rattle.refusal.specs.Numbered.{refusal_in};
ghost use Rattle.scan.specs.ScanRefusal.{quality_accepted};
ghost use Rattle.record_layout.specs.RecordPlaces.{azimuths_in, qualities_in};
ghost use Rattle.record_layout.specs.RecordRefusal.{record_refusal};

use crate::field::Field;
use crate::head::head_in;
use crate::layout::{check_layout, content_start, gates_in, rays_in};
use big_endian::Word;
use refusal::Refusal;
use scan::check_scan;

fn azimuths_accepted(bytes: &[u8]) -> bool
    ensures { result ≡ all_of azimuth_accepted (azimuths_in bytes.now) }
{
    let start = content_start(bytes, Field::Azimuths);
    (0..rays_in(bytes)).all(|k| limits::azimuth_accepted(u32::read(bytes, start + 4 * k)))
}

fn qualities_accepted(bytes: &[u8]) -> bool
    ensures { result ≡ all_of quality_accepted (qualities_in bytes.now) }
{
    let start = content_start(bytes, Field::Qualities);
    (0..gates_in(bytes)).all(|k| u8::read(bytes, start + k) <= 100)
}

// 11 to 14, then 1 to 8, where 6 is given unless the lists have their lengths.
pub fn check_record(bytes: &[u8], lists_exact: bool) -> Result<(), Refusal>
    ensures { refusal_in result ≡ record_refusal bytes.now lists_exact }
{
    check_layout(bytes)?;
    check_scan(
        head_in(bytes),
        lists_exact,
        azimuths_accepted(bytes),
        qualities_accepted(bytes),
    )
}
