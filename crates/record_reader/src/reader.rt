// Reads a record: its head alone, or head and lists.
ghost use Rattle.std.specs.Prelude.{◌≡◌, ◌≤◌, length};
ghost use Rattle.big_endian.specs.BigEndian.{numbers_at};
ghost use Rattle.record_layout.specs.RecordPlaces.{content_start, head_in};
ghost use Rattle.record_layout.specs.RecordRefusal.{head_refusal};
ghost use Rattle.refusal.specs.Answer.{answered};
ghost use Rattle.refusal.specs.Numbered.{answer_of};
ghost use Rattle.record_layout.specs.RecordLists.{lent_record_lists, KeepsRays};
ghost use Rattle.record_reader.specs.RecordRead.{Reads};

use big_endian::read_list;
use record_layout::{Field, check_record, content_start, head_in};
use refusal::Refusal;
use scan::{RaysMut, ScanHead};

// Any bytes; it tells the number of a refused record.
pub fn read_head(bytes: &[u8]) -> Result<ScanHead, Refusal>
    ensures { answer_of result ≡ answered (head_refusal bytes.now) (head_in bytes.now) }
{
    check_record(bytes, true)?;
    Ok(head_in(bytes))
}

// Any bytes, and three lists of any lengths. A refusal gives its number only and leaves the lists as they came in.
pub fn read_scan(bytes: &[u8], rays: &mut RaysMut<'_>) -> Result<ScanHead, Refusal>
    ensures read { Reads bytes.now (lent_record_lists rays) result }
    ensures kept { KeepsRays rays.old rays.new }
{
    let head = head_in(bytes);
    let lists_exact = scan::lists_accepted(head, rays.as_ref());
    check_record(bytes, lists_exact)?;
    read_lists(bytes, rays);
    Ok(head)
}

// The three lists of an accepted record.
fn read_lists(bytes: &[u8], rays: &mut RaysMut<'_>)
    requires { (length rays.old.azimuths.now ≤ 720) × (length rays.old.values.now ≤ 720000) × (length rays.old.qualities.now ≤ 720000) }
    ensures azimuths_after { rays.new.azimuths.now ≡ numbers_at 4 bytes.now (content_start bytes.now 4) (length rays.old.azimuths.now) }
    ensures values_after { rays.new.values.now ≡ numbers_at 2 bytes.now (content_start bytes.now 5) (length rays.old.values.now) }
    ensures qualities_after { rays.new.qualities.now ≡ numbers_at 1 bytes.now (content_start bytes.now 6) (length rays.old.qualities.now) }
    ensures kept { KeepsRays rays.old rays.new }
{
    read_list(bytes, content_start(bytes, Field::Azimuths), rays.azimuths);
    read_list(bytes, content_start(bytes, Field::Values), rays.values);
    read_list(
        bytes,
        content_start(bytes, Field::Qualities),
        rays.qualities,
    );
}
