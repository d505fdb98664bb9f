// A record that has been tested.
ghost use Rattle.std.specs.Prelude.{◌≡◌, IfOk};
ghost use Rattle.refusal.specs.Numbered.{refusal_in};
ghost use Rattle.record_layout.specs.RecordPlaces.{head_in};
ghost use Rattle.record_layout.specs.RecordRefusal.{head_refusal};

use record_layout::{check_record, head_in};
use refusal::Refusal;
use scan::ScanHead;

// The bytes of a record that is not refused, with its head.
#[derive(Clone, Copy)]
pub struct GoodRecord<'a> {
    pub bytes: &'a [u8],
    pub head: ScanHead,
    ghost good: { head_refusal bytes.now ≡ 0 },
    ghost head_is: { head ≡ head_in bytes.now },
}

impl<'a> GoodRecord<'a> {
    #[tactic(auto, unfolding(record_layout::specs::RecordRefusal::head_refusal))]
    pub fn read(bytes: &'a [u8]) -> Result<GoodRecord<'a>, Refusal>
        ensures number { refusal_in result ≡ head_refusal bytes.now }
        ensures of_bytes { IfOk result (λ given. given.bytes.now ≡ bytes.now) }
    {
        check_record(bytes, true)?;
        Ok(GoodRecord {
            bytes,
            head: head_in(bytes),
        })
    }
}
