ghost use Rattle.counts.specs.Counts.{made_frame_count, count_rules};
ghost use Rattle.std.specs.Prelude.{◌≡◌, IfOk};

use crate::tallies::MODULUS;
use station::Refusal;

// A frame, by the count that it bears.
#[derive(Clone, Copy, PartialEq, Eq, Debug)]
pub struct FrameCount {
    pub(crate) count: u16,
}

impl FrameCount {
    pub fn new(count: u16) -> Result<FrameCount, Refusal>
        ensures is { result ≡ made_frame_count count }
        ensures counts { IfOk result (λ frame. count_rules.is_item frame) }
    {
        if count >= MODULUS {
            return Err(Refusal::ItemLimit);
        }
        Ok(FrameCount { count })
    }

    pub fn count(self) -> u16
        ensures { result ≡ self.count }
    {
        self.count
    }
}
