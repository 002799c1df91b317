ghost use Rattle.std.specs.Prelude.{◌≡◌, ◌<◌};
ghost use Rattle.counts.specs.Tallies.{plus, between};

// A count has 14 bits.
pub(crate) const MODULUS: u16 = 16_384;

pub(crate) const LAST_COUNT: u16 = MODULUS - 1;

// The greatest difference that counts as a gap; a greater one is a frame that comes late.
const WIDEST_GAP: u32 = 8_192;

// Frames missed, seen twice and seen late, each counted modulo 2^32.
#[derive(Clone, Copy, PartialEq, Eq, Debug, Default)]
pub(crate) struct Tallies {
    pub(crate) missing: u32,
    pub(crate) repeats: u32,
    pub(crate) late: u32,
}

impl Tallies {
    pub(crate) fn and(self, more: Tallies) -> Tallies
        ensures { result ≡ plus self more }
    {
        Tallies {
            missing: self.missing.wrapping_add(more.missing),
            repeats: self.repeats.wrapping_add(more.repeats),
            late: self.late.wrapping_add(more.late),
        }
    }
}

// What the step from the last count to the next adds. The difference is taken modulo 2^14, so a count that wraps in
// mid-pass is no gap.
pub(crate) fn step_between(last: u16, next: u16) -> Tallies
    ensures { last < 16384 → result ≡ between last next }
{
    let modulus = u32::from(MODULUS);
    let mut added = Tallies::default();
    match (u32::from(next) + modulus - u32::from(last % MODULUS)) % modulus {
        0 => added.repeats = 1,
        1 => {}
        gap @ 2..=WIDEST_GAP => added.missing = gap - 1,
        _ => added.late = 1,
    }
    added
}
