ghost use Rattle.counts.specs.Counts.{made_count_state, count_rules, count_state, count_text, last_text};
ghost use Rattle.counts.specs.Tallies.{no_tallies};
ghost use Rattle.std.specs.Prelude.{◌≡◌, IfOk, Some, None};

use crate::tallies::{MODULUS, Tallies};
use station::Refusal;
use std::fmt;

// The last count, if a frame was seen, and the tallies so far.
#[derive(Clone, Copy, PartialEq, Eq, Debug)]
pub struct CountState {
    pub(crate) last: Option<u16>,
    pub(crate) tallies: Tallies,
}

impl CountState {
    pub fn new(
        last: Option<u16>,
        missing: u32,
        repeats: u32,
        late: u32,
    ) -> Result<CountState, Refusal>
        ensures is { result ≡ made_count_state last missing repeats late }
        ensures counts { IfOk result (λ state. count_rules.is_state state) }
    {
        let tallies = Tallies {
            missing,
            repeats,
            late,
        };
        match last {
            Some(count) if count >= MODULUS => Err(Refusal::StateLimit),
            _ => Ok(CountState { last, tallies }),
        }
    }

    // The last count, missing, repeats and late.
    pub fn numbers(self) -> (Option<u16>, u32, u32, u32)
        ensures { result ≡ (self.last, self.tallies.missing, self.tallies.repeats, self.tallies.late) }
    {
        let Tallies {
            missing,
            repeats,
            late,
        } = self.tallies;
        (self.last, missing, repeats, late)
    }
}

// No frame seen, and nothing tallied. Written out: a pass starts so because the rules say it, and a derive would not be
// held to that here.
impl Default for CountState {
    ghost is_default = { λ state. state ≡ count_state None no_tallies };

    fn default() -> CountState {
        CountState {
            last: None,
            tallies: Tallies::default(),
        }
    }
}

// The last count as it is printed, `-` where no frame was seen.
#[derive(Clone, Copy)]
struct LastSeen {
    count: Option<u16>,
}

impl fmt::Display for LastSeen {
    ghost output = { λ seen. Some (last_text seen.count) };

    fn fmt<W: fmt::Write>(&self, f: &mut fmt::Formatter<W>) -> fmt::Result {
        match self.count {
            Some(count) => write!(f, "{count}"),
            None => write!(f, "-"),
        }
    }
}

impl fmt::Display for CountState {
    ghost output = { λ state. Some (count_text state) };

    fn fmt<W: fmt::Write>(&self, f: &mut fmt::Formatter<W>) -> fmt::Result {
        let (count, missing, repeats, late) = self.numbers();
        let last = LastSeen { count };
        write!(f, "{last} {missing} {repeats} {late}")
    }
}
