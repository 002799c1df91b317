ghost use Rattle.std.specs.Prelude.{◌≡◌, IfOk, Some};
ghost use Rattle.tandem.specs.Tandem.{made_tandem_state, tandem_rules, tandem_state, tandem_text};

use server::CLOCK_END;
use station::Refusal;
use std::fmt;

// The times at which the first and the second server fall free, the second never before the first.
#[derive(Clone, Copy, PartialEq, Eq, Debug)]
pub struct TandemState {
    pub(crate) first: u64,
    pub(crate) second: u64,
}

impl TandemState {
    pub fn new(first: u64, second: u64) -> Result<TandemState, Refusal>
        ensures is { result ≡ made_tandem_state first second }
        ensures counts { IfOk result (λ state. tandem_rules.is_state state) }
    {
        if first > second || second > CLOCK_END {
            return Err(Refusal::StateLimit);
        }
        Ok(TandemState { first, second })
    }

    // The first server's time and the second's.
    pub fn numbers(self) -> (u64, u64)
        ensures { result ≡ (self.first, self.second) }
    {
        (self.first, self.second)
    }
}

// Written out: a pass starts from zeros because the rules say so, and a derive would not be held to that here.
impl Default for TandemState {
    ghost is_default = { λ state. state ≡ tandem_state 0 0 };

    fn default() -> TandemState {
        TandemState {
            first: 0,
            second: 0,
        }
    }
}

impl fmt::Display for TandemState {
    ghost output = { λ state. Some (tandem_text state) };

    fn fmt<W: fmt::Write>(&self, f: &mut fmt::Formatter<W>) -> fmt::Result {
        let (first, second) = self.numbers();
        write!(f, "{first} {second}")
    }
}
