ghost use Rattle.std.specs.Prelude.{◌≡◌, ◌≤◌, IfOk, Some};
ghost use Rattle.lock.specs.States.{last_state, lock_state, made_state, state_text};
ghost use Rattle.lock.specs.Maps.{lock_rules};

use station::Refusal;
use std::fmt;

// 0 seek, 1 and 2 check, 3 lock, 4 to 6 flywheel, 7 stowed.
// A number and no enum, since the rules number the states, and a state is an octal digit of a map.
#[derive(Clone, Copy, PartialEq, Eq, Debug)]
pub struct LockState {
    number: u8,
}

const LAST_STATE: u8 = 7;

impl LockState {
    // Refuses a number above 7.
    pub fn new(number: u8) -> Result<LockState, Refusal>
        ensures is { result ≡ made_state number }
        ensures counts { IfOk result (λ s. lock_rules.is_state s) }
    {
        if number > LAST_STATE {
            return Err(Refusal::StateLimit);
        }
        Ok(LockState::numbered(number))
    }

    // For a number that is known to be a state's; `TryFrom` would bring a refusal that cannot happen.
    pub(crate) fn numbered(number: u8) -> LockState
        requires { number ≤ last_state }
        ensures { result ≡ lock_state number }
    {
        LockState { number }
    }

    pub fn number(self) -> u8
        ensures { result ≡ self.number }
    {
        self.number
    }
}

// A lock begins by seeking.
// Written out: a pass starts from 0 because the rules say so, and a derive would not be held to that here.
impl Default for LockState {
    ghost is_default = { λ s. s ≡ lock_state 0 };

    fn default() -> LockState {
        LockState { number: 0 }
    }
}

// The number.
impl fmt::Display for LockState {
    ghost output = { λ s. Some (state_text s) };

    fn fmt<W: fmt::Write>(&self, f: &mut fmt::Formatter<W>) -> fmt::Result {
        let number = self.number;
        write!(f, "{number}")
    }
}
