ghost use Rattle.station.specs.Refusals.{number_of, refusal_text};
ghost use Rattle.std.specs.Prelude.{◌≡◌, Some};

use std::error::Error;
use std::fmt;

// Why a call was refused. A refused call has changed nothing.
#[derive(Clone, Copy, PartialEq, Eq, Debug)]
pub enum Refusal {
    TrialOpen = 1,
    NoRoom = 2,
    NoSuchPosition = 3,
    NothingToSettle = 4,
    ItemLimit = 5,
    StateLimit = 6,
    BlockLength = 7,
    BlockCheck = 8,
    Layout = 9,
    OtherKind = 10,
    ShortMemory = 11,
}

impl Refusal {
    // The number that people and programs know it by.
    pub fn number(self) -> u8
        ensures { result ≡ number_of self }
    {
        self as u8
    }
}

// Its number; docs/REFUSALS.md says what each means.
impl fmt::Display for Refusal {
    ghost output = { λ refusal. Some (refusal_text refusal) };

    fn fmt<W: fmt::Write>(&self, f: &mut fmt::Formatter<W>) -> fmt::Result {
        let number = self.number();
        write!(f, "refused with {number}")
    }
}

impl Error for Refusal {}
