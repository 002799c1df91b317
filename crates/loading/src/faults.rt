ghost use Rattle.std.specs.Prelude.{◌≡◌, Some, Ok, Err, MatchResult};
ghost use Rattle.loading.specs.Faults.{fault_text, load_fault, load_report};
ghost use Rattle.loading.specs.declared.faults.LoadCause.TheVariants as cause;

use block::BlockFault;
use station::{RecordFault, Refusal};
use std::fmt;

// Why the records of a block are not all items: the first that is none, by its number from 0 on, and its fault.
#[derive(Clone, Copy, PartialEq, Eq)]
pub struct RecordsFault {
    pub index: usize,
    pub fault: RecordFault,
}

// Why a block is not loaded into a run: a trial is open, there is no room, it is of another kind, or a lower layer's fault.
#[derive(Clone, Copy, PartialEq, Eq)]
pub enum LoadCause {
    TrialOpen,
    NoRoom,
    OtherKind,
    Block(BlockFault),
    Record(RecordsFault),
}

// The same with the length of the run.
#[derive(Clone, Copy, PartialEq, Eq)]
pub struct LoadFault {
    pub cause: LoadCause,
    pub length: usize,
}

// The refusal, whichever layer it comes from.
impl From<LoadFault> for Refusal {
    ghost from_gives = { λ fault refusal. refusal ≡ (load_report fault).refusal };

    fn from(fault: LoadFault) -> Refusal {
        match fault.cause {
            LoadCause::TrialOpen => Refusal::TrialOpen,
            LoadCause::NoRoom => Refusal::NoRoom,
            LoadCause::OtherKind => Refusal::OtherKind,
            LoadCause::Block(fault) => Refusal::from(fault),
            LoadCause::Record(at) => Refusal::from(at.fault),
        }
    }
}

// The layer, the number and that layer's place: two numbers in the record layer, the run's length in the load layer.
impl fmt::Display for LoadFault {
    ghost output = { λ fault. Some (fault_text fault) };

    fn fmt<W: fmt::Write>(&self, f: &mut fmt::Formatter<W>) -> fmt::Result {
        let number = Refusal::from(*self).number();
        match self.cause {
            LoadCause::Block(fault) => {
                let place = fault.place();
                write!(f, "block {number} {place}")
            }
            LoadCause::Record(at) => {
                let index = at.index;
                let place = at.fault.place();
                write!(f, "record {number} {index} {place}")
            }
            _ => {
                let length = self.length;
                write!(f, "load {number} {length}")
            }
        }
    }
}

// A lower layer's fault beside the length of the run.
#[derive(Clone, Copy)]
pub struct Lower<F> {
    fault: F,
    length: usize,
}

// Puts the length of the run beside a lower layer's fault, so that `?` makes it a load fault.
pub(crate) fn beside<T, F>(r: Result<T, F>, length: usize) -> Result<T, Lower<F>>
    ensures { MatchResult result (λ x. r ≡ Ok x) (λ lower. (r ≡ Err lower.fault) × (lower.length ≡ «length»)) }
{
    r.map_err(|fault| Lower { fault, length })
}

// One for each lower layer, since the case differs with its type.
impl From<Lower<BlockFault>> for LoadFault {
    ghost from_gives = { λ lower r. r ≡ load_fault (cause.Block lower.fault) lower.length };

    fn from(lower: Lower<BlockFault>) -> LoadFault {
        LoadFault {
            cause: LoadCause::Block(lower.fault),
            length: lower.length,
        }
    }
}

impl From<Lower<RecordsFault>> for LoadFault {
    ghost from_gives = { λ lower r. r ≡ load_fault (cause.Record lower.fault) lower.length };

    fn from(lower: Lower<RecordsFault>) -> LoadFault {
        LoadFault {
            cause: LoadCause::Record(lower.fault),
            length: lower.length,
        }
    }
}
