ghost use Rattle.std.specs.Prelude.{◌≡◌};
ghost use Rattle.recordings.specs.declared.faults.PassError.TheVariants.{Input, Fault};

use loading::LoadFault;
use std::io;

// Where a pass breaks off: the number of the block that is refused, from 0 on with the notes, and why it is.
#[derive(Clone, Copy)]
pub struct PassFault {
    pub index: u64,
    pub fault: LoadFault,
}

// Why a pass is not read to its end: its input fails, or a block is refused.
#[derive(Drop)]
pub enum PassError {
    Input(io::Error),
    Fault(PassFault),
}

impl From<io::Error> for PassError {
    ghost from_gives = { λ error r. r ≡ Input error };

    fn from(error: io::Error) -> PassError {
        PassError::Input(error)
    }
}

impl From<PassFault> for PassError {
    ghost from_gives = { λ fault r. r ≡ Fault fault };

    fn from(fault: PassFault) -> PassError {
        PassError::Fault(fault)
    }
}
