ghost use Rattle.std.specs.Prelude.{◌≡◌};
ghost use Rattle.block.specs.Faults.{block_fault, write_fault};
ghost use Rattle.block.specs.declared.faults.BlockFault.TheVariants as faults;

use crate::layout::{CHECK_PLACE, COUNT_PLACE, LENGTH_PLACE};
use byte_fields::UsedByte;
use station::Refusal;

// Why bytes are no block: so many bytes are none, the check differs, or a byte offends the layout, the lowest that does.
#[derive(Clone, Copy, PartialEq, Eq, Debug)]
pub enum BlockFault {
    Length(usize),
    Check,
    Layout(usize),
}

impl BlockFault {
    pub fn place(self) -> usize
        ensures { result ≡ (block_fault self).place }
    {
        match self {
            BlockFault::Length(length) => length,
            BlockFault::Check => CHECK_PLACE,
            BlockFault::Layout(place) => place,
        }
    }
}

impl From<BlockFault> for Refusal {
    ghost from_gives = { λ fault refusal. refusal ≡ (block_fault fault).refusal };

    fn from(fault: BlockFault) -> Refusal {
        match fault {
            BlockFault::Length(_) => Refusal::BlockLength,
            BlockFault::Check => Refusal::BlockCheck,
            BlockFault::Layout(_) => Refusal::Layout,
        }
    }
}

impl From<UsedByte> for BlockFault {
    ghost from_gives = { λ used fault. fault ≡ faults.Layout used.place };

    fn from(used: UsedByte) -> BlockFault {
        BlockFault::Layout(used.place)
    }
}

// Why a block is not written: so many bytes of memory are too few, or there are too many items or too much text.
#[derive(Clone, Copy, PartialEq, Eq, Debug)]
pub enum WriteFault {
    Memory(usize),
    Items,
    Text,
}

impl WriteFault {
    pub fn place(self) -> usize
        ensures { result ≡ (write_fault self).place }
    {
        match self {
            WriteFault::Memory(length) => length,
            WriteFault::Items => COUNT_PLACE,
            WriteFault::Text => LENGTH_PLACE,
        }
    }
}

impl From<WriteFault> for Refusal {
    ghost from_gives = { λ fault refusal. refusal ≡ (write_fault fault).refusal };

    fn from(fault: WriteFault) -> Refusal {
        match fault {
            WriteFault::Memory(_) => Refusal::ShortMemory,
            WriteFault::Items | WriteFault::Text => Refusal::Layout,
        }
    }
}
