ghost use Rattle.std.specs.Prelude.{◌≡◌};
ghost use Rattle.station.specs.Records.{Records, RecordLaws, record_fault, within_limit};
ghost use Rattle.station.specs.declared.records.RecordFault.TheVariants as faults;

use crate::kinds::Station;
use crate::letters::Letter;
use crate::refusals::Refusal;
use byte_fields::UsedByte;

// The bytes of a record.
pub const RECORD_SIZE: usize = 16;

// Why 16 bytes are no item, and at which of them: the layout, as an unused byte that is not zero, or a field over its
// limit.
#[derive(Clone, Copy, PartialEq, Eq, Debug)]
pub enum RecordFault {
    Layout(usize),
    Limit(usize),
}

impl RecordFault {
    pub fn place(self) -> usize
        ensures { result ≡ (record_fault self).place }
    {
        match self {
            RecordFault::Layout(place) | RecordFault::Limit(place) => place,
        }
    }
}

impl From<RecordFault> for Refusal {
    ghost from_gives = { λ fault refusal. refusal ≡ (record_fault fault).refusal };

    fn from(fault: RecordFault) -> Refusal {
        match fault {
            RecordFault::Layout(_) => Refusal::Layout,
            RecordFault::Limit(_) => Refusal::ItemLimit,
        }
    }
}

impl From<UsedByte> for RecordFault {
    ghost from_gives = { λ used fault. fault ≡ faults.Layout used.place };

    fn from(used: UsedByte) -> RecordFault {
        RecordFault::Layout(used.place)
    }
}

// A field's number, or its fault where it is over the limit; the field begins at the place.
pub fn limited(number: u64, limit: u64, place: usize) -> Result<u64, RecordFault>
    ensures { result ≡ within_limit place limit number }
{
    if number > limit {
        return Err(RecordFault::Limit(place));
    }
    Ok(number)
}

// A kind whose items are kept as records of 16 bytes. A record that reads as an item is the one that is written for it.
// That what is written reads back is no law: a value over its limits has 16 bytes too.
pub trait Recorded: Station {
    ghost records: { Records Self.Item };

    // The letter of the blocks that hold such records.
    fn letter() -> Letter
        ensures { result ≡ records.letter };

    // The item in a record, or why there is none.
    fn read(bytes: [u8; RECORD_SIZE]) -> Result<Self::Item, RecordFault>
        ensures { result ≡ records.reading bytes };

    // The record of an item.
    fn write(item: Self::Item) -> [u8; RECORD_SIZE]
        ensures { result ≡ records.written item };

    ghost recording: { RecordLaws Self.Station.rules.is_item records };
}
