ghost use Rattle.std.specs.Prelude.{◌≡◌, Ok};
ghost use Rattle.lock.specs.Maps.{lock_rules};
ghost use Rattle.lock.specs.Records.{placed_event, event_read, event_records, event_written};
ghost use Rattle.lock.specs.EventRecords.{event_laws};

use crate::events::LockEvent;
use crate::maps::LockMap;
use byte_fields::{check_unused, put_number, read_number};
use station::{Letter, RECORD_SIZE, RecordFault, Recorded};
use std::ops::Range;

// Where the letter stands; the bytes behind it are 0.
const LETTER: Range<usize> = 0..1;

const UNUSED: Range<usize> = 1..RECORD_SIZE;

impl LockEvent {
    // The event with a letter that stands at a place in a record, or the fault there.
    pub fn of_field(letter: u8, place: usize) -> Result<LockEvent, RecordFault>
        ensures { result ≡ placed_event place letter }
    {
        LockEvent::new(char::from(letter)).map_err(|_| RecordFault::Limit(place))
    }
}

impl Recorded for LockMap {
    ghost records = { event_records };

    ghost recording = { event_laws };

    fn letter() -> Letter {
        Letter::S
    }

    fn read(bytes: [u8; RECORD_SIZE]) -> Result<LockEvent, RecordFault> {
        check_unused(&bytes, UNUSED)?;
        LockEvent::of_field(read_number(&bytes[LETTER]) as u8, LETTER.start)
    }

    #[tactic(auto, unfolding(byte_fields::specs::Unused::zeros))]
    fn write(item: LockEvent) -> [u8; RECORD_SIZE]
        ensures is { result ≡ event_written item }
        ensures back { lock_rules.is_item item → event_read result ≡ Ok item }
    {
        put_number([0; RECORD_SIZE], LETTER, u64::from(item.letter()))
    }
}
