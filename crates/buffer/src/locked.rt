ghost use Rattle.std.specs.Prelude.{◌≡◌, Ok};
ghost use Rattle.buffer.specs.Summaries.{buffer_rules};
ghost use Rattle.lock.specs.Maps.{lock_rules};
ghost use Rattle.buffer.specs.Locked.{locked_read, locked_records, locked_written};
ghost use Rattle.station.specs.Pairs.{pair_rules};
ghost use Rattle.buffer.specs.LockedLaws.{locked_laws};

use crate::slots::Slot;
use crate::summaries::BufferSummary;
use byte_fields::{check_unused, put_number, read_number};
use lock::{LockEvent, LockMap};
use station::{Letter, Pair, RECORD_SIZE, RecordFault, Recorded, RecordedWith};
use std::ops::Range;

// Receiver lock beside the slotted buffer: a slot's record, with the letter behind the slot; the bytes
// behind that are 0.
const LETTER: Range<usize> = 6..7;

const UNUSED: Range<usize> = 7..RECORD_SIZE;

impl RecordedWith<LockMap> for BufferSummary {
    ghost together = { locked_records };

    ghost recording = { locked_laws };

    fn letter_with() -> Letter {
        Letter::Q
    }

    fn read_with(bytes: [u8; RECORD_SIZE]) -> Result<Pair<LockEvent, Slot>, RecordFault> {
        check_unused(&bytes, UNUSED)?;
        let first = LockEvent::of_field(read_number(&bytes[LETTER]) as u8, LETTER.start)?;
        let second = Slot::in_front(bytes);
        Ok(Pair { first, second })
    }

    #[tactic(auto, unfolding(byte_fields::specs::Unused::zeros))]
    fn write_with(item: Pair<LockEvent, Slot>) -> [u8; RECORD_SIZE]
        ensures is { result ≡ locked_written item }
        ensures back { (pair_rules lock_rules buffer_rules).is_item item → locked_read result ≡ Ok item }
    {
        let bytes = BufferSummary::write(item.second);
        put_number(bytes, LETTER, u64::from(item.first.letter()))
    }
}
