ghost use Rattle.std.specs.Prelude.{◌≡◌, Ok};
ghost use Rattle.buffer.specs.Records.{slot_in, slot_read, slot_records, slot_written};
ghost use Rattle.buffer.specs.Summaries.{buffer_rules};
ghost use Rattle.buffer.specs.SlotRecords.{slot_laws};

use crate::slots::Slot;
use crate::summaries::BufferSummary;
use byte_fields::{check_unused, put_number, read_number};
use station::{Letter, RECORD_SIZE, RecordFault, Recorded};
use std::ops::Range;

// Where the fields stand; the bytes behind them are 0. No two bytes are over a limit.
const ARRIVALS: Range<usize> = 0..2;

const SERVICE: Range<usize> = 2..4;

const LIMIT: Range<usize> = 4..6;

const UNUSED: Range<usize> = 6..RECORD_SIZE;

impl Slot {
    // The slot in the first 6 bytes of a record.
    pub(crate) fn in_front(bytes: [u8; RECORD_SIZE]) -> Slot
        ensures { result ≡ slot_in bytes }
    {
        let arrivals = read_number(&bytes[ARRIVALS]);
        let service = read_number(&bytes[SERVICE]);
        let limit = read_number(&bytes[LIMIT]);
        Slot::new(arrivals as u16, service as u16, limit as u16)
    }
}

impl Recorded for BufferSummary {
    ghost records = { slot_records };

    ghost recording = { slot_laws };

    fn letter() -> Letter {
        Letter::B
    }

    fn read(bytes: [u8; RECORD_SIZE]) -> Result<Slot, RecordFault> {
        check_unused(&bytes, UNUSED)?;
        Ok(Slot::in_front(bytes))
    }

    #[tactic(auto, unfolding(byte_fields::specs::Unused::zeros))]
    fn write(item: Slot) -> [u8; RECORD_SIZE]
        ensures is { result ≡ slot_written item }
        ensures back { buffer_rules.is_item item → slot_read result ≡ Ok item }
    {
        let (arrivals, service, limit) = item.numbers();
        let bytes = put_number([0; RECORD_SIZE], ARRIVALS, u64::from(arrivals));
        let bytes = put_number(bytes, SERVICE, u64::from(service));
        put_number(bytes, LIMIT, u64::from(limit))
    }
}
