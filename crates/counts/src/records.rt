ghost use Rattle.std.specs.Prelude.{◌≡◌, Ok};
ghost use Rattle.counts.specs.Counts.{count_rules};
ghost use Rattle.counts.specs.Records.{placed_frame_count, frame_count_read, frame_count_records, frame_count_written};
ghost use Rattle.counts.specs.FrameRecords.{frame_laws};

use crate::frames::FrameCount;
use crate::summaries::CountSummary;
use crate::tallies::LAST_COUNT;
use byte_fields::{check_unused, put_number, read_number};
use station::{Letter, RECORD_SIZE, RecordFault, Recorded, limited};
use std::ops::Range;

// Where the count stands; the bytes behind it are 0.
const COUNT: Range<usize> = 0..2;

const UNUSED: Range<usize> = 2..RECORD_SIZE;

impl FrameCount {
    // The frame with a count that stands at a place in a record, or the fault there.
    pub fn of_field(count: u64, place: usize) -> Result<FrameCount, RecordFault>
        ensures { result ≡ placed_frame_count place count }
    {
        let count = limited(count, u64::from(LAST_COUNT), place)?;
        Ok(FrameCount {
            count: count as u16,
        })
    }
}

impl Recorded for CountSummary {
    ghost records = { frame_count_records };

    ghost recording = { frame_laws };

    fn letter() -> Letter {
        Letter::C
    }

    fn read(bytes: [u8; RECORD_SIZE]) -> Result<FrameCount, RecordFault> {
        check_unused(&bytes, UNUSED)?;
        FrameCount::of_field(read_number(&bytes[COUNT]), COUNT.start)
    }

    #[tactic(auto, unfolding(byte_fields::specs::Unused::zeros))]
    fn write(item: FrameCount) -> [u8; RECORD_SIZE]
        ensures is { result ≡ frame_count_written item }
        ensures back { count_rules.is_item item → frame_count_read result ≡ Ok item }
    {
        put_number([0; RECORD_SIZE], COUNT, u64::from(item.count))
    }
}
