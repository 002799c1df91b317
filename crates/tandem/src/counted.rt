ghost use Rattle.std.specs.Prelude.{◌≡◌, Ok};
ghost use Rattle.counts.specs.Counts.{count_rules};
ghost use Rattle.tandem.specs.Counted.{counted_read, counted_records, counted_written};
ghost use Rattle.station.specs.Pairs.{pair_rules};
ghost use Rattle.tandem.specs.Tandem.{tandem_rules};
ghost use Rattle.tandem.specs.CountedLaws.{counted_laws};

use crate::jobs::TandemJob;
use crate::summaries::TandemSummary;
use byte_fields::{put_number, read_number};
use counts::{CountSummary, FrameCount};
use station::{Letter, Pair, RECORD_SIZE, RecordFault, Recorded, RecordedWith};
use std::ops::Range;

// Frame counts beside two servers in tandem: a tandem job's record, with the count in the last two bytes. No byte is
// unused.
const COUNT: Range<usize> = 14..RECORD_SIZE;

impl RecordedWith<CountSummary> for TandemSummary {
    ghost together = { counted_records };

    ghost recording = { counted_laws };

    fn letter_with() -> Letter {
        Letter::P
    }

    fn read_with(bytes: [u8; RECORD_SIZE]) -> Result<Pair<FrameCount, TandemJob>, RecordFault> {
        let second = TandemJob::in_front(bytes)?;
        let first = FrameCount::of_field(read_number(&bytes[COUNT]), COUNT.start)?;
        Ok(Pair { first, second })
    }

    #[tactic(auto, unfolding(byte_fields::specs::Unused::zeros))]
    fn write_with(item: Pair<FrameCount, TandemJob>) -> [u8; RECORD_SIZE]
        ensures is { result ≡ counted_written item }
        ensures back { (pair_rules count_rules tandem_rules).is_item item → counted_read result ≡ Ok item }
    {
        let bytes = TandemSummary::write(item.second);
        put_number(bytes, COUNT, u64::from(item.first.count()))
    }
}
