ghost use Rattle.std.specs.Prelude.{◌≡◌, Ok};
ghost use Rattle.byte_fields.specs.Numbers.{field};
ghost use Rattle.tandem.specs.Records.{placed_tandem_job, tandem_job_read, tandem_job_records, tandem_job_written};
ghost use Rattle.tandem.specs.Tandem.{tandem_rules};
ghost use Rattle.tandem.specs.JobRecords.{tandem_job_laws};

use crate::jobs::TandemJob;
use crate::summaries::TandemSummary;
use byte_fields::{check_unused, put_number, read_number};
use server::{CLOCK_END, SERVICE_LIMIT};
use station::{Letter, RECORD_SIZE, RecordFault, Recorded, limited};
use std::ops::Range;

// Where the fields stand; the bytes behind them are 0.
const ARRIVAL: Range<usize> = 0..6;

const FIRST: Range<usize> = 6..10;

const SECOND: Range<usize> = 10..14;

const UNUSED: Range<usize> = 14..RECORD_SIZE;

impl TandemJob {
    // The job with three numbers, or the place in a record of the first that is over its limit.
    pub fn of_fields(arrival: u64, first: u64, second: u64) -> Result<TandemJob, RecordFault>
        ensures { result ≡ placed_tandem_job arrival first second }
    {
        let longest = u64::from(SERVICE_LIMIT);
        let arrival = limited(arrival, CLOCK_END, ARRIVAL.start)?;
        let first = limited(first, longest, FIRST.start)?;
        let second = limited(second, longest, SECOND.start)?;
        Ok(TandemJob {
            arrival,
            first: first as u32,
            second: second as u32,
        })
    }

    // The job in the first 14 bytes of a record.
    pub(crate) fn in_front(bytes: [u8; RECORD_SIZE]) -> Result<TandemJob, RecordFault>
        ensures { result ≡ placed_tandem_job (field 0 6 bytes) (field 6 10 bytes) (field 10 14 bytes) }
    {
        TandemJob::of_fields(
            read_number(&bytes[ARRIVAL]),
            read_number(&bytes[FIRST]),
            read_number(&bytes[SECOND]),
        )
    }
}

impl Recorded for TandemSummary {
    ghost records = { tandem_job_records };

    ghost recording = { tandem_job_laws };

    fn letter() -> Letter {
        Letter::T
    }

    fn read(bytes: [u8; RECORD_SIZE]) -> Result<TandemJob, RecordFault> {
        check_unused(&bytes, UNUSED)?;
        TandemJob::in_front(bytes)
    }

    #[tactic(auto, unfolding(byte_fields::specs::Unused::zeros))]
    fn write(item: TandemJob) -> [u8; RECORD_SIZE]
        ensures is { result ≡ tandem_job_written item }
        ensures back { tandem_rules.is_item item → tandem_job_read result ≡ Ok item }
    {
        let bytes = put_number([0; RECORD_SIZE], ARRIVAL, item.arrival);
        let bytes = put_number(bytes, FIRST, u64::from(item.first));
        put_number(bytes, SECOND, u64::from(item.second))
    }
}
