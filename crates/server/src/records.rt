ghost use Rattle.std.specs.Prelude.{◌≡◌, Ok};
ghost use Rattle.server.specs.Records.{job_read, job_records, job_written, placed_job};
ghost use Rattle.server.specs.Server.{server_rules};
ghost use Rattle.server.specs.JobRecords.{job_laws};

use crate::clock::{CLOCK_END, SERVICE_LIMIT};
use crate::jobs::Job;
use crate::summaries::ServerSummary;
use byte_fields::{check_unused, put_number, read_number};
use station::{Letter, RECORD_SIZE, RecordFault, Recorded, limited};
use std::ops::Range;

// Where the fields stand; the bytes behind them are 0.
const ARRIVAL: Range<usize> = 0..6;

const SERVICE: Range<usize> = 6..10;

const UNUSED: Range<usize> = 10..RECORD_SIZE;

impl Job {
    // The job with two numbers, or the place in a record of the first that is over its limit.
    fn of_fields(arrival: u64, service: u64) -> Result<Job, RecordFault>
        ensures { result ≡ placed_job arrival service }
    {
        let arrival = limited(arrival, CLOCK_END, ARRIVAL.start)?;
        let service = limited(service, u64::from(SERVICE_LIMIT), SERVICE.start)?;
        Ok(Job {
            arrival,
            service: service as u32,
        })
    }
}

impl Recorded for ServerSummary {
    ghost records = { job_records };

    ghost recording = { job_laws };

    fn letter() -> Letter {
        Letter::F
    }

    fn read(bytes: [u8; RECORD_SIZE]) -> Result<Job, RecordFault> {
        check_unused(&bytes, UNUSED)?;
        Job::of_fields(read_number(&bytes[ARRIVAL]), read_number(&bytes[SERVICE]))
    }

    #[tactic(auto, unfolding(byte_fields::specs::Unused::zeros))]
    fn write(item: Job) -> [u8; RECORD_SIZE]
        ensures is { result ≡ job_written item }
        ensures back { server_rules.is_item item → job_read result ≡ Ok item }
    {
        let bytes = put_number([0; RECORD_SIZE], ARRIVAL, item.arrival);
        put_number(bytes, SERVICE, u64::from(item.service))
    }
}
