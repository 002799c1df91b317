ghost use Rattle.std.specs.Prelude.{◌≡◌, IfOk};
ghost use Rattle.server.specs.Server.{made_job, server_rules};

use crate::clock::{CLOCK_END, SERVICE_LIMIT};
use station::Refusal;

// A frame for one server: when it arrives, and how long it is served.
#[derive(Clone, Copy, PartialEq, Eq, Debug)]
pub struct Job {
    pub(crate) arrival: u64,
    pub(crate) service: u32,
}

impl Job {
    pub fn new(arrival: u64, service: u32) -> Result<Job, Refusal>
        ensures is { result ≡ made_job arrival service }
        ensures counts { IfOk result (λ job. server_rules.is_item job) }
    {
        if arrival > CLOCK_END || service > SERVICE_LIMIT {
            return Err(Refusal::ItemLimit);
        }
        Ok(Job { arrival, service })
    }

    // Arrival and service.
    pub fn numbers(self) -> (u64, u32)
        ensures { result ≡ (self.arrival, self.service) }
    {
        (self.arrival, self.service)
    }
}
