ghost use Rattle.std.specs.Prelude.{◌≡◌, IfOk};
ghost use Rattle.tandem.specs.Tandem.{made_tandem_job, tandem_rules};

use server::{CLOCK_END, SERVICE_LIMIT};
use station::Refusal;

// A frame for two servers in tandem: when it arrives, and how long the first and the second serve it.
#[derive(Clone, Copy, PartialEq, Eq, Debug)]
pub struct TandemJob {
    pub(crate) arrival: u64,
    pub(crate) first: u32,
    pub(crate) second: u32,
}

impl TandemJob {
    pub fn new(arrival: u64, first: u32, second: u32) -> Result<TandemJob, Refusal>
        ensures is { result ≡ made_tandem_job arrival first second }
        ensures counts { IfOk result (λ job. tandem_rules.is_item job) }
    {
        if arrival > CLOCK_END || first > SERVICE_LIMIT || second > SERVICE_LIMIT {
            return Err(Refusal::ItemLimit);
        }
        Ok(TandemJob {
            arrival,
            first,
            second,
        })
    }

    // Arrival, first and second service.
    pub fn numbers(self) -> (u64, u32, u32)
        ensures { result ≡ (self.arrival, self.first, self.second) }
    {
        (self.arrival, self.first, self.second)
    }
}
