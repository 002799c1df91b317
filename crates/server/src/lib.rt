//! The clock, and one server on it.
#![tactic(auto)]

mod clock;
mod jobs;
mod records;
mod states;
mod summaries;

pub use clock::{CLOCK_END, SERVICE_LIMIT, capped_sum};
pub use jobs::Job;
pub use states::ServerState;
pub use summaries::ServerSummary;
