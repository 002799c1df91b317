//! Two servers in tandem.
#![tactic(auto)]

mod counted;
mod jobs;
mod records;
mod states;
mod summaries;

pub use jobs::TandemJob;
pub use states::TandemState;
pub use summaries::TandemSummary;
