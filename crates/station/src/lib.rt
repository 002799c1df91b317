//! Summaries that join, stations that step, two kinds side by side, and records: the interfaces of the simulator.
#![tactic(auto)]

mod kinds;
mod letters;
mod paired_records;
mod pairing;
mod records;
mod refusals;
mod summaries;

pub use kinds::Station;
pub use letters::{Letter, NoLetter};
pub use paired_records::RecordedWith;
pub use pairing::Pair;
pub use records::{RECORD_SIZE, RecordFault, Recorded, limited};
pub use refusals::Refusal;
pub use summaries::Summary;
