//! Frame counts: what a receiver misses, sees twice or sees late, by a 14-bit count that wraps.
#![tactic(auto)]

mod frames;
mod records;
mod states;
mod summaries;
mod tallies;

pub use frames::FrameCount;
pub use states::CountState;
pub use summaries::CountSummary;
