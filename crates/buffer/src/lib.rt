//! The slotted buffer: its slots, its states, and the summaries of stretches of slots.
#![tactic(auto)]

mod locked;
mod records;
mod slots;
mod states;
mod summaries;

pub use slots::Slot;
pub use states::BufferState;
pub use summaries::BufferSummary;
