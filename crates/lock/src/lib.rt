//! The receiver lock: its events, its states, and the maps that sum up stretches of events.
#![tactic(auto)]

mod events;
mod maps;
mod records;
mod states;

pub use events::LockEvent;
pub use maps::LockMap;
pub use states::LockState;
