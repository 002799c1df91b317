//! Replay and joining: the calls that are one text for every kind of station.
#![tactic(auto)]

mod entries;
mod joining;
mod replaying;
mod spreading;
mod summarizing;

pub use entries::{Entry, entry_summary};
pub use joining::{gather, prefix};
pub use replaying::replay;
pub use spreading::spread;
pub use summarizing::summarize;
