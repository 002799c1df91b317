//! A run: a recorded pass over given cells, in which an edit joins anew only what it touches.
#![tactic(auto)]

mod run;
mod tickets;

pub use run::Run;
pub use tickets::{Ticket, Unsettled};
