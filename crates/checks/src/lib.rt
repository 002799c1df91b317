//! Tests over all kinds, and two kinds that the library does not know.
#![tactic(auto)]

mod readings;
mod visits;

pub use readings::{Peak, PeakSummary, Reading};
pub use visits::{Visit, VisitSummary, Visits};

#[cfg(test)]
mod bytes;
#[cfg(test)]
mod damaged_blocks;
#[cfg(test)]
mod foreign_kinds;
#[cfg(test)]
mod limits;
#[cfg(test)]
mod long_traces;
#[cfg(test)]
mod record_limits;
#[cfg(test)]
mod wrapped_tallies;
