//! Reports on runs of one particular kind.
#![tactic(auto)]

mod balance;

pub use balance::count_report;
