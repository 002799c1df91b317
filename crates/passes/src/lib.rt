//! The report on a recorded pass: the state behind each of its entries, or the fault that breaks it off.
#![tactic(auto)]

mod reporting;
mod states;
mod texts;

pub use reporting::report;
