//! What a block brings to a run of one kind, and the faults of loading it.
#![tactic(auto)]

mod faults;
mod records;

pub use faults::{LoadCause, LoadFault, Lower, RecordsFault};
pub use records::read_records;
