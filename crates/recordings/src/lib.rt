//! A recorded pass as an input of blocks: read one after another, and loaded into a run.
#![tactic(auto)]

mod blocks;
mod faults;
mod loads;
mod opening;

pub use blocks::Blocks;
pub use faults::{PassError, PassFault};
pub use loads::load_all;
pub use opening::{Opening, open_pass};
