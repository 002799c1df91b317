//! Fields of bytes: numbers with their lowest byte first, and bytes that must be zero.
#![tactic(auto)]

mod numbers;
mod records;
mod unused;

pub use numbers::{read_number, write_number};
pub use records::put_number;
pub use unused::{UsedByte, check_unused, first_used};
