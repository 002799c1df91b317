//! Blocks of 512 bytes that hold the records of one kind, or a note.
#![tactic(auto)]

mod check;
mod faults;
mod framing;
mod heads;
mod items;
mod layout;
mod notes;
mod pieces;
mod reading;

pub use check::check_of;
pub use faults::{BlockFault, WriteFault};
pub use items::write_items;
pub use layout::BLOCK_SIZE;
pub use notes::write_note;
pub use pieces::record_at;
pub use reading::{Block, read_block};
