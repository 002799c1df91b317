//! A tree of joins over given cells: a write joins anew only the cells above it, and a range is joined from few cells.
#![tactic(auto)]

mod capacity;
mod emptying;
mod leaves;
mod placing;
mod rejoining;
mod stretching;
mod trying;

pub use capacity::capacity_of;
pub use emptying::empty_cells;
pub use leaves::{clear_leaves, write_leaf};
pub use rejoining::rejoin_leaves;
pub use stretching::join_leaves;
pub use trying::{release_leaf, restore_leaf, try_leaf};
