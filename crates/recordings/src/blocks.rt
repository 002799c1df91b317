ghost use Rattle.std.specs.Prelude.{◌≤◌};

use block::BLOCK_SIZE;

// The blocks of an input, one at hand at a time. Only the last of an input can be short, and is then no block.
#[derive(Drop)]
pub struct Blocks<R> {
    input: R,
    // As much of it as is filled is at hand. Of fixed size, since nothing here allocates.
    block: [u8; BLOCK_SIZE],
    filled: usize,
    // How many blocks have been at hand.
    count: u64,
    ghost within: { filled ≤ 512 },
}

mod filling;
mod reading;

pub(crate) use filling::endless;
