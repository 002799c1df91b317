ghost use Rattle.std.specs.Prelude.{length};
ghost use Rattle.block.specs.Layout.{held_note};
ghost use Rattle.block.specs.Writing.{text_fits, Writes};

use crate::faults::WriteFault;
use crate::framing::block_with;
use crate::heads::Head;
use crate::layout::{BLOCK_SIZE, CONTENT_SIZE};

// Writes the block of a note into the first 512 bytes of a memory.
pub fn write_note(text: &[u8], memory: &mut [u8]) -> Result<(), WriteFault>
    ensures { Writes (text_fits (length text.now)) (held_note text.now) memory.old memory.new result }
{
    // As `write_items` begins too, which says why.
    let size = memory.len();
    let front = memory
        .first_chunk_mut::<BLOCK_SIZE>()
        .ok_or(WriteFault::Memory(size))?;
    if text.len() > CONTENT_SIZE {
        return Err(WriteFault::Text);
    }
    *front = block_with(Head::Note(text.len()), text);
    Ok(())
}
