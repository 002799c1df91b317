ghost use Rattle.std.specs.Prelude.{◌≡◌, ◌-◌, ◌*◌, ◌≤◌, ◌++◌, length};
ghost use Rattle.std.specs.List.{flat_map};
ghost use Rattle.byte_fields.specs.Unused.{zeros};
ghost use Rattle.block.specs.Layout.{held_records};
ghost use Rattle.block.specs.Writing.{items_fit, Writes};

use crate::faults::WriteFault;
use crate::framing::{block_with, put};
use crate::heads::Head;
use crate::layout::{BLOCK_SIZE, CONTENT_SIZE, MOST_RECORDS};
use station::{RECORD_SIZE, Recorded};

// The records of some items, one behind another, with zeros behind them.
fn lay_items<K: Recorded>(items: &[K::Item]) -> [u8; CONTENT_SIZE]
    requires { length items.now ≤ 31 }
    ensures size { length (flat_map K.Recorded.records.written items.now) ≡ 16 * length items.now }
    ensures content { result ≡ flat_map K.Recorded.records.written items.now ++ zeros (496 - 16 * length items.now) }
{
    // Of fixed size, since nothing here allocates; how much of it is used follows from the head.
    let mut content = [0u8; CONTENT_SIZE];
    // By number: of `as_chunks_mut` the library does not say what the content ends as.
    for (index, item) in items.iter().enumerate() {
        put(&mut content, RECORD_SIZE * index, &K::write(*item));
    }
    content
}

// Writes the block of some items of a kind into the first 512 bytes of a memory.
pub fn write_items<K: Recorded>(items: &[K::Item], memory: &mut [u8]) -> Result<(), WriteFault>
    ensures { Writes (items_fit (length items.now)) (held_records K.Recorded.records.letter (flat_map K.Recorded.records.written items.now)) memory.old memory.new result }
{
    // As `write_note` begins too: a function that lends the part would be no shorter.
    let size = memory.len();
    let front = memory
        .first_chunk_mut::<BLOCK_SIZE>()
        .ok_or(WriteFault::Memory(size))?;
    if items.len() > MOST_RECORDS {
        return Err(WriteFault::Items);
    }
    let head = Head::Data(K::letter(), items.len());
    let content = lay_items::<K>(items);
    *front = block_with(head, &content[..head.content_size()]);
    Ok(())
}
