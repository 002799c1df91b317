ghost use Rattle.std.specs.Prelude.{◌≡◌, length, IfOk};
ghost use Rattle.block.specs.Layout.{IsBlock};
ghost use Rattle.block.specs.Reading.{held, held_in, laid_of, read_of};

use crate::check::check_of;
use crate::faults::BlockFault;
use crate::heads::Head;
use crate::layout::{BLOCK_SIZE, CHECK_PLACE, CONTENT_PLACE, GAP_PLACE};
use byte_fields::{check_unused, read_number};
use station::Letter;

// What a block holds: the bytes of a kind's records, or those of a note's text, as a part of the block.
#[derive(Clone, Copy)]
pub enum Block<'a> {
    Data { letter: Letter, records: &'a [u8] },
    Note(&'a [u8]),
}

// The layout, from byte 0 on, and what the block holds.
fn read_laid(bytes: &[u8]) -> Result<Block<'_>, BlockFault>
    requires { length bytes.now ≡ 512 }
    ensures { held result ≡ laid_of bytes.now }
{
    let head = Head::read(bytes)?;
    let end = CONTENT_PLACE + head.content_size();
    check_unused(bytes, GAP_PLACE..CONTENT_PLACE)?;
    check_unused(bytes, end..CHECK_PLACE)?;
    let content = &bytes[CONTENT_PLACE..end];
    Ok(match head {
        Head::Data(letter, _) => Block::Data {
            letter,
            records: content,
        },
        Head::Note(_) => Block::Note(content),
    })
}

// Reads a block: its length, then its check, then its layout. Bytes are read only if they are what a writer makes of what
// is read.
pub fn read_block(bytes: &[u8]) -> Result<Block<'_>, BlockFault>
    ensures is { held result ≡ read_of bytes.now }
    ensures only { IfOk result (λ block. IsBlock bytes.now (held_in block)) }
{
    if bytes.len() != BLOCK_SIZE {
        return Err(BlockFault::Length(bytes.len()));
    }
    let check = read_number(&bytes[CHECK_PLACE..BLOCK_SIZE]);
    if check != u64::from(check_of(bytes)) {
        return Err(BlockFault::Check);
    }
    read_laid(bytes)
}
