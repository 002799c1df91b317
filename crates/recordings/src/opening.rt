ghost use Rattle.std.specs.Prelude.{◌≡◌, IfSome};
ghost use Rattle.recordings.specs.Hand.{at_hand, read_count, unread};
ghost use Rattle.recordings.specs.Input.{blocks_of};
ghost use Rattle.recordings.specs.Opening.{kind_of, kind_at, BeginsAll, BeginsBehindNotes, NumberedFrom};

use crate::blocks::{Blocks, endless};
use crate::faults::{PassError, PassFault};
use block::{Block, BlockFault, read_block};
use loading::{LoadCause, LoadFault};
use station::Letter;
use std::io::Read;

// The first data block of a pass: the letter of its kind, and its number, from 0 on with the notes.
#[derive(Clone, Copy)]
pub struct Opening {
    pub letter: Letter,
    pub index: u64,
}

// The letter of a data block, none for a note.
fn kind_of(bytes: &[u8]) -> Result<Option<Letter>, BlockFault>
    ensures { result ≡ kind_of bytes.now }
{
    match read_block(bytes)? {
        Block::Data { letter, records: _ } => Ok(Some(letter)),
        Block::Note(_) => Ok(None),
    }
}

// The same of a block with a number.
fn kind_at(index: u64, bytes: &[u8]) -> Result<Option<Letter>, PassFault>
    ensures { result ≡ kind_at index bytes.now }
{
    kind_of(bytes).map_err(|fault| PassFault {
        index,
        fault: LoadFault {
            cause: LoadCause::Block(fault),
            length: 0,
        },
    })
}

// Passes over the notes in front. Answers the first data block, which stays at hand, or that there is none. Blocks are
// numbered from the call on.
pub fn open_pass<R: Read>(blocks: &mut Blocks<R>) -> Result<Option<Opening>, PassError>
    ensures begins { BeginsBehindNotes (read_count blocks.old) (read_count blocks.new) (at_hand blocks.new) result }
    ensures numbered { NumberedFrom (read_count blocks.old) (read_count blocks.new) result }
    ensures known { IfSome (unread R.remaining blocks.old) (λ bytes. BeginsAll (blocks_of bytes) (read_count blocks.old) (read_count blocks.new) (at_hand blocks.new) (unread R.remaining blocks.new) result) }
{
    for index in 0..u64::MAX {
        if !blocks.advance()? {
            return Ok(None);
        }
        if let Some(letter) = kind_at(index, blocks.block())? {
            return Ok(Some(Opening { letter, index }));
        }
    }
    Err(PassError::Input(endless()))
}
