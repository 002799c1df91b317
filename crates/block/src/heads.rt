ghost use Rattle.std.specs.Prelude.{◌≡◌, ◌≤◌, length, IfOk};
ghost use Rattle.block.specs.Heads.{content_size, head_bytes, head_of};

use crate::faults::BlockFault;
use crate::layout::{
    CONTENT_SIZE, COUNT_PLACE, GAP_PLACE, LENGTH_PLACE, LETTER_PLACE, MOST_RECORDS, NOTE,
};
use byte_fields::{put_number, read_number};
use station::{Letter, RECORD_SIZE};

// What the first four bytes announce: so many records of a kind, or so long a text. That it is at most 496 bytes stands in
// contracts, since an enum has no ghost field.
#[derive(Clone, Copy)]
pub(crate) enum Head {
    Data(Letter, usize),
    Note(usize),
}

impl Head {
    // The bytes that the records or the text take.
    pub(crate) fn content_size(self) -> usize
        requires { content_size self ≤ 496 }
        ensures { result ≡ content_size self }
    {
        match self {
            Head::Data(_, count) => RECORD_SIZE * count,
            Head::Note(text_size) => text_size,
        }
    }

    // The four bytes that announce it.
    pub(crate) fn bytes(self) -> [u8; 4]
        requires { content_size self ≤ 496 }
        ensures { result ≡ head_bytes self }
    {
        match self {
            Head::Data(letter, count) => [u8::from(letter), count as u8, 0, 0],
            Head::Note(text_size) => put_number(
                [NOTE, 0, 0, 0],
                LENGTH_PLACE..GAP_PLACE,
                text_size as u64,
            ),
        }
    }

    // The head of a block, from byte 0 on.
    pub(crate) fn read(bytes: &[u8]) -> Result<Head, BlockFault>
        requires { 4 ≤ length bytes.now }
        ensures is { result ≡ head_of bytes.now }
        ensures room { IfOk result (λ head. content_size head ≤ 496) }
    {
        let count = usize::from(bytes[COUNT_PLACE]);
        let text_size = read_number(&bytes[LENGTH_PLACE..GAP_PLACE]) as usize;
        if bytes[LETTER_PLACE] == NOTE {
            if count != 0 {
                return Err(BlockFault::Layout(COUNT_PLACE));
            }
            if text_size > CONTENT_SIZE {
                return Err(BlockFault::Layout(LENGTH_PLACE));
            }
            return Ok(Head::Note(text_size));
        }
        let letter = Letter::try_from(bytes[LETTER_PLACE]).map_err(|_| BlockFault::Layout(
            LETTER_PLACE,
        ))?;
        if count > MOST_RECORDS {
            return Err(BlockFault::Layout(COUNT_PLACE));
        }
        if text_size != 0 {
            return Err(BlockFault::Layout(LENGTH_PLACE));
        }
        Ok(Head::Data(letter, count))
    }
}
