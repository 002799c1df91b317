// A block is 512 bytes. Byte 0 is a kind's letter or a note's, byte 1 the number of records, bytes 2 and 3 the length of
// a note's text. From byte 12 on stand the records or the text, from byte 508 on the check, and every other byte is 0.
pub const BLOCK_SIZE: usize = 512;

pub(crate) const NOTE: u8 = b'N';

// Where the parts begin.
pub(crate) const LETTER_PLACE: usize = 0;

pub(crate) const COUNT_PLACE: usize = 1;

pub(crate) const LENGTH_PLACE: usize = 2;

pub(crate) const GAP_PLACE: usize = 4;

pub(crate) const CONTENT_PLACE: usize = 12;

pub(crate) const CHECK_PLACE: usize = 508;

// The bytes between content and check, for records and for text.
pub(crate) const CONTENT_SIZE: usize = 496;

pub(crate) const MOST_RECORDS: usize = 31;
