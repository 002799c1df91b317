ghost use Rattle.std.specs.Prelude.{◌≡◌, ◌+◌, ◌≤◌, length};
ghost use Rattle.std.proofs.Math.Seq.{paste};
ghost use Rattle.block.specs.Heads.{content_size};
ghost use Rattle.block.specs.Layout.{framed};

use crate::check::check_of;
use crate::heads::Head;
use crate::layout::{BLOCK_SIZE, CHECK_PLACE, CONTENT_PLACE, LETTER_PLACE};
use byte_fields::put_number;

// Copies a part into some bytes, from a place on.
pub(crate) fn put(bytes: &mut [u8], at: usize, part: &[u8])
    requires { at + length part.now ≤ length bytes.old }
    ensures { bytes.new ≡ paste bytes.old at part.now (length part.now) }
{
    let end = at + part.len();
    bytes[at..end].copy_from_slice(part);
}

// The block with a head and the content that the head announces.
pub(crate) fn block_with(head: Head, content: &[u8]) -> [u8; BLOCK_SIZE]
    requires announced { length content.now ≡ content_size head }
    requires room { content_size head ≤ 496 }
    ensures { result ≡ framed head content.now }
{
    let mut block = [0u8; BLOCK_SIZE];
    put(&mut block, LETTER_PLACE, &head.bytes());
    put(&mut block, CONTENT_PLACE, content);
    let check = u64::from(check_of(&block));
    put_number(block, CHECK_PLACE..BLOCK_SIZE, check)
}
