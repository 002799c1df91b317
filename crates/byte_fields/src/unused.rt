ghost use Rattle.std.specs.Prelude.{◌≡◌};
ghost use Rattle.byte_fields.specs.Unused.{first_used, unused_between, Lowest};

use std::ops::Range;

// The lowest place with a byte that is not 0.
pub fn first_used(bytes: &[u8]) -> Option<usize>
    ensures is { result ≡ first_used bytes.now }
    ensures lowest { Lowest bytes.now result }
{
    bytes.iter().position(|byte| *byte != 0)
}

// A byte that must be zero and is not, by its place.
#[derive(Clone, Copy, PartialEq, Eq, Debug)]
pub struct UsedByte {
    pub place: usize,
}

// Refuses bytes that are not all 0 from one place up to another, at the lowest that is not. Places that are turned or lie
// outside hold no byte.
pub fn check_unused(bytes: &[u8], places: Range<usize>) -> Result<(), UsedByte>
    ensures { result ≡ unused_between places.start places.end bytes.now }
{
    let start = places.start;
    let end = places.end.min(bytes.len());
    // By hand, since `ok_or` makes an error of none, and here some is the error.
    match bytes.get(start..end).and_then(first_used) {
        Some(offset) => Err(UsedByte {
            place: start + offset,
        }),
        None => Ok(()),
    }
}
