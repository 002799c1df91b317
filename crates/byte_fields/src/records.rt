ghost use Rattle.std.specs.Prelude.{◌≡◌};
ghost use Rattle.byte_fields.specs.Numbers.{with_field};

use crate::numbers::write_number;
use std::ops::Range;

// Some bytes with a number in the places of a field; there is no such field where the places are turned or lie outside.
pub fn put_number<const N: usize>(bytes: [u8; N], places: Range<usize>, number: u64) -> [u8; N]
    ensures { result ≡ with_field places.start places.end number bytes.entry }
{
    let mut bytes = bytes;
    let all = &mut bytes[..];
    if places.start <= places.end && places.end <= N {
        write_number(number, &mut all[places]);
    }
    bytes
}
