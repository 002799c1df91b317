ghost use Rattle.std.specs.Prelude.{◌≡◌, ◌∷◌};
ghost use Rattle.byte_fields.specs.Unused.{zeros};
ghost use Rattle.block.specs.Check.{check_of};
ghost use Rattle.block.specs.Layout.{block_of, held_records};
ghost use Rattle.station.specs.declared.letters.Letter.TheVariants.{C};

use crate::layout::CHECK_PLACE;

// The check of a block: 1 plus the sum of (i + 1) × byte i over the bytes in front of the check. For example, 83 is the
// check of the block of counts that holds the one count 1.
pub fn check_of(bytes: &[u8]) -> u32
    ensures is { result ≡ check_of bytes.now }
    ensures example { check_of (block_of (held_records C (1 ∷ zeros 15))) ≡ 83 }
{
    let front = &bytes[..bytes.len().min(CHECK_PLACE)];
    let mut sum: u32 = 1;
    for (i, byte) in front.iter().enumerate() {
        sum += (i as u32 + 1) * u32::from(*byte);
    }
    sum
}
