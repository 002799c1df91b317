ghost use Rattle.std.specs.Prelude.{◌≡◌, ◌^◌, ◌<◌, ◌≤◌, length, take};
ghost use Rattle.byte_fields.specs.Numbers.{digits, numeral};

// The bytes of the widest number.
const WIDEST: usize = 8;

// The number that a field writes, lowest byte first. Of a field that is too wide the first 8 bytes count.
pub fn read_number(field: &[u8]) -> u64
    ensures is { result ≡ numeral (take 8 field.now) }
    ensures narrow { length field.now ≤ 8 → result ≡ numeral field.now }
    ensures below { length field.now ≤ 8 → result < 256 ^ length field.now }
    ensures back { length field.now ≤ 8 → digits (length field.now) result ≡ field.now }
{
    let width = field.len().min(WIDEST);
    let mut wide = [0u8; WIDEST];
    wide[0..width].copy_from_slice(&field[0..width]);
    u64::from_le_bytes(wide)
}

// Fills a field with the digits of a number to the base 256, lowest first, and with zeros behind them. A field that is
// too narrow takes the lowest digits.
pub fn write_number(number: u64, field: &mut [u8])
    ensures is { field.new ≡ digits (length field.old) number }
    ensures back { number < 256 ^ length field.old → numeral field.new ≡ number }
{
    // Digit by digit, since a field may be wider than the bytes of a number.
    let mut rest = number;
    for place in field.iter_mut() {
        *place = (rest % 256) as u8;
        rest /= 256;
    }
}
