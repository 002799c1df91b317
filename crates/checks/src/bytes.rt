// The bytes with one changed, if there is one at the place.
pub fn with_byte<const N: usize>(mut bytes: [u8; N], place: usize, byte: u8) -> [u8; N] {
    if let Some(old) = bytes.get_mut(place) {
        *old = byte;
    }
    bytes
}
