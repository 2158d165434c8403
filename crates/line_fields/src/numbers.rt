//! The numbers that fields hold: digits without sign or leading zero.

ghost use Rattle.std.specs.Prelude.{◌≡◌, ◌^◌};
ghost use Rattle.line_fields.specs.Numbers.{is_number as is_numeral, number_below};

use site_types::read_number;

/// Whether a field is a number of 64 bits.
pub fn is_number(text: &[u8]) -> bool
    ensures { result ≡ is_numeral text.now }
{
    read_number(text).is_some()
}

/// The number of a field, if it is one of 8 bits.
pub fn read_octet(text: &[u8]) -> Option<u8>
    ensures { result ≡ number_below 256 text.now }
{
    match read_number(text) {
        Some(number) => {
            if number < 256 {
                Some(number as u8)
            } else {
                None
            }
        }
        None => None,
    }
}

/// The number of a field, if it is one of 32 bits.
pub fn read_count(text: &[u8]) -> Option<u32>
    ensures { result ≡ number_below (2 ^ 32) text.now }
{
    match read_number(text) {
        Some(number) => {
            if number <= u32::MAX as u64 {
                Some(number as u32)
            } else {
                None
            }
        }
        None => None,
    }
}
