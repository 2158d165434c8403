//! Numbers as a record, a journal's command and the desk spell them.

ghost use Rattle.std.specs.Prelude.{◌≡◌, ◌&&◌, ◌+◌, ◌*◌, ◌^◌, ◌<◌, Some, None, nat_lt, if◌then◌else◌};
ghost use Rattle.site_types.specs.Numbers.{all_digits, begins_as_number, number_of, value_after};

/// The number that a text spells: digits without sign, leading zero or anything else, below 2 to the 64th.
pub fn read_number(text: &[u8]) -> Option<u64>
    ensures { result ≡ number_of text.now }
{
    if has_number_start(text) {
        read_digits(text)
    } else {
        None
    }
}

fn has_number_start(text: &[u8]) -> bool
    ensures { result ≡ begins_as_number text.now }
{
    match text {
        [] => false,
        [_] => true,
        [first, ..] => *first != b'0',
    }
}

/// The number that these digits spell.
fn read_digits(text: &[u8]) -> Option<u64>
    ensures { result ≡ (if all_digits text.now && nat_lt (value_after 0 text.now) (2 ^ 64) then Some
        (value_after 0 text.now) else None) }
{
    let mut number: u64 = 0;
    for byte in text {
        if !byte.is_ascii_digit() {
            return None;
        }
        let digit = (*byte - b'0') as u64;
        number = next_number(number, digit)?;
    }
    Some(number)
}

/// The number with one more digit.
fn next_number(number: u64, digit: u64) -> Option<u64>
    requires { digit < 10 }
    ensures { result
        ≡ (if nat_lt (10 * number + digit) (2 ^ 64) then Some (10 * number + digit) else None) }
{
    number.checked_mul(10)?.checked_add(digit)
}
