//! Numbers in texts.
ghost use Rattle.std.specs.Prelude.{◌≡◌, ◌≤◌, ◌<◌, ◌^◌, true, length};
ghost use Rattle.std.specs.List.{list_all};
ghost use Rattle.std.specs.Char.{is_ascii_digit};
ghost use Rattle.reg_policy.specs.Days.{number_in};
ghost use Rattle.reg_request.specs.Numbers.{begins_with_zero, deposit_number, is_number};

use ags_text::is_within;

/// The number of a deposit that a text writes: 1 to 6 digits, the first of them no zero.
pub fn number_of_deposit(text: &[u8]) -> Option<u32>
    ensures { result ≡ deposit_number text.now }
{
    if !is_number(text, 6) || begins_with_zero(text) {
        return None;
    }
    Some(number_from_digits(text) as u32)
}

fn begins_with_zero(text: &[u8]) -> bool
    ensures { result ≡ begins_with_zero text.now }
{
    match text.first() {
        Some(b) => *b == b'0',
        None => false,
    }
}

/// Whether the text is digits, at least one and at most so many.
pub fn is_number(text: &[u8], most: usize) -> bool
    ensures { result ≡ is_number most text.now }
{
    is_within(text, most) && has_digits(text)
}

fn has_digits(text: &[u8]) -> bool
    ensures { result ≡ list_all is_ascii_digit text.now }
{
    text.iter().all(|b| b.is_ascii_digit())
}

/// The number that the digits write.
pub fn number_from_digits(text: &[u8]) -> u64
    requires few { length text.now ≤ 10 }
    requires digits { list_all is_ascii_digit text.now ≡ true }
    ensures value { result ≡ number_in text.now }
    ensures small { result < 10 ^ length text.now }
{
    let mut number: u64 = 0;
    for b in text {
        number = 10 * number + u64::from(*b - b'0');
    }
    number
}
