//! Readers of the parts that entries are joined from. Each gives the text after its part, if the part is there.
ghost use Rattle.std.specs.Prelude.{◌≡◌, ◌<◌, ◌≤◌, length, option_map, IfSome};
ghost use Rattle.std.specs.Char.{is_ascii_digit};
ghost use Rattle.std.specs.List.{prefix_len};
ghost use Rattle.ags_cells.specs.Readers as read;
ghost use Rattle.ags_cells.specs.Readers.{then_rest, is_empty};

/// The text after its sign, if it has one.
#[tactic(auto, unfolding(crate::specs::Readers::after_sign))]
pub(crate) fn after_sign(text: &[u8]) -> &[u8]
    ensures { result.now ≡ read.after_sign text.now }
{
    match text {
        [b'+' | b'-', rest @ ..] => rest,
        _ => text,
    }
}

/// The text after that byte.
#[tactic(auto, unfolding(crate::specs::Readers::after_mark))]
pub(crate) fn after_mark(text: &[u8], mark: u8) -> Option<&[u8]>
    ensures { option_map (λ r. r.now) result ≡ read.after_mark mark text.now }
{
    match text {
        [c, rest @ ..] if *c == mark => Some(rest),
        _ => None,
    }
}

/// The text after all its digits, if there are from `low` to `high` of them.
#[tactic(auto, unfolding(crate::specs::Readers::after_digits))]
pub(crate) fn after_digits(text: &[u8], low: usize, high: usize) -> Option<&[u8]>
    ensures { option_map (λ r. r.now) result ≡ read.after_digits low high text.now }
{
    let count = digit_count(text);
    if low <= count && count <= high {
        Some(&text[count..])
    } else {
        None
    }
}

/// How many digits the text begins with.
fn digit_count(text: &[u8]) -> usize
    ensures count { result ≡ prefix_len is_ascii_digit text.now }
    ensures within { result ≤ length text.now }
{
    text.iter().take_while(|c| c.is_ascii_digit()).count()
}

/// The text after its digits, of which there is one or more.
#[tactic(auto, unfolding(crate::specs::Readers::after_some_digits))]
pub(crate) fn after_some_digits(text: &[u8]) -> Option<&[u8]>
    ensures { option_map (λ r. r.now) result ≡ read.after_some_digits text.now }
{
    after_digits(text, 1, text.len())
}

/// The text after a point and digits, or all of it where it does not begin with a point.
#[tactic(auto, unfolding(crate::specs::Readers::after_fraction))]
pub(crate) fn after_fraction(text: &[u8]) -> Option<&[u8]>
    ensures { option_map (λ r. r.now) result ≡ read.after_fraction text.now }
{
    match after_mark(text, b'.') {
        Some(rest) => after_some_digits(rest),
        None => Some(text),
    }
}

/// The text after a point and that many digits, or all of it for no digits.
#[tactic(auto, unfolding(crate::specs::Readers::after_places))]
pub(crate) fn after_places(text: &[u8], places: u8) -> Option<&[u8]>
    ensures { option_map (λ r. r.now) result ≡ read.after_places places text.now }
{
    if places == 0 {
        return Some(text);
    }
    let count = usize::from(places);
    after_digits(after_mark(text, b'.')?, count, count)
}

/// The text after an exponent: `E` or `e`, a sign if there is one, and 1 to 3 digits.
#[tactic(auto, unfolding(crate::specs::Readers::after_exponent))]
pub(crate) fn after_exponent(text: &[u8]) -> Option<&[u8]>
    ensures { option_map (λ r. r.now) result ≡ read.after_exponent text.now }
{
    after_digits(after_sign(after_exponent_mark(text)?), 1, 3)
}

/// The text after `E` or `e`.
#[tactic(auto, unfolding(crate::specs::Readers::after_exponent_mark))]
fn after_exponent_mark(text: &[u8]) -> Option<&[u8]>
    ensures { option_map (λ r. r.now) result ≡ read.after_exponent_mark text.now }
{
    match text {
        [b'E' | b'e', rest @ ..] => Some(rest),
        _ => None,
    }
}

/// The number that two digits write, and the text after them.
#[tactic(auto, unfolding(crate::specs::Readers::read_two))]
pub(crate) fn read_two(text: &[u8]) -> Option<(u8, &[u8])>
    ensures value { option_map (λ r. (r.0, r.1.now)) result ≡ read.read_two text.now }
    ensures small { IfSome result (λ r. r.0 < 100) }
{
    match text {
        [tens @ b'0'..=b'9', ones @ b'0'..=b'9', rest @ ..] => {
            Some((10 * (*tens - b'0') + (*ones - b'0'), rest))
        }
        _ => None,
    }
}

/// The text after two digits of a number from `low` to `high`.
#[tactic(auto, unfolding(crate::specs::Readers::after_two_digits))]
pub(crate) fn after_two_digits(text: &[u8], low: u8, high: u8) -> Option<&[u8]>
    ensures { option_map (λ r. r.now) result ≡ read.after_two_digits low high text.now }
{
    let (number, rest) = read_two(text)?;
    if low <= number && number <= high {
        Some(rest)
    } else {
        None
    }
}

/// Whether a reader reached the end of its text.
pub(crate) fn is_whole(rest: Option<&[u8]>) -> bool
    ensures { result ≡ then_rest (option_map (λ r. r.now) rest.entry) is_empty }
{
    rest.is_some_and(|r| r.is_empty())
}
