//! Readers of the forms that numbers and angles have. Each gives the text after its form, if it is there.
ghost use Rattle.std.specs.Prelude.{◌≡◌, option_map};
ghost use Rattle.ags_cells.specs.Readers as read;

use crate::part::{
    after_digits, after_exponent, after_fraction, after_mark, after_places, after_sign,
    after_some_digits, after_two_digits,
};

/// The text after a number with that many places.
#[tactic(auto, unfolding(crate::specs::Readers::after_decimal))]
pub(crate) fn after_decimal(text: &[u8], places: u8) -> Option<&[u8]>
    ensures { option_map (λ r. r.now) result ≡ read.after_decimal places text.now }
{
    after_places(after_some_digits(after_sign(text))?, places)
}

/// The text after a number with or without a fraction.
#[tactic(auto, unfolding(crate::specs::Readers::after_moisture))]
pub(crate) fn after_moisture(text: &[u8]) -> Option<&[u8]>
    ensures { option_map (λ r. r.now) result ≡ read.after_moisture text.now }
{
    after_fraction(after_some_digits(after_sign(text))?)
}

/// The text after a number with or without a fraction and an exponent.
#[tactic(auto, unfolding(crate::specs::Readers::after_significant))]
pub(crate) fn after_significant(text: &[u8]) -> Option<&[u8]>
    ensures { option_map (λ r. r.now) result ≡ read.after_significant text.now }
{
    let rest = after_fraction(after_some_digits(after_sign(text))?)?;
    if rest.is_empty() {
        return Some(rest);
    }
    after_exponent(rest)
}

/// The text after a number with one digit before its point, that many places and an exponent.
#[tactic(auto, unfolding(crate::specs::Readers::after_scientific))]
pub(crate) fn after_scientific(text: &[u8], places: u8) -> Option<&[u8]>
    ensures { option_map (λ r. r.now) result ≡ read.after_scientific places text.now }
{
    let rest = after_digits(after_sign(text), 1, 1)?;
    after_exponent(after_places(rest, places)?)
}

/// The text after a colon and `00` to `59`.
#[tactic(auto, unfolding(crate::specs::Readers::after_sixtieth))]
pub(crate) fn after_sixtieth(text: &[u8]) -> Option<&[u8]>
    ensures { option_map (λ r. r.now) result ≡ read.after_sixtieth text.now }
{
    after_two_digits(after_mark(text, b':')?, 0, 59)
}

/// The text after degrees, minutes and seconds.
#[tactic(auto, unfolding(crate::specs::Readers::after_angle))]
pub(crate) fn after_angle(text: &[u8]) -> Option<&[u8]>
    ensures { option_map (λ r. r.now) result ≡ read.after_angle text.now }
{
    let minutes = after_digits(after_sign(text), 1, 3)?;
    let seconds = after_sixtieth(minutes)?;
    after_fraction(after_sixtieth(seconds)?)
}
