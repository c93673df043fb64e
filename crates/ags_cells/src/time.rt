//! Readers of dates, times of day and lengths of time.
ghost use Rattle.std.specs.Prelude.{◌≡◌, ◌↔◌, ◌<◌, IsTrue, option_map};
ghost use Rattle.ags_cells.specs.Parts.{DigitsOf, TwoDigits};
ghost use Rattle.ags_cells.specs.Times.{FitsUnit};
ghost use Rattle.ags_cells.specs.Readers as read;

use crate::number::after_sixtieth;
use crate::part::{after_digits, after_mark, after_two_digits, is_whole, read_two};
use crate::time_unit::TimeUnit;
use jiff::civil::Date;

/// Whether the text fits type DT under the unit.
pub(crate) fn fits_date_time(unit: &[u8], text: &[u8]) -> bool
    ensures { IsTrue result ↔ FitsUnit (TwoDigits 0 23) unit.now text.now }
{
    match TimeUnit::of(unit) {
        TimeUnit::Minutes => is_whole(after_clock_minutes(text)),
        TimeUnit::Seconds => is_whole(after_clock_seconds(text)),
        other => fits_dated(other, text),
    }
}

/// The text after `hh:mm` of a day.
#[tactic(auto, unfolding(crate::specs::Readers::after_clock_minutes))]
fn after_clock_minutes(text: &[u8]) -> Option<&[u8]>
    ensures { option_map (λ r. r.now) result ≡ read.after_clock_minutes text.now }
{
    after_sixtieth(after_two_digits(text, 0, 23)?)
}

/// The text after `hh:mm:ss` of a day.
#[tactic(auto, unfolding(crate::specs::Readers::after_clock_seconds))]
fn after_clock_seconds(text: &[u8]) -> Option<&[u8]>
    ensures { option_map (λ r. r.now) result ≡ read.after_clock_seconds text.now }
{
    after_sixtieth(after_sixtieth(after_two_digits(text, 0, 23)?)?)
}

/// Whether the text fits a unit that has a date, or one that has no form.
fn fits_dated(unit: TimeUnit, text: &[u8]) -> bool
    ensures { result ≡ read.fits_dated unit text.now }
{
    match unit {
        TimeUnit::Year => is_whole(after_digits(text, 4, 4)),
        TimeUnit::Month => is_whole(after_month(text)),
        TimeUnit::Day => is_whole(after_day(text)),
        TimeUnit::DayMinutes => is_whole(after_day_minutes(text)),
        TimeUnit::DaySeconds => is_whole(after_day_seconds(text)),
        TimeUnit::Minutes | TimeUnit::Seconds | TimeUnit::Other => true,
    }
}

/// The text after a year and a month.
#[tactic(auto, unfolding(crate::specs::Readers::after_month))]
fn after_month(text: &[u8]) -> Option<&[u8]>
    ensures { option_map (λ r. r.now) result ≡ read.after_month text.now }
{
    let rest = after_digits(text, 4, 4)?;
    after_two_digits(after_mark(rest, b'-')?, 1, 12)
}

/// The text after a day that the calendar has.
#[tactic(auto, unfolding(crate::specs::Readers::after_day))]
fn after_day(text: &[u8]) -> Option<&[u8]>
    ensures { option_map (λ r. r.now) result ≡ read.after_day text.now }
{
    let (century, rest) = read_two(text)?;
    let (year, rest) = read_two(rest)?;
    let (month, rest) = read_two(after_mark(rest, b'-')?)?;
    let (day, rest) = read_two(after_mark(rest, b'-')?)?;
    let year = 100 * u16::from(century) + u16::from(year);
    if has_day(year, month, day) {
        Some(rest)
    } else {
        None
    }
}

/// Whether the Gregorian calendar has the day.
fn has_day(year: u16, month: u8, day: u8) -> bool
    requires year_in { year < 10000 }
    requires month_in { month < 100 }
    requires day_in { day < 100 }
    ensures { result ≡ read.has_day year month day }
{
    Date::new(year as i16, month as i8, day as i8).is_ok()
}

/// The text after a day and, if anything follows it, `T` and `hh:mm`.
#[tactic(auto, unfolding(crate::specs::Readers::after_day_minutes))]
fn after_day_minutes(text: &[u8]) -> Option<&[u8]>
    ensures { option_map (λ r. r.now) result ≡ read.after_day_minutes text.now }
{
    let minutes = after_day(text)?;
    if minutes.is_empty() {
        return Some(minutes);
    }
    after_time_minutes(minutes)
}

/// The text after `T` and `hh:mm`.
#[tactic(auto, unfolding(crate::specs::Readers::after_time_minutes))]
fn after_time_minutes(text: &[u8]) -> Option<&[u8]>
    ensures { option_map (λ r. r.now) result ≡ read.after_time_minutes text.now }
{
    after_clock_minutes(after_mark(text, b'T')?)
}

/// The text after a day and, if anything follows it, `T` and `hh:mm:ss`.
#[tactic(auto, unfolding(crate::specs::Readers::after_day_seconds))]
fn after_day_seconds(text: &[u8]) -> Option<&[u8]>
    ensures { option_map (λ r. r.now) result ≡ read.after_day_seconds text.now }
{
    let seconds = after_day(text)?;
    if seconds.is_empty() {
        return Some(seconds);
    }
    after_time_seconds(seconds)
}

/// The text after `T` and `hh:mm:ss`.
#[tactic(auto, unfolding(crate::specs::Readers::after_time_seconds))]
fn after_time_seconds(text: &[u8]) -> Option<&[u8]>
    ensures { option_map (λ r. r.now) result ≡ read.after_time_seconds text.now }
{
    after_clock_seconds(after_mark(text, b'T')?)
}

/// Whether the text fits type T under the unit.
pub(crate) fn fits_elapsed_time(unit: &[u8], text: &[u8]) -> bool
    ensures { IsTrue result ↔ FitsUnit (DigitsOf 2 4) unit.now text.now }
{
    match TimeUnit::of(unit) {
        TimeUnit::Minutes => is_whole(after_elapsed_minutes(text)),
        TimeUnit::Seconds => is_whole(after_elapsed_seconds(text)),
        other => fits_dated(other, text),
    }
}

/// The text after `hh:mm` of a length of time.
#[tactic(auto, unfolding(crate::specs::Readers::after_elapsed_minutes))]
fn after_elapsed_minutes(text: &[u8]) -> Option<&[u8]>
    ensures { option_map (λ r. r.now) result ≡ read.after_elapsed_minutes text.now }
{
    after_sixtieth(after_digits(text, 2, 4)?)
}

/// The text after `hh:mm:ss` of a length of time.
#[tactic(auto, unfolding(crate::specs::Readers::after_elapsed_seconds))]
fn after_elapsed_seconds(text: &[u8]) -> Option<&[u8]>
    ensures { option_map (λ r. r.now) result ≡ read.after_elapsed_seconds text.now }
{
    after_sixtieth(after_sixtieth(after_digits(text, 2, 4)?)?)
}
