//! Days from 1970-01-01 to 9999-12-31.
ghost use Rattle.std.specs.Prelude.{◌≡◌, ◌≢◌, ◌↔◌, ◌<◌, ℤ, ℕ, [], ◌∷◌, Some, IsNone, IsSome, IfSome, IsTrue, IsUtf8};
ghost use Rattle.jiff.specs.Words.{IsEpochDay};
ghost use Rattle.reg_policy.specs.Days.{HasDate, IsDateOf, IsWritten, Writes, day_of, is_day_number, two_digit_text};

use jiff::civil::Date;
use jiff_core::civil;
use std::marker::Model;

/// A day of the calendar, by its number from 1970-01-01.
#[derive(Clone, Copy, PartialEq, Eq, PartialOrd, Ord)]
pub struct Day {
    number: i32,
}

impl Model for Day {
    ghost Value = { ℤ };

    ghost view = { λ d. d.number };

    ghost invariant = { λ d. IsTrue (is_day_number d.number) };

    ghost inverse = { λ n. record { number = n } };
}

impl Day {
    /// The number of 9999-12-31.
    const LAST: i32 = 2_932_896;

    /// The day with that number, counted from 1970-01-01, which is 0.
    pub fn new(number: i32) -> Option<Day>
        ensures some { IsSome result ↔ IsTrue (is_day_number number) }
        ensures value { IfSome result (λ d. d ≡ number) }
    {
        if (0..=Day::LAST).contains(&number) {
            Some(Day { number })
        } else {
            None
        }
    }

    /// Its number.
    pub fn number(self) -> i32
        ensures number { result ≡ self }
        ensures in_range { IsTrue (is_day_number self) }
    {
        self.number
    }

    /// The day that the text writes as `yyyy-mm-dd`.
    pub fn read(text: &str) -> Option<Day>
        ensures value { result ≡ day_of text.now }
        ensures written { (n : ℤ) → (result ≡ Some n) ↔ (Writes text.now n × IsTrue (is_day_number n)) }
    {
        day_in(text.as_bytes())
    }

    /// Its text, `yyyy-mm-dd`.
    pub fn text(self) -> [u8; 10]
        ensures written { Writes result self }
        ensures reads_back { day_of result ≡ Some self }
        ensures utf8 { IsUtf8 result }
    {
        self.written()
    }

    /// The text, apart from what `text` proves of it.
    fn written(self) -> [u8; 10]
        ensures written { Writes result self }
        ensures in_range { IsTrue (is_day_number self) }
    {
        let (year, month, day) = date_of(self.number);
        let [y1, y2] = digit_pair((year / 100) as u8);
        let [y3, y4] = digit_pair((year % 100) as u8);
        let [m1, m2] = digit_pair(month);
        let [d1, d2] = digit_pair(day);
        [y1, y2, y3, y4, b'-', m1, m2, b'-', d1, d2]
    }
}

/// The day that a text writes.
fn day_in(text: &[u8]) -> Option<Day>
    ensures { (n : ℤ) → (result ≡ Some n) ↔ (Writes text.now n × IsTrue (is_day_number n)) }
{
    let (year, month, day) = read_parts(text)?;
    Day::new(day_number(year, month, day)?)
}

/// The year, month and day that a text writes, whether the calendar has them or not.
fn read_parts(text: &[u8]) -> Option<(u16, u8, u8)>
    ensures { (y m d : ℕ) → (result ≡ Some (y, m, d)) ↔ IsWritten y m d text.now }
{
    let [y1, y2, y3, y4, b'-', m1, m2, b'-', d1, d2] = text else {
        return None;
    };
    let (Some(century), Some(year), Some(month), Some(day)) = (
        number_of_digits(*y1, *y2),
        number_of_digits(*y3, *y4),
        number_of_digits(*m1, *m2),
        number_of_digits(*d1, *d2),
    ) else {
        return None;
    };
    Some((100 * u16::from(century) + u16::from(year), month, day))
}

/// The number of a day, if the calendar has it.
fn day_number(year: u16, month: u8, day: u8) -> Option<i32>
    requires year_in { year < 10000 }
    requires month_in { month < 100 }
    requires day_in { day < 100 }
    ensures number { (n : ℤ) → (result ≡ Some n) ↔ IsDateOf year month day n }
    ensures in_range { IfSome result IsEpochDay }
{
    match Date::new(year as i16, month as i8, day as i8) {
        Ok(date) => Some(date.to_plain().to_unix_epoch_day()),
        Err(_) => None,
    }
}

/// The number that two digits write.
fn number_of_digits(tens: u8, ones: u8) -> Option<u8>
    ensures some { IfSome result (λ n. (n < 100) × (two_digit_text n ≡ tens ∷ ones ∷ [])) }
    ensures none { IsNone result → (n : ℕ) → n < 100 → two_digit_text n ≢ tens ∷ ones ∷ [] }
{
    if tens.is_ascii_digit() && ones.is_ascii_digit() {
        Some(10 * (tens - b'0') + (ones - b'0'))
    } else {
        None
    }
}

/// The two digits of a number.
fn digit_pair(number: u8) -> [u8; 2]
    requires { number < 100 }
    ensures { result ≡ two_digit_text number }
{
    [b'0' + number / 10, b'0' + number % 10]
}

/// The year, month and day of a day number.
fn date_of(number: i32) -> (u16, u8, u8)
    requires { IsTrue (is_day_number number) }
    ensures { HasDate result.0 result.1 result.2 number }
{
    match civil::Date::from_unix_epoch_day(i64::from(number)) {
        Ok(date) => (date.year.unsigned_abs(), date.month, date.day),
        Err(_) => unreachable!(),
    }
}
