//! The units of dates and times.
ghost use Rattle.ags_cells.specs.TimeUnits.{IsUnitOf};

/// A unit that has a form of its own.
#[derive(Clone, Copy, Debug, PartialEq, Eq)]
pub(crate) enum TimeUnit {
    /// `yyyy`
    Year,
    /// `yyyy-mm`
    Month,
    /// `yyyy-mm-dd`
    Day,
    /// `yyyy-mm-ddThh:mm`
    DayMinutes,
    /// `yyyy-mm-ddThh:mm:ss`
    DaySeconds,
    /// `hh:mm`
    Minutes,
    /// `hh:mm:ss`
    Seconds,
    /// Every other unit: any text fits.
    Other,
}

impl TimeUnit {
    /// The unit of that text.
    pub(crate) fn of(text: &[u8]) -> TimeUnit
        ensures { IsUnitOf text.now result }
    {
        if text == b"yyyy".as_slice() {
            TimeUnit::Year
        } else if text == b"yyyy-mm".as_slice() {
            TimeUnit::Month
        } else if text == b"yyyy-mm-dd".as_slice() {
            TimeUnit::Day
        } else if text == b"yyyy-mm-ddThh:mm".as_slice() {
            TimeUnit::DayMinutes
        } else if text == b"yyyy-mm-ddThh:mm:ss".as_slice() {
            TimeUnit::DaySeconds
        } else if text == b"hh:mm".as_slice() {
            TimeUnit::Minutes
        } else if text == b"hh:mm:ss".as_slice() {
            TimeUnit::Seconds
        } else {
            TimeUnit::Other
        }
    }
}
