//! The days on which a rule holds.
ghost use Rattle.std.specs.Prelude.{◌↔◌, IsTrue};
ghost use Rattle.reg_policy.specs.Decision.{IsInPeriod, NotAfter, NotBefore};
ghost use Rattle.reg_policy.specs.Rules.{IsInOrder};

use crate::Day;

/// From a first day until a last, both included. A day that is not set bounds nothing.
#[derive(Clone, Copy)]
#[rattlefmt::skip]
pub(crate) struct Period { pub(crate) from: Option<Day>, pub(crate) until: Option<Day> }

impl Period {
    /// Whether the day is one of them.
    pub(crate) fn holds(&self, day: Day) -> bool
        ensures { IsTrue result ↔ IsInPeriod self.now day }
    {
        is_not_before(self.from, day) && is_not_after(self.until, day)
    }

    /// Whether the last is not before the first, where both are set.
    pub(crate) fn is_in_order(&self) -> bool
        ensures { IsTrue result ↔ IsInOrder self.now }
    {
        match self.from {
            Some(first) => is_not_after(self.until, first),
            None => true,
        }
    }
}

fn is_not_before(from: Option<Day>, day: Day) -> bool
    ensures { IsTrue result ↔ NotBefore from day }
{
    match from {
        Some(first) => first <= day,
        None => true,
    }
}

fn is_not_after(until: Option<Day>, day: Day) -> bool
    ensures { IsTrue result ↔ NotAfter until day }
{
    match until {
        Some(last) => day <= last,
        None => true,
    }
}
