//! The time of a connection.

use reg_policy::Day;
use std::time::{Clock, SystemTime, UNIX_EPOCH};

const SECONDS_OF_A_DAY: u64 = 86_400;

/// A second of a day in UTC.
#[derive(Clone, Copy)]
pub(crate) struct Moment {
    pub(crate) day: Day,
    /// The seconds of the day before it.
    pub(crate) second: u64,
}

impl Moment {
    /// What a clock tells, if that is a second from 1970 to 9999.
    pub(crate) fn now<C: Clock>(clock: &C) -> Option<Moment> {
        let time = SystemTime::now(clock).ok()?;
        let seconds = time.duration_since(UNIX_EPOCH).ok()?.as_secs();
        let number = i32::try_from(seconds / SECONDS_OF_A_DAY).ok()?;
        Some(Moment {
            day: Day::new(number)?,
            second: seconds % SECONDS_OF_A_DAY,
        })
    }
}
