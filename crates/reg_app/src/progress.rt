//! Lines that say how far the start of a command is.

use ags_cli::Watched;
use reg_store::Progress;
use std::alloc::Global;
use std::io::Write;
use std::time::{Clock, Duration, Instant};

/// Lines on standard error, while a register is opened: how many bytes it has, and at most once a second how many of
/// its deposits are checked. A line that cannot be written is the last one, and no failure of the command.
#[derive(Drop)]
pub struct ProgressLines<'c, 'e, C, E> {
    alloc: Global,
    clock: &'c C,
    err: &'e mut Watched<E>,
    is_wanted: bool,
    times: Option<Times>,
}

/// When the first deposit began to be checked, and when the last line was due.
#[derive(Clone, Copy)]
struct Times {
    begun: Instant,
    last: Instant,
}

impl<'c, 'e, C: Clock, E: Write> ProgressLines<'c, 'e, C, E> {
    /// Lines on `err` by the times of a clock, if they are wanted.
    pub fn new(
        alloc: Global,
        clock: &'c C,
        err: &'e mut Watched<E>,
        is_wanted: bool,
    ) -> ProgressLines<'c, 'e, C, E> {
        ProgressLines {
            alloc,
            clock,
            err,
            is_wanted,
            times: None,
        }
    }

    /// Says how many bytes are read. No clause says so.
    pub fn say_bytes(&mut self, bytes: u64) {
        if let Ok(line) = format!(in self.alloc; "reading {bytes} bytes\n") {
            self.say(line.as_bytes());
        }
    }

    /// Says how many deposits are checked, if the last line is a second old. The first call begins the time by which
    /// the seconds that are left are estimated. No clause says so.
    pub fn say_checked(&mut self, checked: u32, count: u32) {
        if let Some(taken) = self.taken_if_due() {
            self.say_estimate(checked, count, taken);
        }
    }

    /// The time since the first call, if a line is due: that is a second after the first call, and after each line.
    fn taken_if_due(&mut self) -> Option<Duration> {
        if !self.is_wanted {
            return None;
        }
        let now = Instant::now(self.clock).ok()?;
        let Some(Times { begun, last }) = self.times else {
            self.times = Some(Times {
                begun: now,
                last: now,
            });
            return None;
        };
        if now.duration_since(last).as_secs() == 0 {
            return None;
        }
        self.times = Some(Times { begun, last: now });
        Some(now.duration_since(begun))
    }

    /// Says how many deposits are checked, which took so long, and how long the others will take.
    fn say_estimate(&mut self, checked: u32, count: u32, taken: Duration) {
        let Some(left) = seconds_left(checked, count, taken) else {
            return;
        };
        if let Ok(line) = format!(in self.alloc;
            "{checked} of {count} deposits checked, {left} seconds left\n"
        ) {
            self.say(line.as_bytes());
        }
    }

    /// Writes a line where lines are wanted and each one before it was written.
    fn say(&mut self, line: &[u8]) {
        if self.is_wanted && !self.err.has_failed() {
            let _written = self.err.write_text(line);
        }
    }
}

impl<C: Clock, E: Write> Progress for ProgressLines<'_, '_, C, E> {
    fn checked(&mut self, checked: u32, count: u32) {
        self.say_checked(checked, count);
    }
}

/// The seconds in which the other deposits are checked, rounded up, if each takes as long as those that are. None where
/// none is.
fn seconds_left(checked: u32, count: u32, taken: Duration) -> Option<u64> {
    let others = u64::from(count.saturating_sub(checked));
    let millis = u64::try_from(taken.as_millis()).ok()?;
    let left = millis
        .saturating_mul(others)
        .checked_div(u64::from(checked))?;
    Some(left.div_ceil(1_000))
}
