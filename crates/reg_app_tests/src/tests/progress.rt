//! Lines that say how far a start is, at chosen times.

use super::{Failing, failing_after};
use ags_cli::Watched;
use reg_app::ProgressLines;
use std::alloc::Global;
use std::cell::Cell;
use std::io;
use std::io::{ErrorKind, Write};
use std::time::{Clock, Duration};

/// A clock that is set by hand, in milliseconds, and fails from a time on.
#[derive(Drop)]
struct SetClock {
    millis: Cell<u64>,
    ends: u64,
}

impl Clock for SetClock {
    fn monotonic(&self) -> io::Result<Duration> {
        let millis = self.millis.get();
        if millis >= self.ends {
            return Err(io::Error::from(ErrorKind::Other));
        }
        Ok(Duration::from_millis(millis))
    }

    fn since_1970(&self) -> io::Result<Duration> {
        Err(io::Error::from(ErrorKind::Other))
    }
}

/// A clock that fails from this time on.
fn clock_until(ends: u64) -> SetClock {
    SetClock {
        millis: Cell::new(0),
        ends,
    }
}

/// The milliseconds at which a call comes, how many deposits are checked then, and of how many.
type Call = (u64, u32, u32);

/// Calls while a register of 2 GiB is opened, by a clock that fails from a time on, and what is said.
struct Case {
    calls: &'static [Call],
    ends: u64,
    said: &'static [u8],
}

static CASES: [Case; 6] = [
    // A line comes a second after the first call, and a second after each line.
    Case {
        calls: &[
            (5_000, 0, 4_000),
            (5_001, 1, 4_000),
            (5_999, 80, 4_000),
            (15_714, 1_200, 4_000),
            (16_713, 1_299, 4_000),
            (16_714, 1_300, 4_000),
            (25_714, 3_999, 4_000),
            (26_713, 4_000, 4_000),
        ],
        ends: 60_000,
        said: b"reading 2147483648 bytes\n\
1200 of 4000 deposits checked, 25 seconds left\n\
1300 of 4000 deposits checked, 25 seconds left\n\
3999 of 4000 deposits checked, 1 seconds left\n",
    },
    // The last deposit takes long, and so does one of very many.
    Case {
        calls: &[(0, 0, 2), (999, 1, 2), (1_000, 2, 2)],
        ends: 60_000,
        said: b"reading 2147483648 bytes\n2 of 2 deposits checked, 0 seconds left\n",
    },
    Case {
        calls: &[(7, 0, 4_294_967_295), (2_007, 1, 4_294_967_295)],
        ends: 60_000,
        said: b"reading 2147483648 bytes\n1 of 4294967295 deposits checked, 8589934588 seconds left\n",
    },
    // Within a second, and of no deposit, nothing more is said.
    Case {
        calls: &[(5_000, 0, 3), (5_500, 1, 3), (5_800, 2, 3), (5_999, 3, 3)],
        ends: 60_000,
        said: b"reading 2147483648 bytes\n",
    },
    Case {
        calls: &[(5_000, 0, 0)],
        ends: 60_000,
        said: b"reading 2147483648 bytes\n",
    },
    // Nor is it without a clock.
    Case {
        calls: &[(0, 0, 10), (5_000, 5, 10), (10_000, 10, 10)],
        ends: 5_001,
        said: b"reading 2147483648 bytes\n5 of 10 deposits checked, 5 seconds left\n",
    },
];

/// Says what these calls say, if lines are wanted.
fn say_calls<E: Write>(
    alloc: Global,
    clock: &SetClock,
    err: &mut Watched<E>,
    is_wanted: bool,
    calls: &[Call],
) {
    let mut lines = ProgressLines::new(alloc, clock, err, is_wanted);
    lines.say_bytes(2_147_483_648);
    for (millis, checked, count) in calls {
        clock.millis.set(*millis);
        lines.say_checked(*checked, *count);
    }
}

/// Whether a case says its lines, and nothing where they are not wanted.
fn says(alloc: Global, case: &Case) -> bool {
    let (mut said, mut silent) = (Vec::new(alloc), Vec::new(alloc));
    let clock = clock_until(case.ends);
    say_calls(
        alloc,
        &clock,
        &mut Watched::new(&mut said),
        true,
        case.calls,
    );
    say_calls(
        alloc,
        &clock,
        &mut Watched::new(&mut silent),
        false,
        case.calls,
    );
    (said.as_slice() == case.said) & silent.is_empty()
}

#[test]
fn progress_is_said(rt: HostRuntime) {
    for case in &CASES {
        assert!(rt; says(rt.alloc(), case));
    }
}

/// The calls by which two lines are said after that of the bytes.
const TWO_LINES: &[Call] = &[(0, 0, 4), (1_000, 1, 4), (2_000, 2, 4)];

/// What three lines say.
const THREE: &[u8] = b"reading 2147483648 bytes\n\
1 of 4 deposits checked, 3 seconds left\n\
2 of 4 deposits checked, 2 seconds left\n";

/// Writes the three lines to a stream.
fn say_three(alloc: Global, out: &mut Failing<'_>) {
    say_calls(
        alloc,
        &clock_until(60_000),
        &mut Watched::new(out),
        true,
        TWO_LINES,
    );
}

/// Whether so many bytes of the lines are written where the write or flush after `calls` others fails, that once
/// alone. Each line takes two.
fn ends_after(alloc: Global, calls: usize, taken: usize) -> bool {
    let mut out = failing_after(alloc, b"", 100, calls);
    say_three(alloc, &mut out);
    (out.failed == (calls < 6)) & (out.taken.as_slice() == &THREE[..taken.min(THREE.len())])
}

/// After how many calls one fails, and how many bytes are written then.
const ENDS: [(usize, usize); 5] = [(0, 0), (1, 25), (2, 25), (3, 65), (6, 105)];

/// Nothing is said after a line that was not written.
#[test]
fn a_line_that_fails_is_the_last(rt: HostRuntime) {
    for (calls, taken) in ENDS {
        assert!(rt; ends_after(rt.alloc(), calls, taken));
    }
}
