//! What policies decide of rows.
use super::decisions::{ANY_DAY, JUNE, POLICY, STARS, asker_of};
use super::policies::{RULE, policy_of};
use ags_rows::cells;
use ags_text::Cell;
use reg_policy::{Day, Decision, Policy, RowFacts, Subject};
use std::alloc::Global;

/// A row that Echo wants to see under a policy, and what is decided.
#[derive(Drop)]
struct Sight {
    policy: &'static [&'static str],
    group: &'static [u8],
    own: bool,
    past: bool,
    headings: &'static [u8],
    cells: &'static [u8],
    want: Decision,
}

const LOCA: &[u8] = b"\"LOCA_ID\",\"LOCA_STAT\"";

const PRELIMINARY: &[u8] = b"\"BH2\",\"PRELIM\"";

const MISPLACED: &[u8] = b"\"PRELIM\",\"FINAL\"";

const SIGHTS: [Sight; 8] = [
    Sight {
        policy: POLICY,
        group: b"PROJ",
        own: false,
        past: false,
        headings: LOCA,
        cells: PRELIMINARY,
        want: Decision::Deny(60),
    },
    Sight {
        policy: POLICY,
        group: b"PROJ",
        own: false,
        past: true,
        headings: LOCA,
        cells: PRELIMINARY,
        want: Decision::Permit(80),
    },
    Sight {
        policy: POLICY,
        group: b"PROJ",
        own: true,
        past: false,
        headings: LOCA,
        cells: PRELIMINARY,
        want: Decision::Permit(50),
    },
    Sight {
        policy: POLICY,
        group: b"LOCA",
        own: false,
        past: true,
        headings: LOCA,
        cells: PRELIMINARY,
        want: Decision::Deny(70),
    },
    Sight {
        policy: POLICY,
        group: b"LOCA",
        own: false,
        past: true,
        headings: LOCA,
        cells: MISPLACED,
        want: Decision::Permit(80),
    },
    Sight {
        policy: POLICY,
        group: b"LOCA",
        own: true,
        past: true,
        headings: LOCA,
        cells: PRELIMINARY,
        want: Decision::Permit(50),
    },
    Sight {
        policy: POLICY,
        group: b"SAMP",
        own: false,
        past: true,
        headings: b"\"LOCA_ID\",\"SAMP_REF\"",
        cells: b"\"BH1\",\"S9\"",
        want: Decision::Deny(75),
    },
    Sight {
        policy: STARS,
        group: b"LOCA",
        own: false,
        past: false,
        headings: b"",
        cells: b"",
        want: Decision::Permit(1),
    },
];

/// The fields that a line spells; none of an empty one.
fn fields(alloc: Global, line: &'static [u8]) -> Option<Vec<Cell<'static>>> {
    if line.is_empty() {
        return Some(Vec::new(alloc));
    }
    match cells(alloc, line) {
        Ok(found) => found,
        Err(_) => None,
    }
}

/// What a policy decides of a row that Echo wants to see on a day.
fn seen(alloc: Global, policy: &Policy, row: RowFacts<'_>, day: &str) -> Option<Decision> {
    match (asker_of(alloc, "Echo", "consultant"), Day::read(day)) {
        (Ok(echo), Some(day)) => {
            let subject = Subject::of_row(&echo.caller, &echo.project, row, day);
            Some(policy.decide(&subject))
        }
        _ => None,
    }
}

/// Whether the row with these headings and cells is decided as wanted.
fn is_seen(alloc: Global, sight: &Sight, headings: &[Cell<'_>], cells: &[Cell<'_>]) -> bool {
    let row = RowFacts {
        group: sight.group,
        own: sight.own,
        past: sight.past,
        headings,
        cells,
    };
    match policy_of(alloc, sight.policy) {
        Ok(policy) => seen(alloc, &policy, row, ANY_DAY) == Some(sight.want),
        Err(_) => false,
    }
}

/// Whether the row with these headings is decided as wanted.
fn is_seen_under(alloc: Global, sight: &Sight, headings: &[Cell<'_>]) -> bool {
    match fields(alloc, sight.cells) {
        Some(cells) => is_seen(alloc, sight, headings, cells.as_slice()),
        None => false,
    }
}

/// Whether a row is decided as wanted.
fn is_row_decided(alloc: Global, sight: &Sight) -> bool {
    match fields(alloc, sight.headings) {
        Some(headings) => is_seen_under(alloc, sight, headings.as_slice()),
        None => false,
    }
}

#[test]
fn rows_decided(rt: HostRuntime) {
    for sight in &SIGHTS {
        assert!(rt; is_row_decided(rt.alloc(), sight));
    }
}

/// The one rule is of seeing, in June.
const IN_JUNE: &[&str] = &[RULE, "verb = \"see\"\n", JUNE];

/// A day, and what is decided of a row under that rule.
const ROWS_ON_DAYS: [(&str, Decision); 4] = [
    ("2024-05-31", Decision::Deny(0)),
    ("2024-06-01", Decision::Permit(1)),
    ("2024-06-30", Decision::Permit(1)),
    ("2024-07-01", Decision::Deny(0)),
];

/// Whether a row is decided as wanted on a day.
fn is_row_decided_on(alloc: Global, day: &str, want: Decision) -> bool {
    let row = RowFacts {
        group: b"LOCA",
        own: false,
        past: true,
        headings: &[],
        cells: &[],
    };
    match policy_of(alloc, IN_JUNE) {
        Ok(policy) => seen(alloc, &policy, row, day) == Some(want),
        Err(_) => false,
    }
}

#[test]
fn rows_decided_on_days(rt: HostRuntime) {
    for (day, want) in &ROWS_ON_DAYS {
        assert!(rt; is_row_decided_on(rt.alloc(), day, *want), "{day}");
    }
}
