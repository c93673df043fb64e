//! The worked examples of graphs. Where memory wants, no answer is the wanted one.
mod caller;
mod files;

use ags_links::{Graph, reached, shown};
use std::alloc::{AllocError, Global};

/// The graph of so many rows and these steps, if it is one.
fn graph_of(alloc: Global, rows: u32, steps: &[(u32, u32)]) -> Result<Option<Graph>, AllocError> {
    let steps = Vec::from_slice(alloc, steps)?;
    Ok(Graph::new(rows, steps))
}

/// A graph, the rows that are permitted or marked, and the marks and turns that are wanted.
#[derive(Drop)]
struct Case {
    what: &'static str,
    shown: bool,
    rows: u32,
    steps: &'static [(u32, u32)],
    marks: &'static [bool],
    want: &'static [bool],
    turns: u128,
}

/// Two rows that lead to each other, and one that leads to them.
const RING: &[(u32, u32)] = &[(0, 1), (1, 0), (2, 0)];

/// The worked examples of what is reached and of what is shown.
static CASES: &[Case] = &[
    Case {
        what: "a ring from outside",
        shown: false,
        rows: 3,
        steps: RING,
        marks: &[false, false, true],
        want: &[true, true, true],
        turns: 6,
    },
    Case {
        what: "a ring from within",
        shown: false,
        rows: 3,
        steps: RING,
        marks: &[true, false, false],
        want: &[true, true, false],
        turns: 4,
    },
    Case {
        what: "a step listed twice counts twice",
        shown: false,
        rows: 2,
        steps: &[(0, 1), (0, 1), (1, 1)],
        marks: &[true, false],
        want: &[true, true],
        turns: 5,
    },
    Case {
        what: "a ring with a row that is not permitted",
        shown: true,
        rows: 3,
        steps: RING,
        marks: &[true, false, true],
        want: &[false, false, false],
        turns: 6,
    },
    Case {
        what: "a ring of permitted rows",
        shown: true,
        rows: 3,
        steps: RING,
        marks: &[true, true, true],
        want: &[true, true, true],
        turns: 0,
    },
    Case {
        what: "no row",
        shown: true,
        rows: 0,
        steps: &[],
        marks: &[],
        want: &[],
        turns: 0,
    },
];

/// Whether a case's graph is closed as wanted.
fn closes(alloc: Global, graph: &Graph, case: &Case) -> bool {
    if case.marks.len() != graph.rows() as usize {
        return false;
    }
    let closed = if case.shown {
        shown(alloc, graph, case.marks)
    } else {
        reached(alloc, graph, case.marks)
    };
    match closed {
        Ok((marks, turns)) => marks.as_slice() == case.want && turns == case.turns,
        Err(_) => false,
    }
}

/// Whether a case has a graph that is closed as wanted.
fn agrees(alloc: Global, case: &Case) -> bool {
    match graph_of(alloc, case.rows, case.steps) {
        Ok(Some(graph)) => closes(alloc, &graph, case),
        _ => false,
    }
}

#[test]
fn what_is_reached_and_shown(rt: HostRuntime) {
    for case in CASES {
        assert!(rt; agrees(rt.alloc(), case), "{}", case.what);
    }
}

/// Steps between three rows, and whether they are.
const STEPS: [(&[(u32, u32)], bool); 2] = [(&[(0, 3)], false), (&[(2, 1), (0, 1), (2, 1)], true)];

/// Whether three rows and these steps are a graph that has them as they are given, or are none.
fn are_kept(alloc: Global, steps: &[(u32, u32)], want: bool) -> bool {
    match graph_of(alloc, 3, steps) {
        Ok(Some(graph)) => want && graph.rows() == 3 && graph.steps() == steps,
        Ok(None) => !want,
        Err(_) => false,
    }
}

#[test]
fn a_number_that_is_no_row(rt: HostRuntime) {
    for (steps, want) in &STEPS {
        assert!(rt; are_kept(rt.alloc(), steps, *want));
    }
}

/// As many marks, each `mark` but for the row `other`.
fn marks_but(alloc: Global, rows: u32, mark: bool, other: u32) -> Result<Vec<bool>, AllocError> {
    let mut marks = Vec::new(alloc);
    for row in 0..rows {
        marks.push(mark != (row == other))?;
    }
    Ok(marks)
}

/// 99,999 steps, each to the next row.
fn chain(alloc: Global) -> Result<Vec<(u32, u32)>, AllocError> {
    let mut steps = Vec::new(alloc);
    for row in 0..99_999 {
        steps.push((row, row + 1))?;
    }
    Ok(steps)
}

/// Whether so many rows are marked, after so many turns.
fn counts(closed: Result<(Vec<bool>, u128), AllocError>, want: (usize, u128)) -> bool {
    match closed {
        Ok((marks, turns)) => count(marks.as_slice()) == want.0 && turns == want.1,
        Err(_) => false,
    }
}

/// How many rows are marked.
fn count(marks: &[bool]) -> usize {
    let mut rows = 0usize;
    for mark in marks {
        if *mark {
            rows = rows.saturating_add(1);
        }
    }
    rows
}

/// The mark of all rows but one, that one, and the rows and turns of what is reached and of what is shown.
type Marks = (bool, u32, (usize, u128), (usize, u128));

/// Marks of a chain of 100,000 rows: the first alone, all, and all but the last.
const MARKS: [Marks; 3] = [
    (false, 0, (100_000, 199_999), (0, 199_999)),
    (true, 100_000, (100_000, 199_999), (100_000, 0)),
    (true, 99_999, (100_000, 199_999), (0, 199_999)),
];

/// Whether a graph is closed from marks both ways as wanted.
fn is_closed(alloc: Global, graph: &Graph, case: &Marks) -> bool {
    let (mark, other, from, visible) = case;
    let Ok(marks) = marks_but(alloc, graph.rows(), *mark, *other) else {
        return false;
    };
    let marks = marks.as_slice();
    if marks.len() != graph.rows() as usize {
        return false;
    }
    counts(reached(alloc, graph, marks), *from) && counts(shown(alloc, graph, marks), *visible)
}

/// The graph of a chain of 100,000 rows.
fn chain_of_rows(alloc: Global) -> Option<Graph> {
    match chain(alloc) {
        Ok(steps) => Graph::new(100_000, steps),
        Err(_) => None,
    }
}

/// Whether a graph is closed as wanted from all marks.
fn are_closed(alloc: Global, graph: &Graph) -> bool {
    for case in &MARKS {
        if !is_closed(alloc, graph, case) {
            return false;
        }
    }
    true
}

/// Whether the chain is closed as wanted.
fn is_chain_closed(alloc: Global) -> bool {
    match chain_of_rows(alloc) {
        Some(graph) => are_closed(alloc, &graph),
        None => false,
    }
}

#[test]
fn a_chain_of_a_hundred_thousand_rows(rt: HostRuntime) {
    assert!(rt; is_chain_closed(rt.alloc()));
}
