//! The closure of a graph: which rows are reached, and which rows are shown.

ghost use Rattle.std.specs.Prelude.{◌≡◌, ◌<◌, ◌≤◌, ◌+◌, ℕ, ◌^◌, length, not, map, sum_by, IfOk, OnOk, All, Contains};
ghost use Rattle.ags_links.specs.Walks.{InRange, IsMarked, AreReachedFrom, AreShownUnder};
ghost use Rattle.ags_links.specs.Turns.{turns_of, hidden_turns};
ghost use Rattle.ags_links.specs.Work.{IsAdjacency, weigh, Looked, swapped};

use crate::graph::Graph;
use crate::lists::empty_lists;
use std::alloc::{AllocError, Global};

/// The rows reached from a marked row, marked rows included, and the turns: one for each of these rows, and one for
/// each step that starts at one.
pub fn reached(alloc: Global, graph: &Graph, from: &[bool]) -> Result<(Vec<bool>, u128), AllocError>
    requires { length from.now ≡ graph.now.rows }
    ensures rows { IfOk result (λ out. length out.0.items ≡ graph.now.rows) }
    ensures marks { IfOk result (λ out. AreReachedFrom graph.now.steps from.now out.0.items) }
    // one for each reached row, and one for each step that starts at one
    ensures turns { IfOk result (λ out. out.1 ≡ turns_of out.0.items graph.now.steps) }
    ensures few_turns { IfOk result (λ out. out.1 ≤ graph.now.rows + length graph.now.steps) }
{
    spread(alloc, graph.steps(), from)
}

/// The permitted rows from which only permitted rows are reached, and the turns: one for each other row, and one for
/// each step that ends at one.
pub fn shown(
    alloc: Global,
    graph: &Graph,
    permitted: &[bool],
) -> Result<(Vec<bool>, u128), AllocError>
    requires { length permitted.now ≡ graph.now.rows }
    ensures rows { IfOk result (λ out. length out.0.items ≡ graph.now.rows) }
    ensures marks { IfOk result (λ out. AreShownUnder graph.now permitted.now out.0.items) }
    // one for each row that is not shown, and one for each step that ends at one
    ensures turns { IfOk result (λ out. out.1 ≡ hidden_turns out.0.items graph.now.steps) }
    ensures few_turns { IfOk result (λ out. out.1 ≤ graph.now.rows + length graph.now.steps) }
{
    let back = backwards(alloc, graph.steps())?;
    let denied = negated(alloc, permitted)?;
    let (hidden, turns) = spread(alloc, &back, &denied)?;
    let marks = negated(alloc, &hidden)?;
    Ok((marks, turns))
}

/// The steps the other way round.
pub(crate) fn backwards(alloc: Global, steps: &[(u32, u32)]) -> Result<Vec<(u32, u32)>, AllocError>
    ensures { IfOk result (λ back. back.items ≡ map swapped steps.now) }
{
    steps
        .iter()
        .map(|&(row, target)| (target, row))
        .collect(alloc)
}

/// The rows that are not marked.
pub(crate) fn negated(alloc: Global, marks: &[bool]) -> Result<Vec<bool>, AllocError>
    ensures { IfOk result (λ other. other.items ≡ map not marks.now) }
{
    marks.iter().map(|mark| !*mark).collect(alloc)
}

/// The rows reached from a marked row, and the turns: one for each of these rows, and one for each step that starts at
/// one.
fn spread(
    alloc: Global,
    steps: &[(u32, u32)],
    from: &[bool],
) -> Result<(Vec<bool>, u128), AllocError>
    requires range { InRange (length from.now) steps.now }
    requires rows { length from.now < 2 ^ 32 }
    ensures rows { IfOk result (λ out. length out.0.items ≡ length from.now) }
    ensures marks { IfOk result (λ out. AreReachedFrom steps.now from.now out.0.items) }
    ensures turns { IfOk result (λ out. out.1 ≡ turns_of out.0.items steps.now) }
{
    let beside = adjacent(alloc, from.len(), steps)?;
    let mut work = marked_rows(alloc, from)?;
    let mut marks = Vec::from_slice(alloc, from)?;
    let turns = follow(steps, &beside, &mut marks, &mut work)?;
    Ok((marks, turns))
}

/// What is beside each row: where its steps lead, in their order.
fn adjacent(alloc: Global, rows: usize, steps: &[(u32, u32)]) -> Result<Vec<Vec<u32>>, AllocError>
    requires { InRange rows steps.now }
    ensures rows { IfOk result (λ beside. length beside.items ≡ rows) }
    ensures each { IfOk result (λ beside. IsAdjacency steps.now beside.items) }
{
    let mut beside = empty_lists(alloc, rows)?;
    for &(row, target) in steps {
        beside[row as usize].push(target)?;
    }
    Ok(beside)
}

/// The numbers of the marked rows.
fn marked_rows(alloc: Global, marks: &[bool]) -> Result<Vec<u32>, AllocError>
    requires { length marks.now < 2 ^ 32 }
    ensures marked { IfOk result (λ work. (r : ℕ) → Contains work.items r → IsMarked marks.now r) }
    ensures all { IfOk result (λ work. (r : ℕ) → IsMarked marks.now r → Contains work.items r) }
    ensures weight { IfOk result (λ work. (w : ℕ → ℕ) → sum_by w work.items ≡ weigh w marks.now) }
{
    let mut work = Vec::new(alloc);
    for (row, marked) in marks.iter().enumerate() {
        if *marked {
            work.push(row as u32)?;
        }
    }
    Ok(work)
}

/// Empties the work list, and counts each row taken and each step looked at.
fn follow(
    steps: &[(u32, u32)],
    beside: &[Vec<u32>],
    marks: &mut [bool],
    work: &mut Vec<u32>,
) -> Result<u128, AllocError>
    requires range { InRange (length marks.old) steps.now }
    requires length { length beside.now ≡ length marks.old }
    requires rows { length marks.old < 2 ^ 32 }
    requires beside { IsAdjacency steps.now beside.now }
    requires marked { (r : ℕ) → Contains work.old.items r → IsMarked marks.old r }
    requires all { (r : ℕ) → IsMarked marks.old r → Contains work.old.items r }
    requires weight { (w : ℕ → ℕ) → sum_by w work.old.items ≡ weigh w marks.old }
    ensures marks { OnOk result (AreReachedFrom steps.now marks.old marks.new) }
    ensures turns { IfOk result (λ turns. turns ≡ turns_of marks.new steps.now) }
{
    let mut turns: u128 = 0;
    while let Some(row) = work.pop() {
        turns += 1;
        look(&beside[row as usize], marks, work, &mut turns)?;
    }
    Ok(turns)
}

/// Looks at each step beside a row, and counts it: where it leads is marked, and put on the work list if it was not.
fn look(
    beside: &[u32],
    marks: &mut [bool],
    work: &mut Vec<u32>,
    turns: &mut u128,
) -> Result<(), AllocError>
    requires rows { All (λ s. s < length marks.old) beside.now }
    requires room { turns.old + length beside.now < 2 ^ 128 }
    ensures looked { OnOk result (Looked beside.now marks.old marks.new work.old.items work.new.items) }
    ensures turns { OnOk result (turns.new ≡ turns.old + length beside.now) }
{
    for &target in beside {
        *turns += 1;
        if !marks[target as usize] {
            marks[target as usize] = true;
            work.push(target)?;
        }
    }
    Ok(())
}
