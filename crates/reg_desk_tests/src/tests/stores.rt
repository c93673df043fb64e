//! What a store gives of the second file, its first deposit: what was sent, its rows and its steps.

ghost use Rattle.std.specs.Prelude.{◌≡◌, ◌<◌, ◌≤◌, false, length, IsTrue, OnOk};

use super::examples::{MOST, UNTIL};
use super::{Over, Play, plays};
use ags_check::{Checked, check};
use ags_rows::LIMIT;
use reg_policy::{Callers, Day, Name};
use reg_store::{Keep, KeepError, KeptRow, is_equal};
use samples_of_tests::FILE_B;
use std::alloc::{AllocError, Global};

/// The number of a file that is checked; none where an equal deposit is held.
fn added<K: Keep>(
    keep: &mut K,
    firm: &Name,
    project: &Name,
    embargo: Day,
    checked: &Checked<'_>,
) -> Result<Option<u32>, KeepError>
    requires working { K.has_failed keep.old ≡ false }
    requires dictionary { checked.now.given ≡ K.dictionary keep.old }
    requires short { length checked.now.bytes ≤ LIMIT }
    ensures { OnOk result (K.has_failed keep.new ≡ false) }
{
    if let Some(_held) = keep.find(firm, project, checked.bytes())? {
        return Ok(None);
    }
    match keep.add(firm, project, embargo, checked) {
        Ok(number) => Ok(Some(number)),
        Err(refused) => Err(refused),
    }
}

/// The number of the second file; none where an equal deposit is held. Findings count as out of memory, which no test
/// expects.
fn second_added<K: Keep>(
    alloc: Global,
    keep: &mut K,
    firm: &Name,
    project: &Name,
    embargo: Day,
) -> Result<Option<u32>, KeepError>
    requires { K.has_failed keep.old ≡ false }
    ensures { OnOk result (K.has_failed keep.new ≡ false) }
{
    if FILE_B.len() > LIMIT {
        return Ok(None);
    }
    match check(alloc, keep.dictionary(), FILE_B) {
        Ok(checked) => added(keep, firm, project, embargo, &checked),
        Err(_) => Err(KeepError::NoMemory),
    }
}

/// Whether a deposit of that number is held.
fn is_held<K: Keep>(keep: &K, n: u32) -> bool
    requires { K.has_failed keep.now ≡ false }
    ensures { IsTrue result → K.is_sound keep.now → (0 < n) × (n ≤ length (K.deposits keep.now)) }
{
    0 < n && n <= keep.count()
}

/// Whether the deposit of that number is the second file, so sent, without a mark.
fn has_sent<K: Keep>(
    keep: &mut K,
    n: u32,
    firm: &Name,
    project: &Name,
    embargo: Day,
) -> Result<bool, KeepError>
    requires { K.has_failed keep.old ≡ false }
    ensures { OnOk result (K.has_failed keep.new ≡ false) }
{
    if !is_held(keep, n) {
        return Ok(false);
    }
    let kept = keep.deposit(n)?;
    let is_sent = is_equal(&kept, firm, project, FILE_B);
    Ok(is_sent && kept.embargo == embargo && !kept.withdrawn)
}

/// How many of the rows are DATA rows.
fn data_count(rows: &[KeptRow]) -> usize {
    let mut count: usize = 0;
    for row in rows {
        if row.kind == 4 {
            count = count.saturating_add(1);
        }
    }
    count
}

/// Whether the deposit of that number has 41 rows, of which 13 are DATA rows.
fn has_rows<K: Keep>(keep: &mut K, n: u32) -> Result<bool, KeepError>
    requires { K.has_failed keep.old ≡ false }
    ensures { OnOk result (K.has_failed keep.new ≡ false) }
{
    if !is_held(keep, n) {
        return Ok(false);
    }
    let rows = keep.rows(n)?;
    Ok(rows.len() == 41 && data_count(rows.as_slice()) == 13)
}

/// The steps between the DATA rows of the second file.
static STEPS: [(u32, u32); 6] = [(7, 0), (8, 0), (9, 7), (10, 8), (11, 9), (12, 10)];

/// Whether the deposit of that number has 13 DATA rows and those steps.
fn has_its_steps<K: Keep>(keep: &mut K, n: u32) -> Result<bool, KeepError>
    requires { K.has_failed keep.old ≡ false }
    ensures { OnOk result (K.has_failed keep.new ≡ false) }
{
    if !is_held(keep, n) {
        return Ok(false);
    }
    let graph = keep.steps(n)?;
    Ok(graph.rows() == 13 && graph.steps() == STEPS.as_slice())
}

/// Whether all of that is so of the second file as deposit 1.
fn keeps<K: Keep>(
    alloc: Global,
    keep: &mut K,
    firm: &Name,
    project: &Name,
    embargo: Day,
) -> Result<bool, KeepError>
    requires { K.has_failed keep.old ≡ false }
{
    let added = second_added(alloc, keep, firm, project, embargo)?;
    let sent = has_sent(keep, 1, firm, project, embargo)?;
    let rows = has_rows(keep, 1)?;
    let steps = has_its_steps(keep, 1)?;
    Ok(added == Some(1) && sent && rows && steps)
}

/// The same of Delta's second file; an error where memory is refused.
pub fn keeps_second<K: Keep>(
    alloc: Global,
    keep: &mut K,
    callers: &Callers,
    project: &Name,
) -> Result<bool, AllocError>
    requires { K.has_failed keep.old ≡ false }
{
    let (Some(delta), Some(embargo)) = (callers.find(b"t-delta"), Day::read(UNTIL)) else {
        return Ok(false);
    };
    match keeps(alloc, keep, &delta.firm, project, embargo) {
        Ok(right) => Ok(right),
        Err(KeepError::NoMemory) => Err(AllocError),
        Err(_) => Ok(false),
    }
}

#[test]
fn second_file_in_memory(rt: HostRuntime) {
    assert!(rt; plays(rt.alloc(), Over::Memory, MOST, Play::Kept).unwrap_or(false));
}

#[test]
fn second_file_in_tables(rt: HostRuntime) {
    assert!(rt; plays(rt.alloc(), Over::Tables, MOST, Play::Kept).unwrap_or(false));
}
