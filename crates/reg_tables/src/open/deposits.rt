//! Whether the deposits in the tables are whole, and what is known of them.

ghost use Rattle.std.specs.Prelude.{◌≡◌, ◌≤◌, ◌+◌, ◌∷◌, [], ℕ, List, length, true, Ok, Err, IfOk, IfSome};
ghost use Rattle.sqlite.specs.State.{HasCleanDisk};
ghost use Rattle.sqlite.specs.Held.{state};
ghost use Rattle.sqlite.specs.Tree.{IsAscending};
ghost use Rattle.ags_links.specs.Steps.{IsBefore};
ghost use Rattle.ags_check.specs.Findings.{IsClean};
ghost use Rattle.reg_store.specs.Keep.{sent_of};
ghost use Rattle.reg_tables.specs.Private.Errors.{database_fails};
ghost use Rattle.reg_tables.specs.Quiet.{IsIdle, IsStill, FindsThat};
ghost use Rattle.reg_tables.specs.Private.Found.{FindsOneIf, FindsOut, OnYes};
ghost use Rattle.reg_tables.specs.Rows.{given_deposit};
ghost use Rattle.reg_tables.specs.Private.Heads.{AddsKnown, HoldsKnown, IsDigestedAt, IsDigestedFrom, IsKnownOf, KnowsFile};
ghost use Rattle.reg_tables.specs.Private.Digests.{AreBelow, HoldsDigests, IsNew, numbers_under, own_digest};
ghost use Rattle.reg_store.specs.Fit.{IsNamed, kept_rows};
ghost use Rattle.reg_store.specs.Sent.{Sent};
ghost use Rattle.reg_tables.specs.Whole.{AreWhole, HoldsBody, IsWhole};
ghost use Rattle.reg_tables.specs.Private.Methods.{HoldsLines, HoldsSteps};

use crate::error::TableError;
use crate::memory::Known;
use crate::memory::digests::{Digests, digest_of};
use crate::memory::file::KnownFile;
use crate::open::compare::{SameLines, SameSteps, are_all};
use crate::open::head::{DigestedHead, into_known};
use crate::read::equal::read_equal;
use crate::read::gather::take_shown;
use crate::read::read_numbered;
use crate::read::rows::deposit_in;
use crate::write::lines::few_rows;
use ags_check::{CheckError, Checked, check};
use ags_dict::Dictionary;
use ags_rows::LIMIT;
use reg_store::{Kept, KeptRow, Progress};
use sqlite::{Alter, Connection, Row, params};
use std::alloc::Global;

/// Whether the deposits from 1 to the count are whole. What is known of them and their digests are put into the lists.
pub(crate) fn examine_deposits<S: Alter, P: Progress>(
    conn: &mut Connection<S>,
    alloc: Global,
    dictionary: &Dictionary,
    count: u32,
    known: &mut Vec<Known>,
    digests: &mut Digests,
    progress: &mut P,
) -> Result<bool, TableError>
    requires idle { IsIdle (state S.Store conn.old) }
    requires none { known.old.items ≡ [] }
    requires no_digests { (digest : List ℕ) → numbers_under digests.old digest ≡ [] }

    // Whether the deposits are whole.
    ensures tested { FindsOut result (λ db. AreWhole db dictionary.now count)
        (state S.Store conn.old) (state S.Store conn.new) }

    // What is known and the digests in the lists, where the deposits are whole.
    ensures long { result ≡ Ok true → length known.new.items ≡ count }
    ensures known { OnYes result (λ db. HoldsKnown db dictionary.now known.new.items)
        (state S.Store conn.old) (state S.Store conn.new) }
    ensures below { result ≡ Ok true → AreBelow digests.new (count + 1) }
    ensures digests { OnYes result (λ db. HoldsDigests db (count + 1) digests.new)
        (state S.Store conn.old) (state S.Store conn.new) }

    // What is left in either case.
    ensures quiet { IsStill (state S.Store conn.old) (state S.Store conn.new) (database_fails result) }
{
    progress.checked(0, count);
    for at in 0..count {
        if !examine_deposit(conn, alloc, dictionary, at + 1, known, digests)? {
            return Ok(false);
        }
        progress.checked(at + 1, count);
    }
    Ok(true)
}

/// Whether the deposit of a number is whole. What is known of it and its digest are then put into the lists, which are
/// those of the numbers below.
fn examine_deposit<S: Alter>(
    conn: &mut Connection<S>,
    alloc: Global,
    dictionary: &Dictionary,
    number: u32,
    known: &mut Vec<Known>,
    digests: &mut Digests,
) -> Result<bool, TableError>
    requires idle { IsIdle (state S.Store conn.old) }
    requires below { AreBelow digests.old number }
    requires digested { HasCleanDisk (state S.Store conn.old)
        → HoldsDigests (state S.Store conn.old).now number digests.old }
    ensures tested { FindsOut result (λ db. IsWhole db dictionary.now number)
        (state S.Store conn.old) (state S.Store conn.new) }
    ensures put { AddsKnown result dictionary.now number known.old known.new digests.old digests.new
        (state S.Store conn.old) (state S.Store conn.new) }
    ensures quiet { IsStill (state S.Store conn.old) (state S.Store conn.new) (database_fails result) }
{
    let Some(one) = whole_head(conn, alloc, dictionary, number, digests)? else {
        return Ok(false);
    };
    let DigestedHead {
        known: head,
        digest,
    } = one;
    known.push(head)?;
    digests.add(alloc, digest, number)?;
    Ok(true)
}

/// What is known of a number's deposit, with its digest, if that deposit is whole. The digests are those of the numbers
/// below.
fn whole_head<S: Alter>(
    conn: &mut Connection<S>,
    alloc: Global,
    dictionary: &Dictionary,
    number: u32,
    digests: &Digests,
) -> Result<Option<DigestedHead>, TableError>
    requires idle { IsIdle (state S.Store conn.old) }
    requires below { AreBelow digests.now number }
    requires digested { HasCleanDisk (state S.Store conn.old)
        → HoldsDigests (state S.Store conn.old).now number digests.now }
    ensures tested { FindsOneIf result (λ db. IsWhole db dictionary.now number)
        (state S.Store conn.old) (state S.Store conn.new) }
    ensures head { FindsThat result (λ db found. IfSome found (IsDigestedAt db dictionary.now number))
        (state S.Store conn.old) (state S.Store conn.new) }
    ensures quiet { IsStill (state S.Store conn.old) (state S.Store conn.new) (database_fails result) }
{
    let rows = read_numbered(conn, number)?;
    match take_deposit(alloc, number, rows) {
        Ok(kept) => kept_head(conn, alloc, dictionary, number, kept, digests),
        Err(TableError::Store) => Ok(None),
        Err(TableError::NoMemory) => Err(TableError::NoMemory),
    }
}

/// The deposit of a number, which is the one row of the answer. The row is dropped, so that its body is held once.
fn take_deposit(alloc: Global, number: u32, rows: Vec<Row>) -> Result<Kept, TableError>
    ensures read { IfOk result (λ kept. rows.items ≡ given_deposit number (sent_of kept) ∷ []) }
    ensures is_named { IfOk result (λ kept. IsNamed (sent_of kept)) }
    ensures other { result ≡ Err TableError.Store → (d : Sent) → IsNamed d
        → rows.items ≡ given_deposit number d ∷ [] → ⊥ }
{
    deposit_in(alloc, number, &rows)
}

/// What is known of a deposit, with its digest, if the deposit is whole. The digests are those of the numbers below.
fn kept_head<S: Alter>(
    conn: &mut Connection<S>,
    alloc: Global,
    dictionary: &Dictionary,
    number: u32,
    kept: Kept,
    digests: &Digests,
) -> Result<Option<DigestedHead>, TableError>
    requires idle { IsIdle (state S.Store conn.old) }
    ensures tested { FindsOneIf result (λ db. HoldsBody db dictionary.now number (sent_of kept)
        × IsNew db (numbers_under digests.now (own_digest (sent_of kept))) (sent_of kept))
        (state S.Store conn.old) (state S.Store conn.new) }
    ensures head { IfOk result (λ found. IfSome found (IsDigestedFrom dictionary.now (sent_of kept))) }
    ensures quiet { IsStill (state S.Store conn.old) (state S.Store conn.new) (database_fails result) }
{
    let digest = digest_of(&kept.firm, &kept.project, kept.bytes.as_slice());
    let numbers = digests.of(&digest);
    let Some(file) = examine_kept(conn, alloc, dictionary, number, &kept, numbers)? else {
        return Ok(None);
    };
    Ok(Some(DigestedHead {
        known: into_known(kept, file),
        digest,
    }))
}

/// What is known of the deposit's file, if it has no finding, its lines and steps are kept, and none of these numbers is
/// that of an equal deposit.
fn examine_kept<S: Alter>(
    conn: &mut Connection<S>,
    alloc: Global,
    dictionary: &Dictionary,
    number: u32,
    kept: &Kept,
    numbers: &[u32],
) -> Result<Option<KnownFile>, TableError>
    requires idle { IsIdle (state S.Store conn.old) }
    ensures tested { FindsOneIf result (λ db. HoldsBody db dictionary.now number (sent_of kept.now)
        × IsNew db numbers.now (sent_of kept.now))
        (state S.Store conn.old) (state S.Store conn.new) }
    ensures known { IfOk result (λ found. IfSome found (KnowsFile dictionary.now (sent_of kept.now))) }
    ensures quiet { IsStill (state S.Store conn.old) (state S.Store conn.new) (database_fails result) }
{
    let Some(file) = examine_body(conn, alloc, dictionary, number, kept)? else {
        return Ok(None);
    };
    if examine_repeats(conn, alloc, numbers, kept)? {
        Ok(Some(file))
    } else {
        Ok(None)
    }
}

/// Whether no deposit of these numbers is equal to this one.
fn examine_repeats<S: Alter>(
    conn: &mut Connection<S>,
    alloc: Global,
    numbers: &[u32],
    kept: &Kept,
) -> Result<bool, TableError>
    requires idle { IsIdle (state S.Store conn.old) }
    ensures tested { FindsOut result (λ db. IsNew db numbers.now (sent_of kept.now))
        (state S.Store conn.old) (state S.Store conn.new) }
    ensures quiet { IsStill (state S.Store conn.old) (state S.Store conn.new) (database_fails result) }
{
    let repeat = read_equal(
        conn,
        alloc,
        numbers,
        &kept.firm,
        &kept.project,
        kept.bytes.as_slice(),
    )?;
    Ok(repeat.is_none())
}

/// What is known of the deposit's file, if it has no finding and is not too long, and its lines and steps are those that
/// are kept.
fn examine_body<S: Alter>(
    conn: &mut Connection<S>,
    alloc: Global,
    dictionary: &Dictionary,
    number: u32,
    kept: &Kept,
) -> Result<Option<KnownFile>, TableError>
    requires idle { IsIdle (state S.Store conn.old) }
    ensures tested { FindsOneIf result (λ db. HoldsBody db dictionary.now number (sent_of kept.now))
        (state S.Store conn.old) (state S.Store conn.new) }
    ensures known { IfOk result (λ found. IfSome found (KnowsFile dictionary.now (sent_of kept.now))) }
    ensures quiet { IsStill (state S.Store conn.old) (state S.Store conn.new) (database_fails result) }
{
    let bytes = kept.bytes.as_slice();
    if bytes.len() > LIMIT {
        return Ok(None);
    }
    match check(alloc, dictionary, bytes) {
        Ok(file) => examine_checked(conn, alloc, number, &file),
        Err(CheckError::Findings(_found)) => Ok(None),
        Err(CheckError::NoMemory) => Err(TableError::NoMemory),
    }
}

/// What is known of this file, if the lines and steps that are kept of a deposit are its own.
fn examine_checked<S: Alter>(
    conn: &mut Connection<S>,
    alloc: Global,
    number: u32,
    file: &Checked<'_>,
) -> Result<Option<KnownFile>, TableError>
    requires idle { IsIdle (state S.Store conn.old) }
    requires clean { IsClean file.now }
    requires short { length file.now.bytes ≤ LIMIT }
    ensures tested { FindsOneIf result (λ db. HoldsLines db number (kept_rows file.now.groups)
        × HoldsSteps db number file.now.graph.steps)
        (state S.Store conn.old) (state S.Store conn.new) }
    ensures known { IfOk result (λ found. IfSome found (IsKnownOf file.now)) }
    ensures quiet { IsStill (state S.Store conn.old) (state S.Store conn.new) (database_fails result) }
{
    let lines = few_rows(alloc, file)?;
    let known = KnownFile::of(alloc, file, &lines)?;
    if examine_file(conn, number, &lines, file.graph().steps())? {
        Ok(Some(known))
    } else {
        Ok(None)
    }
}

/// Whether these are the lines and steps that are kept of a deposit.
fn examine_file<S: Alter>(
    conn: &mut Connection<S>,
    number: u32,
    lines: &[KeptRow],
    steps: &[(u32, u32)],
) -> Result<bool, TableError>
    requires idle { IsIdle (state S.Store conn.old) }
    requires few { length lines.now ≤ 4294967295 }
    requires rising { IsAscending IsBefore steps.now }
    ensures tested { FindsOut result (λ db. HoldsLines db number lines.now × HoldsSteps db number steps.now)
        (state S.Store conn.old) (state S.Store conn.new) }
    ensures quiet { IsStill (state S.Store conn.old) (state S.Store conn.new) (database_fails result) }
{
    if examine_lines(conn, number, lines)? {
        examine_steps(conn, number, steps)
    } else {
        Ok(false)
    }
}

/// Whether these are the lines that are kept of a deposit.
fn examine_lines<S: Alter>(
    conn: &mut Connection<S>,
    number: u32,
    lines: &[KeptRow],
) -> Result<bool, TableError>
    requires idle { IsIdle (state S.Store conn.old) }
    requires few { length lines.now ≤ 4294967295 }
    ensures tested { FindsOut result (λ db. HoldsLines db number lines.now)
        (state S.Store conn.old) (state S.Store conn.new) }
    ensures quiet { IsStill (state S.Store conn.old) (state S.Store conn.new) (database_fails result) }
{
    let mut same = SameLines {
        lines,
        at: 0,
        is: true,
    };
    take_shown(
        conn,
        "SELECT seq, grp, kind, line FROM lines WHERE deposit = ?1 ORDER BY seq",
        params![number],
        &mut same,
    )?;
    Ok(are_all(same.is, same.at, lines.len()))
}

/// Whether these are the steps that are kept of a deposit.
fn examine_steps<S: Alter>(
    conn: &mut Connection<S>,
    number: u32,
    steps: &[(u32, u32)],
) -> Result<bool, TableError>
    requires idle { IsIdle (state S.Store conn.old) }
    requires rising { IsAscending IsBefore steps.now }
    ensures tested { FindsOut result (λ db. HoldsSteps db number steps.now)
        (state S.Store conn.old) (state S.Store conn.new) }
    ensures quiet { IsStill (state S.Store conn.old) (state S.Store conn.new) (database_fails result) }
{
    let mut same = SameSteps {
        steps,
        at: 0,
        is: true,
    };
    take_shown(
        conn,
        "SELECT child, target FROM steps WHERE deposit = ?1 ORDER BY child, target",
        params![number],
        &mut same,
    )?;
    Ok(are_all(same.is, same.at, steps.len()))
}
