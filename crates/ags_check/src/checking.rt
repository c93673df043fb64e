//! Checking a file.

ghost use Rattle.std.specs.Prelude.{◌≡◌, ◌≤◌, [], length, Ok, IfOk, OnOk};
ghost use Rattle.ags_rows.specs.Collecting.{OneOf};
ghost use Rattle.ags_rows.specs.Contents.{contents_of};
ghost use Rattle.ags_rows.specs.Findings.{AreExactly, FirstFound, RowFindings, FileGroups};
ghost use Rattle.ags_check.specs.declared.checking.CheckError.TheVariants.{NoMemory};
ghost use Rattle.ags_links.specs.Steps.{IsGraphOf};
ghost use Rattle.ags_check.specs.Findings.{IsClear, Findings, HasFindings, IsClean, dictionary_phases};
ghost use Rattle.ags_check.specs.Header.{StandsInDictionary};
ghost use Rattle.ags_check.specs.RowRules.{StandsInEntries};

use crate::checked::Checked;
use crate::header::header_findings;
use crate::rows::entry_findings;
use ags_dict::Dictionary;
use ags_links::{Graph, Index};
use ags_rows::{FindingList, READABLE, RowsError, Scan};
use std::alloc::{AllocError, Global};
use std::fmt::{self, Debug, Formatter, Write};
use thiserror::Error;

/// The file, if it breaks no rule under the dictionary, or all findings of the first phase that has any.
pub fn check<'a>(
    alloc: Global,
    dictionary: &Dictionary,
    bytes: &'a [u8],
) -> Result<Checked<'a>, CheckError>
    requires { length bytes.now ≤ READABLE }
    ensures bytes { IfOk result (λ checked. checked.bytes ≡ bytes.now) }
    ensures given { IfOk result (λ checked. checked.given ≡ dictionary.now) }
    ensures clean { IfOk result IsClean }
    ensures findings { HasFindings result (Findings dictionary.now bytes.now) }
{
    // the groups are lent, so that few places hold what is proved of them
    let scan = read(alloc, bytes)?;
    let extended = dictionary.extend(&scan)?;
    let graph = graph_of_groups(alloc, dictionary, &extended, &scan)?;
    Ok(Checked::of(dictionary, bytes, scan, extended, graph))
}

/// The findings of the file under the dictionary: those of the first phase that has any, none where it is clean.
/// The steps between its rows are not listed for them.
pub fn findings(
    alloc: Global,
    dictionary: &Dictionary,
    bytes: &[u8],
) -> Result<FindingList, AllocError>
    requires { length bytes.now ≤ READABLE }
    ensures { IfOk result (Findings dictionary.now bytes.now) }
{
    match check_phases(alloc, dictionary, bytes) {
        Ok(()) => Ok(FindingList::none(alloc)),
        Err(CheckError::Findings(found)) => Ok(found),
        Err(CheckError::NoMemory) => Err(AllocError),
    }
}

/// Why a file is not taken.
#[derive(Drop, Error)]
pub enum CheckError {
    /// All findings of the first phase that has any, in order.
    #[error("the file has findings")]
    Findings(FindingList),
    /// The check is out of memory.
    #[error("out of memory")]
    NoMemory,
}

impl From<AllocError> for CheckError {
    ghost from_gives = { λ _ e. e ≡ NoMemory };

    fn from(_e: AllocError) -> CheckError {
        CheckError::NoMemory
    }
}

impl Debug for CheckError {
    fn fmt<W: Write>(&self, f: &mut Formatter<W>) -> Result<(), fmt::Error> {
        match self {
            CheckError::Findings(found) => write!(f, "Findings({})", found.len()),
            CheckError::NoMemory => f.write_str("NoMemory"),
        }
    }
}

/// The groups of a file, or what its rows break.
fn read<'a>(alloc: Global, bytes: &'a [u8]) -> Result<Scan<'a>, CheckError>
    requires { length bytes.now ≤ READABLE }
    ensures groups { IfOk result (λ scan. FileGroups bytes.now scan) }
    ensures findings { HasFindings result (RowFindings bytes.now) }
{
    match Scan::read(alloc, bytes) {
        Ok(scan) => Ok(scan),
        Err(RowsError::Findings(found)) => Err(CheckError::Findings(found)),
        Err(RowsError::NoMemory) => Err(CheckError::NoMemory),
    }
}

/// Whether the file breaks no rule under the dictionary, or all findings of the first phase that has any.
fn check_phases(alloc: Global, dictionary: &Dictionary, bytes: &[u8]) -> Result<(), CheckError>
    requires { length bytes.now ≤ READABLE }
    ensures clean { OnOk result (Findings dictionary.now bytes.now []) }
    ensures findings { HasFindings result (Findings dictionary.now bytes.now) }
{
    let scan = read(alloc, bytes)?;
    let extended = dictionary.extend(&scan)?;
    clear_index(alloc, dictionary, &extended, &scan)?;
    Ok(())
}

/// The steps between the rows, if the groups break nothing of the last two phases, or all findings of the first of them
/// that has any.
fn graph_of_groups(
    alloc: Global,
    given: &Dictionary,
    extended: &Dictionary,
    scan: &Scan,
) -> Result<Graph, CheckError>
    ensures graph { IfOk result (IsGraphOf (record { contents = contents_of scan.now; entries = extended.now })) }
    ensures headers { OnOk result (IsClear (StandsInDictionary given.now extended.now scan.now)) }
    ensures rows { OnOk result (IsClear (StandsInEntries extended.now scan.now)) }
    ensures findings { HasFindings result (FirstFound (dictionary_phases given.now extended.now scan.now)) }
{
    let index = clear_index(alloc, given, extended, scan)?;
    let graph = Graph::of(alloc, &index)?;
    Ok(graph)
}

/// The index of the groups, if they break nothing of the last two phases, or all findings of the first of them that has
/// any.
fn clear_index<'s, 'f, 'd>(
    alloc: Global,
    given: &Dictionary,
    extended: &'d Dictionary,
    scan: &'s Scan<'f>,
) -> Result<Index<'s, 'f, 'd>, CheckError>
    ensures contents { IfOk result (λ index. index.contents ≡ contents_of scan.now) }
    ensures entries { IfOk result (λ index. index.entries ≡ extended.now) }
    ensures headers { OnOk result (IsClear (StandsInDictionary given.now extended.now scan.now)) }
    ensures rows { OnOk result (IsClear (StandsInEntries extended.now scan.now)) }
    ensures findings { HasFindings result (FirstFound (dictionary_phases given.now extended.now scan.now)) }
{
    if let Err(e) = check_headers(alloc, given, extended, scan) {
        return Err(e);
    }
    let index = Index::build(alloc, scan, extended)?;
    if let Err(e) = check_rows(alloc, extended, scan, &index) {
        return Err(e);
    }
    Ok(index)
}

/// Whether the groups break nothing of the fourth phase, or all its findings.
fn check_headers(
    alloc: Global,
    given: &Dictionary,
    extended: &Dictionary,
    scan: &Scan,
) -> Result<(), CheckError>
    ensures clear { OnOk result (IsClear (StandsInDictionary given.now extended.now scan.now)) }
    ensures findings { HasFindings result (AreExactly (StandsInDictionary given.now extended.now scan.now)) }
{
    phase(header_findings(alloc, given, extended, scan.groups()))
}

/// Whether the rows break nothing of the fifth phase, or all its findings.
fn check_rows(
    alloc: Global,
    dictionary: &Dictionary,
    scan: &Scan,
    index: &Index,
) -> Result<(), CheckError>
    requires contents { index.now.contents ≡ contents_of scan.now }
    requires entries { index.now.entries ≡ dictionary.now }
    ensures clear { OnOk result (IsClear (StandsInEntries dictionary.now scan.now)) }
    ensures findings { HasFindings result (AreExactly (StandsInEntries dictionary.now scan.now)) }
{
    phase(entry_findings(alloc, dictionary, index, scan.groups()))
}

/// Whether a phase has no finding, or all its findings.
fn phase(found: Result<FindingList, AllocError>) -> Result<(), CheckError>
    ensures clear { OnOk result (found ≡ Ok []) }
    ensures findings { HasFindings result (λ all. found ≡ Ok all) }
{
    match found {
        Ok(found) if found.is_empty() => Ok(()),
        Ok(found) => Err(CheckError::Findings(found)),
        Err(_) => Err(CheckError::NoMemory),
    }
}
