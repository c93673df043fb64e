//! A store in memory.

ghost use Rattle.std.specs.Prelude.{◌≡◌, ◌<◌, ◌≤◌, [], IfOk, All, false, ⊤, length, map, refl};
ghost use Rattle.reg_store.specs.Keep.{deposit_of, sent_of, IsHeadOf};
ghost use Rattle.reg_store.specs.Sent.{number_of, numbers_from};
ghost use Rattle.reg_store.specs.Deposit.{sents};
ghost use Rattle.reg_store.specs.Fit.{IsFit, IsFileOf};
ghost use Rattle.reg_store.specs.Reading.{HasGraph, HasKeptRows, HasKind, HasProjectRows, OfFile};
ghost use Rattle.reg_store.specs.PlainLaws.{few_of, fit_of};

use crate::keep::{HeadedRow, Keep, KeepError, Kept, KeptHead, KeptRow, MOST, is_equal};
use crate::next_start::NextStart;
use crate::project::project_rows_in;
use crate::rows::kept_rows;
use ags_check::{CheckError, Checked, check};
use ags_dict::Dictionary;
use ags_links::Graph;
use ags_text::copy;
use reg_policy::{Day, Name};
use std::alloc::{AllocError, Global};

/// A store in memory. It never answers `Store`.
pub struct PlainKeep {
    kept: Vec<Kept>,
    dictionary: Dictionary,
    limit: u32,
    alloc: Global,
    ghost within: { length kept.items ≤ limit },
    ghost few: { limit ≤ 999999 },
    ghost fit: { ∥ All (IsFit dictionary) (sents (map deposit_of kept.items)) ∥₁ },
}

// Written out, so that no crate that lets one go proves again how its parts are dropped.
impl Drop for PlainKeep {
    fn drop(self) {
        let PlainKeep {
            kept: _,
            dictionary: _,
            limit: _,
            alloc: _,
        } = self;
    }
}

impl PlainKeep {
    ghost use Rattle.reg_store.specs.Plain.{deposits_of, dictionary_of, limit_of};

    /// An empty register under a dictionary, of at most 999,999 deposits.
    pub fn new(alloc: Global, dictionary: Dictionary) -> PlainKeep
        ensures empty { deposits_of result ≡ [] }
        ensures dictionary { dictionary_of result ≡ dictionary }
        ensures limit { limit_of result ≡ 999999 }
    {
        PlainKeep::with_limit(alloc, dictionary, MOST)
    }

    /// An empty register under a dictionary, of at most so many deposits.
    pub fn with_limit(alloc: Global, dictionary: Dictionary, limit: u32) -> PlainKeep
        requires least { 0 < limit }
        requires most { limit ≤ 999999 }
        ensures empty { deposits_of result ≡ [] }
        ensures dictionary { dictionary_of result ≡ dictionary }
        ensures limit { limit_of result ≡ limit }
    {
        PlainKeep {
            kept: Vec::new(alloc),
            dictionary,
            limit,
            alloc,
        }
    }
}

impl Keep for PlainKeep {
    ghost use Rattle.reg_store.specs.Plain.{deposits_of, dictionary_of, limit_of};

    ghost deposits = { deposits_of };

    ghost dictionary = { dictionary_of };

    // It does not keep the bytes of its dictionary.
    ghost text = { λ _. [] };

    ghost limit = { limit_of };

    ghost has_failed = { λ _. false };

    // Memory keeps its list, and loses none of it while the program runs.
    ghost may_leave = { λ k bytes list. (bytes ≡ []) × (list ≡ deposits_of k) };

    ghost may_break = { λ _. ⊥ };

    ghost is_sound = { λ _. ⊤ };

    fn find(
        &mut self,
        firm: &Name,
        project: &Name,
        bytes: &[u8],
    ) -> Result<Option<u32>, KeepError> {
        Ok(find_in(self.kept.as_slice(), firm, project, bytes))
    }

    fn add(
        &mut self,
        firm: &Name,
        project: &Name,
        embargo: Day,
        checked: &Checked<'_>,
    ) -> Result<u32, KeepError> {
        if self.kept.len() >= self.limit as usize {
            return Err(KeepError::Full);
        }
        let kept = kept_of(self.alloc, firm, project, embargo, checked.bytes(), false)?;
        match self.kept.push(kept) {
            Ok(()) => Ok(self.kept.len() as u32),
            Err(_) => Err(KeepError::NoMemory),
        }
    }

    fn withdraw(&mut self, n: u32) -> Result<(), KeepError> {
        let kept = &mut self.kept[n as usize - 1];
        kept.withdrawn = true;
        Ok(())
    }

    fn deposit(&mut self, n: u32) -> Result<Kept, KeepError> {
        let kept = &self.kept[n as usize - 1];
        let copied = kept_of(
            self.alloc,
            &kept.firm,
            &kept.project,
            kept.embargo,
            kept.bytes.as_slice(),
            kept.withdrawn,
        )?;
        Ok(copied)
    }

    fn head(&mut self, n: u32) -> Result<KeptHead, KeepError> {
        let head = copied_head(&self.kept[n as usize - 1])?;
        Ok(head)
    }

    fn rows(&mut self, n: u32) -> Result<Vec<KeptRow>, KeepError> {
        let rows = checked_rows(self.alloc, &self.dictionary, &self.kept[n as usize - 1])?;
        Ok(rows)
    }

    fn steps(&mut self, n: u32) -> Result<Graph, KeepError> {
        let graph = checked_steps(self.alloc, &self.dictionary, &self.kept[n as usize - 1])?;
        Ok(graph)
    }

    fn project_rows(&mut self, n: u32) -> Result<Vec<HeadedRow>, KeepError> {
        let found = checked_project(self.alloc, &self.dictionary, &self.kept[n as usize - 1])?;
        Ok(found)
    }

    fn numbers(&mut self, project: &Name) -> Result<Vec<u32>, KeepError> {
        let numbers = numbers_in(self.alloc, self.kept.as_slice(), project)?;
        Ok(numbers)
    }

    fn count(&self) -> u32 {
        self.kept.len() as u32
    }

    fn limit(&self) -> u32 {
        self.limit
    }

    fn dictionary(&self) -> &Dictionary {
        &self.dictionary
    }

    ghost settled = { λ _ _ _ _ _ same. same };

    ghost stays = { λ _ _ _. ∣ (refl, refl) ∣₁ };

    ghost unbroken = { λ _ _ _ none. none };

    ghost remains = { λ k _ _ none. none [] (deposits_of k) (refl, refl) };

    ghost fit = { λ k _ _. fit_of k.dictionary (sents (deposits_of k)) k.fit };

    ghost few = { λ k _ _. few_of k.kept.items k.limit k.within k.few };
}

/// The number of the first equal deposit, from 1.
fn find_in(kept: &[Kept], firm: &Name, project: &Name, bytes: &[u8]) -> Option<u32>
    requires { length kept.now ≤ 999999 }
    ensures { result ≡ number_of firm.now project.now bytes.now (sents (map deposit_of kept.now)) }
{
    let mut number: u32 = 0;
    for one in kept {
        number += 1;
        if is_equal(one, firm, project, bytes) {
            return Some(number);
        }
    }
    None
}

/// A deposit of copies.
fn kept_of(
    alloc: Global,
    firm: &Name,
    project: &Name,
    embargo: Day,
    bytes: &[u8],
    withdrawn: bool,
) -> Result<Kept, AllocError>
    ensures { IfOk result (λ kept. kept ≡ record {
      firm = firm.now;
      project = project.now;
      embargo = embargo;
      bytes = bytes.now;
      withdrawn = withdrawn;
    }) }
{
    Ok(Kept {
        firm: firm.clone()?,
        project: project.clone()?,
        embargo,
        bytes: copy(alloc, bytes)?,
        withdrawn,
    })
}

/// The head of a deposit, copied.
fn copied_head(kept: &Kept) -> Result<KeptHead, AllocError>
    ensures { IfOk result (IsHeadOf (deposit_of kept.now)) }
{
    Ok(KeptHead {
        firm: kept.firm.clone()?,
        project: kept.project.clone()?,
        embargo: kept.embargo,
        withdrawn: kept.withdrawn,
    })
}

/// The rows of a deposit's file.
fn checked_rows(
    alloc: Global,
    dictionary: &Dictionary,
    kept: &Kept,
) -> Result<Vec<KeptRow>, AllocError>
    requires { IsFit dictionary.now (sent_of kept.now) }
    ensures rows { IfOk result (λ rows. OfFile dictionary.now (sent_of kept.now) (HasKeptRows rows)) }
    ensures kinds { IfOk result (λ rows. All HasKind rows.items) }
{
    let checked = recheck(alloc, dictionary, kept)?;
    kept_rows(alloc, checked.scan().groups())
}

/// The file of a deposit, checked anew: it has no finding, as when it was taken.
fn recheck<'k>(
    alloc: Global,
    dictionary: &Dictionary,
    kept: &'k Kept,
) -> Result<Checked<'k>, AllocError>
    requires { IsFit dictionary.now (sent_of kept.now) }
    ensures { IfOk result (IsFileOf dictionary.now (sent_of kept.now)) }
{
    match check(alloc, dictionary, kept.bytes.as_slice()) {
        Ok(checked) => Ok(checked),
        Err(CheckError::Findings(_)) => unreachable!(),
        Err(CheckError::NoMemory) => Err(AllocError),
    }
}

/// The steps between the DATA rows of a deposit's file.
fn checked_steps(alloc: Global, dictionary: &Dictionary, kept: &Kept) -> Result<Graph, AllocError>
    requires { IsFit dictionary.now (sent_of kept.now) }
    ensures { IfOk result (λ graph. OfFile dictionary.now (sent_of kept.now) (HasGraph graph)) }
{
    let checked = recheck(alloc, dictionary, kept)?;
    copy_graph(alloc, checked.graph())
}

/// The row of PROJ of a deposit's file, and the rows that it reaches.
fn checked_project(
    alloc: Global,
    dictionary: &Dictionary,
    kept: &Kept,
) -> Result<Vec<HeadedRow>, AllocError>
    requires { IsFit dictionary.now (sent_of kept.now) }
    ensures { IfOk result (λ found. OfFile dictionary.now (sent_of kept.now) (HasProjectRows found)) }
{
    let checked = recheck(alloc, dictionary, kept)?;
    let rows = kept_rows(alloc, checked.scan().groups())?;
    project_rows_in(alloc, &rows, checked.graph())
}

/// Nothing opens it again.
impl NextStart for PlainKeep {
    fn is_nearly_full(&self) -> bool {
        false
    }
}

/// The numbers of a project's deposits, rising.
fn numbers_in(alloc: Global, kept: &[Kept], project: &Name) -> Result<Vec<u32>, AllocError>
    requires { length kept.now ≤ 999999 }
    ensures { IfOk result (λ ns. ns.items ≡ numbers_from 1 project.now (sents (map deposit_of kept.now))) }
{
    let mut numbers = Vec::new(alloc);
    let mut number: u32 = 0;
    for one in kept {
        number += 1;
        if one.project == *project {
            numbers.push(number)?;
        }
    }
    Ok(numbers)
}

/// A copy of the graph. It is refused only when out of memory.
pub fn copy_graph(alloc: Global, graph: &Graph) -> Result<Graph, AllocError>
    ensures { IfOk result (λ copied. copied ≡ graph.now) }
{
    let steps = Vec::from_slice(alloc, graph.steps())?;
    match Graph::new(graph.rows(), steps) {
        Some(copied) => Ok(copied),
        None => unreachable!(),
    }
}
