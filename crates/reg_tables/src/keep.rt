//! A store of deposits over a database.

ghost use Rattle.std.specs.Prelude.{◌≡◌, length, false};
ghost use Rattle.reg_tables.specs.Private.Errors.{keep_answer, database_fails};
ghost use Rattle.reg_tables.specs.Private.KeepLaws.{few_at, fit_at, remains_at, settled_at, stays_at, unbroken_at};
ghost use Rattle.sqlite.specs.State.{HasCleanDisk};
ghost use Rattle.sqlite.specs.Held.{state};
ghost use Rattle.reg_tables.specs.Private.Memory.{Agrees};
ghost use Rattle.reg_tables.specs.Register.{deposits_in, KeepsIfClean, KeepsRegister, LeavesBroken, LeavesList, text_in};

use crate::error::TableError;
use crate::memory::Memory;
use crate::memory::digests::digest_of;
use crate::memory::file::KnownFile;
use crate::read::equal::read_equal;
use crate::read::graph::read_graph;
use crate::read::lines::read_lines;
use crate::read::read_deposit;
use crate::write::add_checked;
use crate::write::change::change_tables;
use crate::write::lines::few_rows;
use crate::write::mark::NewMark;
use ags_check::Checked;
use ags_dict::Dictionary;
use ags_links::Graph;
use reg_policy::{Day, Name};
use reg_store::{HeadedRow, Keep, KeepError, Kept, KeptHead, KeptRow, MOST, NextStart};
use sqlite::{Alter, Connection};
use std::alloc::Global;

/// Deposits in a database.
pub struct SqlKeep<S: Alter> {
    pub(crate) connection: Connection<S>,
    pub(crate) dictionary: Dictionary,
    pub(crate) memory: Memory,
    pub(crate) has_failed: bool,
    pub(crate) alloc: Global,
    ghost idle: { connection.in_transaction ≡ false },
    ghost kept: { has_failed ≡ false → HasCleanDisk (state S.Store connection)
        → ∥ KeepsRegister (state S.Store connection) dictionary (length memory.known.items) ∥₁ },
    ghost agrees: { has_failed ≡ false → HasCleanDisk (state S.Store connection)
        → Agrees memory dictionary (deposits_in (state S.Store connection).committed.trees) },
}

impl<S: Alter> Keep for SqlKeep<S> {
    ghost deposits = { λ k. deposits_in (state S.Store k.connection).committed.trees };

    ghost dictionary = { λ k. k.dictionary };

    ghost text = { λ k. text_in (state S.Store k.connection).committed.trees };

    ghost limit = { λ _. 999999 };

    ghost has_failed = { λ k. k.has_failed };

    ghost may_leave = { λ k. LeavesList (state S.Store k.connection).may_leave k.dictionary };

    ghost may_break = { λ k. LeavesBroken (state S.Store k.connection).may_leave k.dictionary };

    ghost is_sound = { λ k. HasCleanDisk (state S.Store k.connection) };

    fn find(
        &mut self,
        firm: &Name,
        project: &Name,
        bytes: &[u8],
    ) -> Result<Option<u32>, KeepError> {
        let digest = digest_of(firm, project, bytes);
        let numbers = self.memory.held_with_digest(&digest);
        let found = read_equal(
            &mut self.connection,
            self.alloc,
            numbers,
            firm,
            project,
            bytes,
        );
        answer(found, &mut self.has_failed)
    }

    fn add(
        &mut self,
        firm: &Name,
        project: &Name,
        embargo: Day,
        checked: &Checked<'_>,
    ) -> Result<u32, KeepError> {
        let count = self.memory.count();
        if count >= MOST {
            return Err(KeepError::Full);
        }
        let rows = few_rows(self.alloc, checked)?;
        let file = KnownFile::of(self.alloc, checked, &rows)?;
        let room = self
            .memory
            .make_room(self.alloc, firm, project, embargo, checked.bytes(), file);
        let Ok(coming) = room else {
            return Err(KeepError::NoMemory);
        };
        let added = add_checked(
            &mut self.connection,
            count + 1,
            firm,
            project,
            embargo,
            checked,
            &rows,
        );
        match added {
            Ok(()) => {
                self.memory.push(coming);
                Ok(count + 1)
            }
            Err(error) => answer(Err(error), &mut self.has_failed),
        }
    }

    fn withdraw(&mut self, n: u32) -> Result<(), KeepError> {
        match change_tables(&mut self.connection, &NewMark { number: n }) {
            Ok(()) => {
                self.memory.mark(n);
                Ok(())
            }
            Err(error) => answer(Err(error), &mut self.has_failed),
        }
    }

    fn deposit(&mut self, n: u32) -> Result<Kept, KeepError> {
        let found = read_deposit(&mut self.connection, self.alloc, n);
        let mut kept = answer(found, &mut self.has_failed)?;
        kept.withdrawn = self.memory.is_withdrawn(n);
        Ok(kept)
    }

    fn head(&mut self, n: u32) -> Result<KeptHead, KeepError> {
        let found = self.memory.held_head(n);
        answer(found, &mut self.has_failed)
    }

    fn rows(&mut self, n: u32) -> Result<Vec<KeptRow>, KeepError> {
        let found = read_lines(&mut self.connection, self.alloc, n);
        answer(found, &mut self.has_failed)
    }

    fn steps(&mut self, n: u32) -> Result<Graph, KeepError> {
        let rows = self.memory.row_count(n);
        let found = read_graph(&mut self.connection, self.alloc, n, rows);
        answer(found, &mut self.has_failed)
    }

    fn project_rows(&mut self, n: u32) -> Result<Vec<HeadedRow>, KeepError> {
        let found = self.memory.held_project(self.alloc, n);
        answer(found, &mut self.has_failed)
    }

    fn numbers(&mut self, project: &Name) -> Result<Vec<u32>, KeepError> {
        let numbers = self.memory.held_numbers(self.alloc, project)?;
        Ok(numbers)
    }

    fn count(&self) -> u32 {
        self.memory.count()
    }

    fn limit(&self) -> u32 {
        MOST
    }

    fn dictionary(&self) -> &Dictionary {
        &self.dictionary
    }

    ghost settled = { λ k bytes list clean works left. settled_at (k.kept works clean)
        (S.Store.settled k.connection.store) bytes list left };

    ghost stays = { λ k clean works. stays_at (k.kept works clean) (S.Store.stays k.connection.store) };

    ghost unbroken = { λ k clean works left. unbroken_at (k.kept works clean)
        (S.Store.settled k.connection.store) left };

    ghost remains = { λ k clean whole none. remains_at _ _ (S.Store.survives k.connection.store clean) whole none };

    ghost fit = { λ k clean works. fit_at (k.kept works clean) };

    ghost few = { λ k clean works. few_at (k.kept works clean) };
}

impl<S: Alter> NextStart for SqlKeep<S> {
    fn is_nearly_full(&self) -> bool {
        self.memory.is_nearly_full(self.alloc)
    }
}

impl<S: Alter> SqlKeep<S> {
    /// The connection, whose tables are the register of this list where the store has not failed and the disk is clean.
    pub fn into_connection(self) -> Connection<S>
        ensures connection { result ≡ self.connection }
        ensures kept { self.has_failed ≡ false
            → KeepsIfClean (state S.Store result) self.dictionary (length self.memory.known.items) }
    {
        let SqlKeep {
            connection,
            dictionary,
            memory,
            has_failed: _,
            alloc: _,
        } = self;
        drop_known(dictionary, memory);
        connection
    }
}

// Written out, so that no crate that drops one proves again how its parts are dropped.
impl<S: Alter + Drop> Drop for SqlKeep<S> {
    fn drop(self) {
        let SqlKeep {
            connection: _,
            dictionary: _,
            memory: _,
            has_failed: _,
            alloc: _,
        } = self;
    }
}

/// What a call answers, and whether the store failed in it.
fn answer<T>(outcome: Result<T, TableError>, has_failed: &mut bool) -> Result<T, KeepError>
    ensures answer { result ≡ keep_answer outcome }
    ensures failing { has_failed.new ≡ database_fails outcome }
{
    match outcome {
        Ok(found) => {
            *has_failed = false;
            Ok(found)
        }
        Err(error) => {
            *has_failed = matches!(error, TableError::Store);
            Err(KeepError::from(error))
        }
    }
}

/// Drops the dictionary, and what is known of the deposits.
fn drop_known(_dictionary: Dictionary, _memory: Memory) {}
