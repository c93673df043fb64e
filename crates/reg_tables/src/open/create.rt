//! Makes a register in a database that has no table, index or view.

ghost use Rattle.std.specs.Prelude.{◌≡◌, ◌≢◌, ◌≤◌, [], false, length, None, Ok, IfOk, IfErr, IfSome, IsTrue, OnOk};
ghost use Rattle.std.specs.Prelude.{OnErr};
ghost use Rattle.sqlite.specs.State.{HasCleanDisk};
ghost use Rattle.sqlite.specs.Held.{state};
ghost use Rattle.sqlite.specs.Steps.{over_memory};
ghost use Rattle.sqlite.specs.Files.{file_state};
ghost use Rattle.sqlite.specs.WalFiles.{image_at};
ghost use Rattle.ags_dict.specs.Reading.{IsDictionary, ReadsDictionary};
ghost use Rattle.reg_tables.specs.Tables.{no_schema};
ghost use Rattle.reg_tables.specs.Creates.{HasNoDeposit, IsEmptyRegister, ShowsEmptyRegister, SurvivesMaking};
ghost use Rattle.reg_tables.specs.Making.{AreDictionary, RefusesBytes, SurvivesRefusal};
ghost use Rattle.reg_tables.specs.Private.Commits.{CommitsAll};
ghost use Rattle.reg_tables.specs.Quiet.{StaysIfClean, StaysIfOpen};
ghost use Rattle.reg_tables.specs.Register.{deposits_in};
ghost use Rattle.reg_tables.specs.Opened.{FindsEmpty, FindsNotEmpty, ShowsFiles};

use crate::error::{CreateError, TableError};
use crate::keep::SqlKeep;
use crate::memory::Memory;
use crate::open::connect;
use crate::open::new_tables::NewTables;
use crate::schema::is_vacant;
use crate::write::change::change_tables;
use ags_dict::{DictError, Dictionary};
use ags_rows::READABLE;
use sqlite::{Alter, Connection, FileFrom, FileStore, MemStore, Start};
use std::alloc::Global;

impl<S: Alter> SqlKeep<S> {
    /// An empty register in a database that had no table, index or view, under the dictionary that the bytes are.
    ///
    /// `NotEmpty` and `Store` come only where the bytes are a dictionary: `NotEmpty` only where there was a table, an
    /// index or a view, `Store` only where there was none. A connection in a transaction is answered `Store`, where
    /// nothing else is refused first; no clause says so. The rest holds where the disk is clean at the end. The
    /// register has no deposit. After a refusal other than `Store` the connection is as before; after `Store`, one that
    /// comes back open shows the tables from before. A crash leaves what it could leave before; at `Ok` and at `Store`
    /// also a register of no deposits, where there was no table.
    pub fn create_in(
        alloc: Global,
        connection: Connection<S>,
        bytes: &[u8],
    ) -> Result<SqlKeep<S>, (CreateError, Connection<S>)>
        requires short { length bytes.now ≤ READABLE }

        // The new register at success, that there was no table, index or view, and what a crash may leave.
        ensures empty { IfOk result (λ k. HasNoDeposit (state S.Store k.connection)) }
        ensures dictionary { IfOk result (λ k. ReadsDictionary bytes.now (Ok k.dictionary)) }
        ensures register { IfOk result (λ k. ShowsEmptyRegister bytes.now (state S.Store k.connection)) }
        ensures blank { IfOk result (λ _. (state S.Store connection).now.schema ≡ no_schema) }
        ensures working { IfOk result (λ k. k.has_failed ≡ false) }
        ensures made { IfOk result (λ k. SurvivesMaking bytes.now
            (state S.Store connection) (state S.Store k.connection)) }

        // Each refusal, by what the bytes and the database were.
        ensures refused { IfErr result (λ e. RefusesBytes bytes.now e.0) }
        ensures not_empty { IfErr result (λ e. e.0 ≡ CreateError.NotEmpty
            → (state S.Store connection).now.schema ≢ no_schema) }
        ensures vacant { IfErr result (λ e. e.0 ≡ CreateError.Store
            → (state S.Store connection).now.schema ≡ no_schema) }

        // The connection that comes with a refusal, and what a crash may leave.
        ensures same { IfErr result (λ e. e.0 ≢ CreateError.Store
            → StaysIfClean (state S.Store connection) (state S.Store e.1)) }
        ensures still { IfErr result (λ e. StaysIfOpen (state S.Store connection) (state S.Store e.1)) }
        ensures left { IfErr result (λ e. SurvivesRefusal e.0 bytes.now
            (state S.Store connection) (state S.Store e.1)) }
    {
        match dictionary_from(alloc, bytes) {
            Ok(dictionary) => SqlKeep::make(alloc, connection, dictionary, bytes),
            Err(error) => Err((error, connection)),
        }
    }

    /// An empty register under a dictionary that was read.
    fn make(
        alloc: Global,
        mut connection: Connection<S>,
        dictionary: Dictionary,
        bytes: &[u8],
    ) -> Result<SqlKeep<S>, (CreateError, Connection<S>)>
        requires short { length bytes.now ≤ READABLE }
        requires read { IsDictionary bytes.now dictionary }

        // The new register at success, that there was no table, index or view, and what a crash may leave.
        ensures empty { IfOk result (λ k. HasNoDeposit (state S.Store k.connection)) }
        ensures dictionary { IfOk result (λ k. k.dictionary ≡ dictionary) }
        ensures register { IfOk result (λ k. ShowsEmptyRegister bytes.entry.now (state S.Store k.connection)) }
        ensures blank { IfOk result (λ _. (state S.Store connection).now.schema ≡ no_schema) }
        ensures working { IfOk result (λ k. k.has_failed ≡ false) }
        ensures made { IfOk result (λ k. SurvivesMaking bytes.entry.now
            (state S.Store connection) (state S.Store k.connection)) }

        // Each refusal, by what the bytes and the database were.
        ensures refused { IfErr result (λ e. RefusesBytes bytes.entry.now e.0) }
        ensures not_empty { IfErr result (λ e. e.0 ≡ CreateError.NotEmpty
            → (state S.Store connection).now.schema ≢ no_schema) }
        ensures vacant { IfErr result (λ e. e.0 ≡ CreateError.Store
            → (state S.Store connection).now.schema ≡ no_schema) }

        // The connection that comes with a refusal, and what a crash may leave.
        ensures same { IfErr result (λ e. e.0 ≢ CreateError.Store
            → StaysIfClean (state S.Store connection) (state S.Store e.1)) }
        ensures still { IfErr result (λ e. StaysIfOpen (state S.Store connection) (state S.Store e.1)) }
        ensures left { IfErr result (λ e. SurvivesRefusal e.0 bytes.entry.now
            (state S.Store connection) (state S.Store e.1)) }
    {
        match fill(&mut connection, alloc, bytes) {
            Ok(()) => Ok(SqlKeep {
                connection,
                dictionary,
                memory: Memory::new(alloc, bytes.len()),
                has_failed: false,
                alloc,
            }),
            Err(error) => Err((error, connection)),
        }
    }
}

impl SqlKeep<MemStore> {
    /// An empty register in memory, under the dictionary that the bytes are.
    pub fn in_memory(alloc: Global, bytes: &[u8]) -> Result<SqlKeep<MemStore>, CreateError>
        requires short { length bytes.now ≤ READABLE }

        // The new register at success.
        ensures empty { IfOk result (λ k. deposits_in (state over_memory k.connection).committed.trees ≡ []) }
        ensures dictionary { IfOk result (λ k. ReadsDictionary bytes.now (Ok k.dictionary)) }
        ensures register { IfOk result (λ k. IsEmptyRegister bytes.now (state over_memory k.connection).now) }
        ensures working { IfOk result (λ k. k.has_failed ≡ false) }

        // Each refusal, by what the bytes were, and the one that never comes.
        ensures refused { IfErr result (RefusesBytes bytes.now) }
        ensures named { IfErr result (λ e. e ≢ CreateError.NotEmpty) }
    {
        let dictionary = dictionary_from(alloc, bytes)?;
        let Ok(connection) = Connection::open_in_memory(alloc) else {
            return Err(CreateError::NoMemory);
        };
        match SqlKeep::make(alloc, connection, dictionary, bytes) {
            Ok(keep) => Ok(keep),
            Err((error, _connection)) => Err(error),
        }
    }
}

impl<F: Start> SqlKeep<FileStore<FileFrom<F>>> {
    /// An empty register in the database at a path that had no table, index or view, where `F` stands for what its
    /// files held. `Unknown` says nothing of a file that is not empty.
    ///
    /// `NotEmpty` and `Store` come only where the bytes are a dictionary. `NotEmpty` comes with the connection that was
    /// opened. A file that cannot be opened is `Store`, or `NoMemory`; no clause says so.
    pub fn create(
        rt: &HostRuntime,
        alloc: Global,
        path: &str,
        bytes: &[u8],
        start: F,
    ) -> Result<
        SqlKeep<FileStore<FileFrom<F>>>,
        (CreateError, Option<Connection<FileStore<FileFrom<F>>>>),
    >
        requires short { length bytes.now ≤ READABLE }

        // The new register at success, and that the files had no table, index or view.
        ensures empty { IfOk result (λ k. HasNoDeposit (file_state k.connection)) }
        ensures dictionary { IfOk result (λ k. ReadsDictionary bytes.now (Ok k.dictionary)) }
        ensures register { IfOk result (λ k. ShowsEmptyRegister bytes.now (file_state k.connection)) }
        ensures blank { IfOk result (λ k. FindsEmpty (image_at F.Start) (file_state k.connection)) }
        ensures working { IfOk result (λ k. k.has_failed ≡ false) }

        // Each refusal, by what the bytes and the files were, and which never comes without a connection.
        ensures refused { IfErr result (λ e. RefusesBytes bytes.now e.0) }
        ensures not_empty { IfErr result (λ e. e.0 ≡ CreateError.NotEmpty
            → IfSome e.1 (λ c. FindsNotEmpty (image_at F.Start) (file_state c))) }
        ensures vacant { IfErr result (λ e. e.0 ≡ CreateError.Store
            → IfSome e.1 (λ c. FindsEmpty (image_at F.Start) (file_state c))) }
        ensures unopened { IfErr result (λ e. e.1 ≡ None → e.0 ≢ CreateError.NotEmpty) }

        // The connection that comes with a refusal: open, but after `Store`, and one that is open shows what the files
        // held.
        ensures open { IfErr result (λ e. e.0 ≢ CreateError.Store
            → IfSome e.1 (λ c. HasCleanDisk (file_state c) → IsTrue (file_state c).is_open)) }
        ensures still { IfErr result (λ e. IfSome e.1 (λ c. ShowsFiles (image_at F.Start) (file_state c))) }
    {
        let dictionary = match dictionary_from(alloc, bytes) {
            Ok(dictionary) => dictionary,
            Err(error) => return Err((error, None)),
        };
        match connect(rt, path, start) {
            Ok(connection) => match SqlKeep::make(alloc, connection, dictionary, bytes) {
                Ok(keep) => Ok(keep),
                Err((error, connection)) => Err((error, Some(connection))),
            },
            Err(TableError::Store) => Err((CreateError::Store, None)),
            Err(TableError::NoMemory) => Err((CreateError::NoMemory, None)),
        }
    }
}

fn dictionary_from(alloc: Global, bytes: &[u8]) -> Result<Dictionary, CreateError>
    requires { length bytes.now ≤ READABLE }
    ensures read { IfOk result (λ dictionary. ReadsDictionary bytes.now (Ok dictionary)) }
    ensures refused { IfErr result (RefusesBytes bytes.now) }
    ensures named { IfErr result (λ e. (e ≢ CreateError.NotEmpty) × (e ≢ CreateError.Store)) }
{
    match Dictionary::read(alloc, bytes) {
        Ok(dictionary) => Ok(dictionary),
        Err(DictError::NoMemory) => Err(CreateError::NoMemory),
        Err(error) => Err(CreateError::Dictionary(error)),
    }
}

/// Makes the tables of a register in a database without a table, an index and a view, if there is memory for a start
/// that opens it.
fn fill<S: Alter>(conn: &mut Connection<S>, alloc: Global, bytes: &[u8]) -> Result<(), CreateError>
    requires short { length bytes.now ≤ READABLE }
    requires reads { AreDictionary bytes.now }

    // The connection and the new register at success, and that there was no table, index or view.
    ensures mode { OnOk result (conn.new.in_transaction ≡ false) }
    ensures open { HasCleanDisk (state S.Store conn.new) → OnOk result (IsTrue (state S.Store conn.new).is_open) }
    ensures put { HasCleanDisk (state S.Store conn.new)
        → OnOk result (IsEmptyRegister bytes.now (state S.Store conn.new).now) }
    ensures settled { CommitsAll result (state S.Store conn.new) }
    ensures blank { OnOk result ((state S.Store conn.old).now.schema ≡ no_schema) }

    // Each refusal, by what the bytes and the database were.
    ensures refused { IfErr result (RefusesBytes bytes.now) }
    ensures not_empty { IfErr result (λ e. e ≡ CreateError.NotEmpty → (state S.Store conn.old).now.schema ≢ no_schema) }
    ensures vacant { IfErr result (λ e. e ≡ CreateError.Store → (state S.Store conn.old).now.schema ≡ no_schema) }

    // What a refusal leaves, and what a crash may leave.
    ensures same { IfErr result (λ e. e ≢ CreateError.Store
        → StaysIfClean (state S.Store conn.old) (state S.Store conn.new)) }
    ensures still { OnErr result (StaysIfOpen (state S.Store conn.old) (state S.Store conn.new)) }
    ensures made { OnOk result (SurvivesMaking bytes.now (state S.Store conn.old) (state S.Store conn.new)) }
    ensures left { IfErr result (λ e. SurvivesRefusal e bytes.now (state S.Store conn.old) (state S.Store conn.new)) }
{
    if !is_vacant(conn.schema()) {
        return Err(CreateError::NotEmpty);
    }
    if !conn.is_autocommit() {
        return Err(CreateError::Store);
    }
    if Memory::new(alloc, bytes.len()).try_start(alloc).is_err() {
        return Err(CreateError::NoMemory);
    }
    match change_tables(conn, &NewTables { dictionary: bytes }) {
        Ok(()) => Ok(()),
        Err(TableError::Store) => Err(CreateError::Store),
        Err(TableError::NoMemory) => Err(CreateError::NoMemory),
    }
}
