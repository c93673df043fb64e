//! Makes a register of format 1 one of format 2.

ghost use Rattle.std.specs.Prelude.{◌≡◌, ◌⊎◌, false, None, IsTrue, Err, IfOk, IfErr, IfSome, OnOk, OnErr};
ghost use Rattle.sqlite.specs.State.{HasCleanDisk};
ghost use Rattle.sqlite.specs.Held.{state};
ghost use Rattle.sqlite.specs.Files.{file_state};
ghost use Rattle.sqlite.specs.WalFiles.{image_at};
ghost use Rattle.reg_tables.specs.Adoption.{Adopts, is_store_failure};
ghost use Rattle.reg_tables.specs.Private.Commits.{CommitsAll};
ghost use Rattle.reg_tables.specs.Private.Memory.{Recalls};
ghost use Rattle.reg_tables.specs.Migrates.{MigratesFiles, MigratesRegister, SurvivesMigration};
ghost use Rattle.reg_tables.specs.Migrates.{SurvivesRefusedMigration};
ghost use Rattle.reg_tables.specs.Opened.{RefusesMigration, ShowsFiles};
ghost use Rattle.reg_tables.specs.Quiet.{StaysIfClean, StaysIfOpen};
ghost use Rattle.reg_tables.specs.declared.schema.format.Format.TheVariants.{First};

use crate::error::{AdoptError, MigrateError, TableError};
use crate::keep::SqlKeep;
use crate::memory::Memory;
use crate::open::connect;
use crate::open::recall::recall_first;
use crate::open::second_format::SecondFormat;
use crate::open::tables::examine_tables;
use crate::schema::format::Format;
use crate::write::change::change_tables;
use ags_dict::Dictionary;
use reg_store::Progress;
use sqlite::{Alter, Connection, FileFrom, FileStore, Start};
use std::alloc::Global;

impl<S: Alter> SqlKeep<S> {
    /// The register of format 1 that a database holds, as one of format 2 without a mark.
    ///
    /// It is examined as `adopt` examines one of format 2. A connection in a transaction is answered `Store`, where its
    /// tables are not refused first; no clause says so. The rest holds where the disk is clean at the end. After a
    /// refusal other than `Store` the connection is as before; after `Store`, one that comes back open shows the tables
    /// from before. A crash leaves what it could leave before; at `Ok` and at `Store` also the register in format 2,
    /// whole and with the same list. `progress` takes note of the deposits that are checked; no clause says so.
    pub fn migrate_in<P: Progress>(
        alloc: Global,
        mut connection: Connection<S>,
        progress: &mut P,
    ) -> Result<SqlKeep<S>, (MigrateError, Connection<S>)>
        // The register at success, and what a crash may leave.
        ensures migrated { IfOk result (λ k. MigratesRegister k.dictionary
            (state S.Store connection) (state S.Store k.connection)) }
        ensures working { IfOk result (λ k. k.has_failed ≡ false) }
        ensures made { IfOk result (λ k. SurvivesMigration (state S.Store connection) (state S.Store k.connection)) }

        // Each refusal, by what the database was.
        ensures refused { IfErr result (λ e. HasCleanDisk (state S.Store e.1)
            → Adopts First (state S.Store connection).now (Err e.0)) }

        // The connection that comes with a refusal, and what a crash may leave.
        ensures same { IfErr result (λ e. is_store_failure e.0 ≡ false
            → StaysIfClean (state S.Store connection) (state S.Store e.1)) }
        ensures still { IfErr result (λ e. StaysIfOpen (state S.Store connection) (state S.Store e.1)) }
        ensures left { IfErr result (λ e. SurvivesRefusedMigration e.0
            (state S.Store connection) (state S.Store e.1)) }
    {
        match migrate_tables(&mut connection, alloc, progress) {
            Ok((dictionary, memory)) => Ok(SqlKeep {
                connection,
                dictionary,
                memory,
                has_failed: false,
                alloc,
            }),
            Err(error) => Err((error, connection)),
        }
    }
}

impl<F: Start> SqlKeep<FileStore<FileFrom<F>>> {
    /// The register of format 1 that the database at a path holds, as one of format 2. `F` stands for what its files
    /// held. `Unknown` says nothing of a file that is not empty.
    ///
    /// A file that cannot be opened is `Store`, or `NoMemory`; every other refusal comes with the connection that was
    /// opened. `progress` takes note of the deposits that are checked; no clause says so.
    pub fn migrate<P: Progress>(
        rt: &HostRuntime,
        alloc: Global,
        path: &str,
        start: F,
        progress: &mut P,
    ) -> Result<
        SqlKeep<FileStore<FileFrom<F>>>,
        (MigrateError, Option<Connection<FileStore<FileFrom<F>>>>),
    >
        ensures migrated { IfOk result (λ k. MigratesFiles (image_at F.Start) k.dictionary (file_state k.connection)) }
        ensures working { IfOk result (λ k. k.has_failed ≡ false) }
        ensures refused { IfErr result (λ e.
            IfSome e.1 (λ c. HasCleanDisk (file_state c) → RefusesMigration (image_at F.Start) e.0)) }
        ensures unopened { IfErr result (λ e. e.1 ≡ None → (e.0 ≡ AdoptError.Store) ⊎ (e.0 ≡ AdoptError.NoMemory)) }

        // The connection that comes with a refusal: open, but after `Store`, and one that is open shows what the files
        // held.
        ensures open { IfErr result (λ e. is_store_failure e.0 ≡ false
            → IfSome e.1 (λ c. HasCleanDisk (file_state c) → IsTrue (file_state c).is_open)) }
        ensures still { IfErr result (λ e. IfSome e.1 (λ c. ShowsFiles (image_at F.Start) (file_state c))) }
    {
        match connect(rt, path, start) {
            Ok(connection) => match SqlKeep::migrate_in(alloc, connection, progress) {
                Ok(keep) => Ok(keep),
                Err((error, connection)) => Err((error, Some(connection))),
            },
            Err(TableError::NoMemory) => Err((AdoptError::NoMemory, None)),
            Err(_) => Err((AdoptError::Store, None)),
        }
    }
}

/// Makes a register of format 1 one of format 2, if there is memory for a start that opens it. Its dictionary, and what
/// is known of its deposits.
fn migrate_tables<S: Alter, P: Progress>(
    conn: &mut Connection<S>,
    alloc: Global,
    progress: &mut P,
) -> Result<(Dictionary, Memory), AdoptError>
    // The register at success.
    ensures mode { OnOk result (conn.new.in_transaction ≡ false) }
    ensures open { HasCleanDisk (state S.Store conn.new) → OnOk result (IsTrue (state S.Store conn.new).is_open) }
    ensures found { HasCleanDisk (state S.Store conn.new)
        → IfOk result (λ found. Recalls (state S.Store conn.new).now found.0 found.1) }
    ensures settled { CommitsAll result (state S.Store conn.new) }
    ensures migrated { IfOk result (λ found. MigratesRegister found.0
        (state S.Store conn.old) (state S.Store conn.new)) }
    ensures made { OnOk result (SurvivesMigration (state S.Store conn.old) (state S.Store conn.new)) }

    // Each refusal, by what the tables were, and what it leaves.
    ensures refused { HasCleanDisk (state S.Store conn.new)
        → IfErr result (λ e. Adopts First (state S.Store conn.old).now (Err e)) }
    ensures same { IfErr result (λ e. is_store_failure e ≡ false
        → StaysIfClean (state S.Store conn.old) (state S.Store conn.new)) }
    ensures still { OnErr result (StaysIfOpen (state S.Store conn.old) (state S.Store conn.new)) }
    ensures left { IfErr result (λ e. SurvivesRefusedMigration e
        (state S.Store conn.old) (state S.Store conn.new)) }
{
    examine_tables(conn, Format::First)?;
    let known = recall_first(conn, alloc, progress)?;
    if known.1.try_start(alloc).is_err() {
        return Err(AdoptError::NoMemory);
    }
    change_tables(conn, &SecondFormat)?;
    Ok(known)
}
