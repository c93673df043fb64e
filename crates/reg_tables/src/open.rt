//! Opens the register that a database holds.

ghost use Rattle.std.specs.Prelude.{◌≡◌, ◌⊎◌, false, None, Err, IfOk, IfErr, IfSome, IsTrue};
ghost use Rattle.sqlite.specs.State.{HasCleanDisk, Survives};
ghost use Rattle.sqlite.specs.Held.{state};
ghost use Rattle.sqlite.specs.Files.{file_state, IsOpened};
ghost use Rattle.sqlite.specs.Start.{FindsIn};
ghost use Rattle.sqlite.specs.WalFiles.{image_at};
ghost use Rattle.reg_tables.specs.Quiet.{StaysIfClean, StaysIfOpen};
ghost use Rattle.reg_tables.specs.Adoption.{Adopts, AdoptsRegister, is_store_failure};
ghost use Rattle.reg_tables.specs.declared.schema.format.Format.TheVariants.{Second};
ghost use Rattle.reg_tables.specs.Opened.{AdoptsFiles, RefusesOpening, ShowsFiles};

pub(crate) mod compare;
pub(crate) mod create;
pub(crate) mod deposits;
pub(crate) mod examine;
pub(crate) mod head;
pub(crate) mod marks;
pub(crate) mod meta;
pub(crate) mod migrate;
pub(crate) mod new_tables;
pub(crate) mod recall;
pub(crate) mod second_format;
pub(crate) mod tables;
pub(crate) mod values;

use crate::error::{AdoptError, TableError};
use crate::keep::SqlKeep;
use crate::open::recall::recall;
use crate::open::tables::examine_tables;
use crate::schema::format::Format;
use reg_store::Progress;
use sqlite::{Alter, Connection, FileFrom, FileStore, Start};
use std::alloc::Global;

impl<S: Alter> SqlKeep<S> {
    /// The register that a database holds.
    ///
    /// A connection in a transaction is answered `Store`, where its tables are not refused first; no clause says so.
    /// The rest holds where the disk is clean at the end. At `Ok` no kept body has a finding, and lines and steps are
    /// those of the bodies. After a refusal other than `Store` the connection is as before; after `Store`, one that
    /// comes back open shows the tables from before. A crash leaves nothing that it could not leave before. `progress`
    /// takes note of the deposits that are checked; no clause says so.
    pub fn adopt<P: Progress>(
        alloc: Global,
        mut connection: Connection<S>,
        progress: &mut P,
    ) -> Result<SqlKeep<S>, (AdoptError, Connection<S>)>
        // The register at success, and what a crash may leave.
        ensures adopted { IfOk result (λ k. AdoptsRegister k.dictionary
            (state S.Store connection) (state S.Store k.connection)) }
        ensures working { IfOk result (λ k. k.has_failed ≡ false) }
        ensures quiet { IfOk result (λ k. Survives (state S.Store connection) (state S.Store k.connection) (λ _. ⊥)) }

        // Each refusal, by what the database was.
        ensures refused { IfErr result (λ e. HasCleanDisk (state S.Store e.1)
            → Adopts Second (state S.Store connection).now (Err e.0)) }

        // The connection that comes with a refusal, and what a crash may leave.
        ensures same { IfErr result (λ e. is_store_failure e.0 ≡ false
            → StaysIfClean (state S.Store connection) (state S.Store e.1)) }
        ensures still { IfErr result (λ e. StaysIfOpen (state S.Store connection) (state S.Store e.1)) }
        ensures left { IfErr result (λ e. Survives (state S.Store connection) (state S.Store e.1) (λ _. ⊥)) }
    {
        match examine_tables(&mut connection, Format::Second) {
            Ok(()) => {}
            Err(error) => return Err((error, connection)),
        }
        match recall(&mut connection, alloc, progress) {
            Ok((dictionary, memory)) => Ok(SqlKeep {
                connection,
                dictionary,
                memory,
                has_failed: false,
                alloc,
            }),
            Err(error) => Err((error, connection)),
        }
    }
}

impl<F: Start> SqlKeep<FileStore<FileFrom<F>>> {
    /// The register that the database at a path holds, where `F` stands for what its files held. `Unknown` says nothing
    /// of a file that is not empty.
    ///
    /// A file that cannot be opened is `Store`, or `NoMemory`; every other refusal comes with the connection that was
    /// opened. `progress` takes note of the deposits that are checked; no clause says so.
    pub fn open<P: Progress>(
        rt: &HostRuntime,
        alloc: Global,
        path: &str,
        start: F,
        progress: &mut P,
    ) -> Result<
        SqlKeep<FileStore<FileFrom<F>>>,
        (AdoptError, Option<Connection<FileStore<FileFrom<F>>>>),
    >
        ensures adopted { IfOk result (λ k. AdoptsFiles (image_at F.Start) k.dictionary (file_state k.connection)) }
        ensures working { IfOk result (λ k. k.has_failed ≡ false) }
        ensures refused { IfErr result (λ e.
            IfSome e.1 (λ c. HasCleanDisk (file_state c) → RefusesOpening (image_at F.Start) e.0)) }
        ensures unopened { IfErr result (λ e. e.1 ≡ None → (e.0 ≡ AdoptError.Store) ⊎ (e.0 ≡ AdoptError.NoMemory)) }

        // The connection that comes with a refusal: open, but after `Store`, and one that is open shows what the files
        // held.
        ensures open { IfErr result (λ e. is_store_failure e.0 ≡ false
            → IfSome e.1 (λ c. HasCleanDisk (file_state c) → IsTrue (file_state c).is_open)) }
        ensures still { IfErr result (λ e. IfSome e.1 (λ c. ShowsFiles (image_at F.Start) (file_state c))) }
    {
        match connect(rt, path, start) {
            Ok(connection) => match SqlKeep::adopt(alloc, connection, progress) {
                Ok(keep) => Ok(keep),
                Err((error, connection)) => Err((error, Some(connection))),
            },
            Err(TableError::NoMemory) => Err((AdoptError::NoMemory, None)),
            Err(_) => Err((AdoptError::Store, None)),
        }
    }

    /// Drops the register and closes its file. No clause says what that does to the file.
    pub fn close(self) {}
}

/// Opens the database at a path, where `F` stands for what its files held.
pub(crate) fn connect<F: Start>(
    rt: &HostRuntime,
    path: &str,
    start: F,
) -> Result<Connection<FileStore<FileFrom<F>>>, TableError>
    ensures opened { IfOk result (λ c. HasCleanDisk (file_state c) → IsOpened c) }
    ensures found { IfOk result (λ c. HasCleanDisk (file_state c) → FindsIn (image_at F.Start) (file_state c)) }
{
    match Connection::open_from(rt, path, false, start) {
        Ok(connection) => Ok(connection),
        Err((error, _left)) => Err(TableError::from(error)),
    }
}
