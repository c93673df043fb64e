//! Registers in files.

ghost use Rattle.std.specs.Prelude.{◌≡◌, ◌⊎◌, ◌≤◌, false, None, IfErr, IfOk, IfSome, length};
ghost use Rattle.sqlite.specs.Files.{file_state};
ghost use Rattle.sqlite.specs.State.{HasCleanDisk};
ghost use Rattle.sqlite.specs.WalFiles.{image_at};
ghost use Rattle.ags_dict.specs.Reading.{IsDictionary};
ghost use Rattle.reg_tables.specs.Creates.{HasNoDeposit, ShowsEmptyRegister};
ghost use Rattle.reg_tables.specs.Making.{RefusesBytes};
ghost use Rattle.reg_tables.specs.Migrates.{MigratesFiles};
ghost use Rattle.reg_tables.specs.Opened.{AdoptsFiles, FindsEmpty, FindsNotEmpty, RefusesMigration, RefusesOpening};
ghost use Rattle.reg_tables.specs.Opened.{ShowsFiles};
ghost use Rattle.reg_files.specs.Reporting.{Reports, adopting, not_made};

use ags_cli::Fault;
use ags_rows::READABLE;
use reg_app::Registers;
use reg_cli::Failure;
use reg_store::Progress;
use reg_tables::{AdoptError, CreateError, SqlKeep};
use sqlite::{Connection, FileFrom, FileStore, Start};
use std::alloc::Global;

/// Registers in files. `F` stands for what these held.
#[derive(Drop)]
pub struct Files<F> {
    start: F,
}

impl<F: Start> Files<F> {
    /// Registers in files that held what `start` stands for.
    pub fn new(start: F) -> Files<F> {
        Files { start }
    }
}

// What names the type of a store in a file is kept short: it is written out at each point of a function that holds one.
impl<F: Start> Registers for Files<F> {
    type Kept = SqlKeep<FileStore<FileFrom<F>>>;

    fn create<'w>(
        self,
        rt: &HostRuntime,
        alloc: Global,
        path: &str,
        bytes: &[u8],
    ) -> Result<SqlKeep<FileStore<FileFrom<F>>>, Failure<'w>> {
        let Files { start } = self;
        match create_store(rt, alloc, path, start, bytes) {
            Ok(keep) => Ok(keep),
            Err((failure, _connection)) => Err(failure),
        }
    }

    fn open<'w, P: Progress>(
        self,
        rt: &HostRuntime,
        alloc: Global,
        path: &str,
        progress: &mut P,
    ) -> Result<SqlKeep<FileStore<FileFrom<F>>>, Failure<'w>> {
        let Files { start } = self;
        match open_store(rt, alloc, path, start, progress) {
            Ok(keep) => Ok(keep),
            Err((failure, _connection)) => Err(failure),
        }
    }

    fn migrate<'w, P: Progress>(
        self,
        rt: &HostRuntime,
        alloc: Global,
        path: &str,
        progress: &mut P,
    ) -> Result<SqlKeep<FileStore<FileFrom<F>>>, Failure<'w>> {
        let Files { start } = self;
        match migrate_store(rt, alloc, path, start, progress) {
            Ok(keep) => Ok(keep),
            Err((failure, _connection)) => Err(failure),
        }
    }

    fn close(kept: SqlKeep<FileStore<FileFrom<F>>>) {
        kept.close();
    }
}

/// An empty register that is made at a path, or the failure to report, with the connection that was opened.
fn create_store<'w, F: Start>(
    rt: &HostRuntime,
    alloc: Global,
    path: &str,
    start: F,
    bytes: &[u8],
) -> Result<
    SqlKeep<FileStore<FileFrom<F>>>,
    (Failure<'w>, Option<Connection<FileStore<FileFrom<F>>>>),
>
    requires short { length bytes.now ≤ READABLE }
    ensures working { IfOk result (λ k. k.has_failed ≡ false) }
    ensures dictionary { IfOk result (λ k. IsDictionary bytes.now k.dictionary) }
    ensures empty { IfOk result (λ k. HasNoDeposit (file_state k.connection)) }
    ensures register { IfOk result (λ k. ShowsEmptyRegister bytes.now (file_state k.connection)) }
    ensures blank { IfOk result (λ k. FindsEmpty (image_at F.Start) (file_state k.connection)) }
    ensures refused { IfErr result (λ e. Reports not_made e.0 (λ error. RefusesBytes bytes.now error
        × (error ≡ CreateError.NotEmpty → IfSome e.1 (λ c. FindsNotEmpty (image_at F.Start) (file_state c)))
        × (error ≡ CreateError.Store → IfSome e.1 (λ c. FindsEmpty (image_at F.Start) (file_state c))))) }
    ensures still { IfErr result (λ e. IfSome e.1 (λ c. ShowsFiles (image_at F.Start) (file_state c))) }
{
    match SqlKeep::create(rt, alloc, path, bytes, start) {
        Ok(keep) => Ok(keep),
        Err((error, connection)) => Err((not_made(error), connection)),
    }
}

/// The register in the file at a path, or the failure to report, with the connection that was opened.
fn open_store<'w, F: Start, P: Progress>(
    rt: &HostRuntime,
    alloc: Global,
    path: &str,
    start: F,
    progress: &mut P,
) -> Result<
    SqlKeep<FileStore<FileFrom<F>>>,
    (Failure<'w>, Option<Connection<FileStore<FileFrom<F>>>>),
>
    ensures adopted { IfOk result (λ k. AdoptsFiles (image_at F.Start) k.dictionary (file_state k.connection)) }
    ensures working { IfOk result (λ k. k.has_failed ≡ false) }
    ensures refused { IfErr result (λ e. Reports adopting e.0 (λ error.
        IfSome e.1 (λ c. HasCleanDisk (file_state c) → RefusesOpening (image_at F.Start) error)
        × (e.1 ≡ None → (error ≡ AdoptError.Store) ⊎ (error ≡ AdoptError.NoMemory)))) }
    ensures still { IfErr result (λ e. IfSome e.1 (λ c. ShowsFiles (image_at F.Start) (file_state c))) }
{
    match SqlKeep::open(rt, alloc, path, start, progress) {
        Ok(keep) => Ok(keep),
        Err((error, connection)) => Err((adopting(error), connection)),
    }
}

/// The register of format 1 in the file at a path, made one of format 2, or the failure to report, with the connection
/// that was opened.
fn migrate_store<'w, F: Start, P: Progress>(
    rt: &HostRuntime,
    alloc: Global,
    path: &str,
    start: F,
    progress: &mut P,
) -> Result<
    SqlKeep<FileStore<FileFrom<F>>>,
    (Failure<'w>, Option<Connection<FileStore<FileFrom<F>>>>),
>
    ensures working { IfOk result (λ k. k.has_failed ≡ false) }
    ensures migrated { IfOk result (λ k. MigratesFiles (image_at F.Start) k.dictionary (file_state k.connection)) }
    ensures refused { IfErr result (λ e. Reports adopting e.0 (λ error.
        IfSome e.1 (λ c. HasCleanDisk (file_state c) → RefusesMigration (image_at F.Start) error)
        × (e.1 ≡ None → (error ≡ AdoptError.Store) ⊎ (error ≡ AdoptError.NoMemory)))) }
    ensures still { IfErr result (λ e. IfSome e.1 (λ c. ShowsFiles (image_at F.Start) (file_state c))) }
{
    match SqlKeep::migrate(rt, alloc, path, start, progress) {
        Ok(keep) => Ok(keep),
        Err((error, connection)) => Err((adopting(error), connection)),
    }
}

/// The failure to report where a store holds no register that can be opened, or migrated.
fn adopting<'w>(error: AdoptError) -> Failure<'w>
    ensures { result ≡ adopting error }
{
    match error {
        AdoptError::NotRegister => Failure::Plain(Fault::NotRegister),
        AdoptError::Version(number) => Failure::Version(number),
        AdoptError::Store => Failure::Plain(Fault::StoreFailed),
        AdoptError::NoMemory => Failure::Plain(Fault::NoMemory),
    }
}

/// The failure to report where no register is made.
fn not_made<'w>(error: CreateError) -> Failure<'w>
    ensures { result ≡ not_made error }
{
    match error {
        CreateError::Dictionary(_) => Failure::Plain(Fault::DictionaryRefused),
        CreateError::NotEmpty => Failure::Plain(Fault::StoreNotEmpty),
        CreateError::Store => Failure::Plain(Fault::StoreFailed),
        CreateError::NoMemory => Failure::Plain(Fault::NoMemory),
    }
}
