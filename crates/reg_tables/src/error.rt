//! Why the tables are not read or changed, and why a register is not made, opened or migrated.

ghost use Rattle.std.specs.Prelude.{◌≡◌, ◌↔◌, IsTrue};

use ags_dict::DictError;
use reg_store::KeepError;
use sqlite::{Error as SqlError, ErrorCode};
use std::alloc::{AllocError, AllocFailed};
use thiserror::Error;

/// Why the tables are not read or changed. That a register is full is known without them.
#[derive(Clone, Copy)]
pub(crate) enum TableError {
    /// The database failed, or it holds what no register holds.
    Store,
    /// Out of memory.
    NoMemory,
}

/// Why a register is not made.
#[derive(Debug, Drop, Error)]
pub enum CreateError {
    /// The bytes are no dictionary.
    #[error("not a dictionary")]
    Dictionary(DictError),
    /// A table, an index or a view is there.
    #[error("the store is not empty")]
    NotEmpty,
    /// The database failed: a crash leaves what it left before, or a register of no deposits where there was no table.
    #[error("the store failed")]
    Store,
    /// Out of memory.
    #[error("out of memory")]
    NoMemory,
}

/// Why a register is not adopted.
#[derive(Clone, Copy, Debug, PartialEq, Eq, Error)]
pub enum AdoptError {
    /// The tables are no register of any list of deposits.
    #[error("not a register")]
    NotRegister,
    /// The register has a format of this number, and not the one that is looked for.
    #[error("register version {0}")]
    Version(i64),
    /// The database failed.
    #[error("the store failed")]
    Store,
    /// Out of memory.
    #[error("out of memory")]
    NoMemory,
}

/// Why a register is not migrated: the refusals of `adopt`, where `Version` has another number than 1.
pub type MigrateError = AdoptError;

impl From<AllocError> for TableError {
    ghost use Rattle.std.specs.Prelude.{◌≡◌};
    ghost use Rattle.reg_tables.specs.declared.error.TableError.TheVariants.{NoMemory};

    ghost from_gives = { λ _ e. e ≡ NoMemory };

    fn from(_e: AllocError) -> TableError {
        TableError::NoMemory
    }
}

impl<T: Drop> From<AllocFailed<T>> for TableError {
    ghost use Rattle.std.specs.Prelude.{◌≡◌};
    ghost use Rattle.reg_tables.specs.declared.error.TableError.TheVariants.{NoMemory};

    ghost from_gives = { λ _ e. e ≡ NoMemory };

    fn from(_e: AllocFailed<T>) -> TableError {
        TableError::NoMemory
    }
}

// A connection may be shut where it is out of memory: what a call of it is answered, `refusal` finds out.
impl From<SqlError> for TableError {
    ghost use Rattle.std.specs.Prelude.{◌≡◌, ◌≢◌};
    ghost use Rattle.sqlite.specs.declared.error.Error.TheVariants.{SqliteFailure};
    ghost use Rattle.sqlite.specs.declared.error.ErrorCode.TheVariants.{OutOfMemory};
    ghost use Rattle.reg_tables.specs.declared.error.TableError.TheVariants.{Store};

    ghost from_gives = { λ error e. e ≡ Store → error ≢ SqliteFailure OutOfMemory };

    fn from(error: SqlError) -> TableError {
        if is_memory(&error) {
            TableError::NoMemory
        } else {
            TableError::Store
        }
    }
}

/// Whether the error of a database is that it is out of memory.
pub(crate) fn is_memory(error: &SqlError) -> bool
    ensures { IsTrue result ↔ (error.now ≡ SqlError.SqliteFailure ErrorCode.OutOfMemory) }
{
    matches!(error, SqlError::SqliteFailure(ErrorCode::OutOfMemory))
}

impl From<TableError> for KeepError {
    ghost use Rattle.std.specs.Prelude.{◌≡◌};
    ghost use Rattle.reg_tables.specs.Private.Errors.{keep_error};

    ghost from_gives = { λ error e. e ≡ keep_error error };

    fn from(error: TableError) -> KeepError {
        match error {
            TableError::Store => KeepError::Store,
            TableError::NoMemory => KeepError::NoMemory,
        }
    }
}

impl From<TableError> for AdoptError {
    ghost use Rattle.std.specs.Prelude.{◌≡◌};
    ghost use Rattle.reg_tables.specs.Private.Errors.{adopt_error};

    ghost from_gives = { λ error e. e ≡ adopt_error error };

    fn from(error: TableError) -> AdoptError {
        match error {
            TableError::Store => AdoptError::Store,
            TableError::NoMemory => AdoptError::NoMemory,
        }
    }
}
