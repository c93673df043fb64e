//! The caller in README.md of reg_tables.

ghost use Rattle.std.specs.Prelude.{◌≡◌, false, IfOk};
ghost use Rattle.sqlite.specs.Held.{state};
ghost use Rattle.reg_tables.specs.Adoption.{AdoptsRegister};

use reg_store::NoProgress;
use reg_tables::{AdoptError, SqlKeep};
use sqlite::{Alter, Connection};
use std::alloc::Global;

/// The register that the tables of a database are, or why they are none.
pub fn register_in<S: Alter + Drop>(
    alloc: Global,
    connection: Connection<S>,
) -> Result<SqlKeep<S>, AdoptError>
    ensures adopted { IfOk result (λ k. AdoptsRegister k.dictionary
        (state S.Store connection) (state S.Store k.connection)) }
    ensures working { IfOk result (λ k. k.has_failed ≡ false) }
{
    match SqlKeep::adopt(alloc, connection, &mut NoProgress) {
        Ok(register) => Ok(register),
        Err((error, _connection)) => Err(error),
    }
}
