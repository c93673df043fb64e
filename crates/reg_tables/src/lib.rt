//! Kept deposits in tables: a store over a database of SQLite.
//!
//! `keep` is the store. `open` makes, opens and migrates registers, `write` adds deposits and marks, `read` reads
//! deposits. `schema` has the tables that are expected, `memory` what is known of deposits without the tables.
#![tactic(auto)]

mod error;
mod keep;
mod memory;
mod open;
mod read;
mod schema;
mod write;

pub use error::{AdoptError, CreateError, MigrateError};
pub use keep::SqlKeep;
