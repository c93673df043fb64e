//! A change of the tables in a transaction of its own.

ghost use Rattle.std.specs.Prelude.{◌≡◌, false, IsTrue, OnOk, OnErr};
ghost use Rattle.sqlite.specs.Schema.{Schema};
ghost use Rattle.sqlite.specs.Effect.{Database};
ghost use Rattle.sqlite.specs.State.{HasCleanDisk, Survives};
ghost use Rattle.sqlite.specs.Held.{state};
ghost use Rattle.reg_tables.specs.Private.Errors.{database_fails};
ghost use Rattle.reg_tables.specs.Private.Commits.{MakesIfOk, CommitsAll, Makes, UndoesIfOpen, UndoesUnlessFailed};
ghost use Rattle.reg_tables.specs.Private.Commits.{WasOpenIfOpen};
ghost use Rattle.reg_tables.specs.Private.Inside.{ChangesInside, CommitsNothing, HasSchema, HasTransaction, state_in};
ghost use Rattle.reg_tables.specs.Private.KeepLaws.{ChangesOf};
ghost use Rattle.reg_tables.specs.Quiet.{IsSettled, StaysIfOpen};

use crate::error::TableError;
use crate::read::queries::refusal;
use sqlite::{Alter, Connection, Error, Transaction};

/// Changes the tables in one transaction. `NoMemory` is answered only where nothing changed.
#[tactic(auto, using(crate::proofs::QueryLemmas::undone_laws))]
pub(crate) fn change_tables<S: Alter, C: Change>(
    conn: &mut Connection<S>,
    change: &C,
) -> Result<(), TableError>
    requires mode { conn.old.in_transaction ≡ false }
    requires settled { HasCleanDisk (state S.Store conn.old) → IsSettled (state S.Store conn.old) }
    requires schema { HasSchema (state S.Store conn.old) (C.from change.now) }

    // The change at success, as it is committed.
    ensures made { MakesIfOk result (Makes (C.makes change.now)) (state S.Store conn.old) (state S.Store conn.new) }
    ensures settled { CommitsAll result (state S.Store conn.new) }

    // What a refusal says of the connection.
    ensures was_open { HasCleanDisk (state S.Store conn.new) → database_fails result ≡ false
        → OnErr result (IsTrue (state S.Store conn.old).is_open) }
    ensures undone { UndoesUnlessFailed result (state S.Store conn.old) (state S.Store conn.new) }
    ensures still { OnErr result (StaysIfOpen (state S.Store conn.old) (state S.Store conn.new)) }

    // Transaction and connection in either case, and what a crash may leave.
    ensures mode { conn.new.in_transaction ≡ false }
    ensures open { HasCleanDisk (state S.Store conn.new) → database_fails result ≡ false
        → IsTrue (state S.Store conn.new).is_open }
    ensures crash { Survives (state S.Store conn.old) (state S.Store conn.new)
        (ChangesOf (C.makes change.now) (state S.Store conn.old)) }
    ensures quiet { database_fails result ≡ false
        → OnErr result (Survives (state S.Store conn.old) (state S.Store conn.new) (λ _. ⊥)) }
{
    match commit(conn, change) {
        Ok(()) => Ok(()),
        Err(error) => Err(refusal(conn, &error)),
    }
}

/// What is changed in a transaction.
pub(crate) trait Change {
    // The tables before it.
    ghost from: { Self → Schema };

    // What it makes of a database.
    ghost makes: { Self → Database → Database → Type 0 };

    /// Changes the tables. Nothing is committed.
    fn make<S: Alter>(&self, tx: &mut Transaction<'_, S>) -> Result<(), Error>
        requires inside { HasTransaction (state_in S.Store tx.old) }
        requires schema { HasSchema (state_in S.Store tx.old) (from self.now) }
        ensures same_reference { tx.new.conn.ghost_name ≡ tx.old.conn.ghost_name }
        ensures made { ChangesInside result (Makes (makes self.now)) (state_in S.Store tx.old) (state_in S.Store tx.new) }
        ensures kept { CommitsNothing (state_in S.Store tx.old) (state_in S.Store tx.new) }
        ensures survives { Survives (state_in S.Store tx.old) (state_in S.Store tx.new) (λ _. ⊥) };
}

#[tactic(auto, using(crate::proofs::AddsLemmas::undone_by, crate::proofs::AddsLemmas::open_before))]
fn commit<S: Alter, C: Change>(conn: &mut Connection<S>, change: &C) -> Result<(), Error>
    requires mode { conn.old.in_transaction ≡ false }
    requires schema { HasSchema (state S.Store conn.old) (C.from change.now) }

    // The connection and the change at success.
    ensures open { HasCleanDisk (state S.Store conn.new) → OnOk result (IsTrue (state S.Store conn.new).is_open) }
    ensures made { MakesIfOk result (Makes (C.makes change.now)) (state S.Store conn.old) (state S.Store conn.new) }
    ensures settled { CommitsAll result (state S.Store conn.new) }

    // After an error that leaves the connection open: it was open before, and all is undone.
    ensures was_open { WasOpenIfOpen result (state S.Store conn.old) (state S.Store conn.new) }
    ensures undone { UndoesIfOpen result (state S.Store conn.old) (state S.Store conn.new) }

    // The transaction in either case, and what a crash may leave.
    ensures mode { conn.new.in_transaction ≡ false }
    ensures crash { Survives (state S.Store conn.old) (state S.Store conn.new)
        (ChangesOf (C.makes change.now) (state S.Store conn.old)) }
{
    let mut tx = conn.transaction();
    change.make(&mut tx)?;
    tx.commit()?;
    Ok(())
}
