//! The mark of a deposit that is withdrawn.

ghost use Rattle.reg_tables.specs.Private.Inserts.{AddsMark};
ghost use Rattle.reg_tables.specs.Tables.{register_schema};

use crate::write::change::Change;
use crate::write::statement::run;
use sqlite::{Alter, Error, Transaction, params};

/// The mark of a deposit.
#[derive(Drop)]
pub(crate) struct NewMark {
    pub number: u32,
}

impl Change for NewMark {
    ghost from = { λ _. register_schema };

    ghost makes = { λ it. AddsMark it.number };

    fn make<S: Alter>(&self, tx: &mut Transaction<'_, S>) -> Result<(), Error> {
        run(
            tx,
            "INSERT INTO withdrawals VALUES (?1)",
            params![self.number],
        )
    }
}
