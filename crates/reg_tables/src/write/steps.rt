//! The steps of a file, added to the table `steps`.

ghost use Rattle.std.specs.Prelude.{◌≡◌, [], ◌∷◌, length, IsTrue};
ghost use Rattle.sqlite.specs.Effect.{IsDatabase};
ghost use Rattle.std.specs.List.{flat_map};
ghost use Rattle.sqlite.specs.State.{HasCleanDisk, Survives};
ghost use Rattle.reg_tables.specs.Tables.{register_schema};
ghost use Rattle.sqlite.specs.Values.{bound};
ghost use Rattle.reg_tables.specs.Rows.{joined, step_row, step_rows};
ghost use Rattle.reg_tables.specs.Private.Inserts.{AddsSteps};
ghost use Rattle.reg_tables.specs.Private.Inside.{ChangesInside, CommitsNothing, HasSchema, HasTransaction, state_in};

use crate::write::lines::TOGETHER;
use crate::write::statement::run;
use sqlite::types::ValueRef;
use sqlite::{Alter, Error, Transaction, params};

/// Adds the steps of a file. Nothing is committed.
#[tactic(auto, using(crate::proofs::AddsLemmas::kept_then))]
pub(crate) fn insert_steps<S: Alter>(
    tx: &mut Transaction<'_, S>,
    number: u32,
    steps: &[(u32, u32)],
) -> Result<(), Error>
    requires inside { HasTransaction (state_in S.Store tx.old) }
    requires is_open { HasCleanDisk (state_in S.Store tx.old) → IsTrue (state_in S.Store tx.old).is_open }
    requires sound { HasCleanDisk (state_in S.Store tx.old) → IsDatabase (state_in S.Store tx.old).now }
    requires schema { HasSchema (state_in S.Store tx.old) register_schema }
    ensures same_reference { tx.new.conn.ghost_name ≡ tx.old.conn.ghost_name }
    ensures put { ChangesInside result (AddsSteps (step_rows number steps.now))
        (state_in S.Store tx.old) (state_in S.Store tx.new) }
    ensures kept { CommitsNothing (state_in S.Store tx.old) (state_in S.Store tx.new) }
    ensures survives { Survives (state_in S.Store tx.old) (state_in S.Store tx.new) (λ _. ⊥) }
{
    for part in 0..steps.len() / TOGETHER {
        let at = part * TOGETHER;
        insert_eight_steps(tx, number, &steps[at..at + TOGETHER])?;
    }
    let at = steps.len() / TOGETHER * TOGETHER;
    insert_each_step(tx, number, &steps[at..])
}

/// Adds eight steps. Nothing is committed.
#[tactic(auto, using(crate::proofs::AddsLemmas::kept_same))]
fn insert_eight_steps<S: Alter>(
    tx: &mut Transaction<'_, S>,
    number: u32,
    steps: &[(u32, u32)],
) -> Result<(), Error>
    requires eight { length steps.now ≡ 8 }
    requires inside { HasTransaction (state_in S.Store tx.old) }
    requires schema { HasSchema (state_in S.Store tx.old) register_schema }
    ensures same_reference { tx.new.conn.ghost_name ≡ tx.old.conn.ghost_name }
    ensures put { ChangesInside result (AddsSteps (step_rows number steps.now))
        (state_in S.Store tx.old) (state_in S.Store tx.new) }
    ensures kept { CommitsNothing (state_in S.Store tx.old) (state_in S.Store tx.new) }
    ensures survives { Survives (state_in S.Store tx.old) (state_in S.Store tx.new) (λ _. ⊥) }
{
    let values = step_values(number, steps);
    run(
        tx,
        "INSERT INTO steps VALUES (?1, ?2, ?3), (?4, ?5, ?6), (?7, ?8, ?9), (?10, ?11, ?12), (?13, ?14, ?15), (?16, ?17, ?18), (?19, ?20, ?21), (?22, ?23, ?24)",
        values.as_flattened(),
    )
}

/// The values of eight steps.
fn step_values(number: u32, steps: &[(u32, u32)]) -> [[ValueRef<'static>; 3]; TOGETHER]
    requires { length steps.now ≡ 8 }
    ensures { bound (flat_map (λ v. v) result) ≡ joined (step_rows number steps.now) }
{
    let mut values = [[ValueRef::Null; 3]; TOGETHER];
    for (i, step) in steps.iter().enumerate() {
        values[i] = step_value(number, *step);
    }
    values
}

/// The values of a step.
fn step_value(number: u32, step: (u32, u32)) -> [ValueRef<'static>; 3]
    ensures { bound result ≡ step_row number step }
{
    *params![number, step.0, step.1]
}

/// Adds steps one by one. Nothing is committed.
fn insert_each_step<S: Alter>(
    tx: &mut Transaction<'_, S>,
    number: u32,
    steps: &[(u32, u32)],
) -> Result<(), Error>
    requires inside { HasTransaction (state_in S.Store tx.old) }
    requires is_open { HasCleanDisk (state_in S.Store tx.old) → IsTrue (state_in S.Store tx.old).is_open }
    requires sound { HasCleanDisk (state_in S.Store tx.old) → IsDatabase (state_in S.Store tx.old).now }
    requires schema { HasSchema (state_in S.Store tx.old) register_schema }
    ensures same_reference { tx.new.conn.ghost_name ≡ tx.old.conn.ghost_name }
    ensures put { ChangesInside result (AddsSteps (step_rows number steps.now))
        (state_in S.Store tx.old) (state_in S.Store tx.new) }
    ensures kept { CommitsNothing (state_in S.Store tx.old) (state_in S.Store tx.new) }
    ensures survives { Survives (state_in S.Store tx.old) (state_in S.Store tx.new) (λ _. ⊥) }
{
    for step in steps {
        insert_step(tx, number, *step)?;
    }
    Ok(())
}

/// Adds one step. Nothing is committed.
fn insert_step<S: Alter>(
    tx: &mut Transaction<'_, S>,
    number: u32,
    step: (u32, u32),
) -> Result<(), Error>
    requires inside { HasTransaction (state_in S.Store tx.old) }
    requires schema { HasSchema (state_in S.Store tx.old) register_schema }
    ensures same_reference { tx.new.conn.ghost_name ≡ tx.old.conn.ghost_name }
    ensures put { ChangesInside result (AddsSteps (step_row number step ∷ []))
        (state_in S.Store tx.old) (state_in S.Store tx.new) }
    ensures kept { CommitsNothing (state_in S.Store tx.old) (state_in S.Store tx.new) }
    ensures survives { Survives (state_in S.Store tx.old) (state_in S.Store tx.new) (λ _. ⊥) }
{
    run(
        tx,
        "INSERT INTO steps VALUES (?1, ?2, ?3)",
        params![number, step.0, step.1],
    )
}
