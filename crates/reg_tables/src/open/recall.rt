//! The dictionary of a register, and what is known of its deposits without the tables.

ghost use Rattle.std.specs.Prelude.{◌≡◌, false, Err, IsTrue, IfErr};
ghost use Rattle.sqlite.specs.State.{HasCleanDisk};
ghost use Rattle.sqlite.specs.Held.{state};
ghost use Rattle.reg_tables.specs.Adoption.{Adopts, gives_up};
ghost use Rattle.reg_tables.specs.Private.Memory.{Recalls};
ghost use Rattle.reg_tables.specs.Quiet.{FindsThat, IsIdle, IsStill};
ghost use Rattle.reg_tables.specs.Tables.{register_schema, first_schema};
ghost use Rattle.reg_tables.specs.declared.schema.format.Format.TheVariants.{Second, First};
ghost use Rattle.reg_tables.specs.Migrates.{RecallsFirst};

use crate::error::AdoptError;
use crate::memory::{Found, Memory};
use crate::open::examine::examine;
use crate::open::marks::read_marks;
use crate::schema::format::Format;
use ags_dict::Dictionary;
use reg_store::Progress;
use sqlite::{Alter, Connection};
use std::alloc::Global;

/// The dictionary of the register and what is known of its deposits, if the tables are a register.
pub(crate) fn recall<S: Alter, P: Progress>(
    conn: &mut Connection<S>,
    alloc: Global,
    progress: &mut P,
) -> Result<(Dictionary, Memory), AdoptError>
    requires idle { IsIdle (state S.Store conn.old) }
    requires schema { HasCleanDisk (state S.Store conn.old) → (state S.Store conn.old).now.schema ≡ register_schema }

    // The register and what is known of it at success, and each refusal, by what the tables are.
    ensures found { FindsThat result (λ db found. Recalls db found.0 found.1)
        (state S.Store conn.old) (state S.Store conn.new) }
    ensures refused { HasCleanDisk (state S.Store conn.new)
        → IfErr result (λ e. Adopts Second (state S.Store conn.old).now (Err e)) }

    // What is left in either case.
    ensures open { HasCleanDisk (state S.Store conn.new) → gives_up result ≡ false
        → IsTrue (state S.Store conn.new).is_open }
    ensures quiet { IsStill (state S.Store conn.old) (state S.Store conn.new) (gives_up result) }
{
    let mut known = Found::new(alloc);
    let (dictionary, count) = examine(conn, alloc, Format::Second, &mut known, progress)?;
    let marks = read_marks(conn, alloc, count)?;
    Ok((dictionary, Memory::of(known, &marks)))
}

/// The dictionary of a register of format 1 and what is known of its deposits, if the tables are one.
pub(crate) fn recall_first<S: Alter, P: Progress>(
    conn: &mut Connection<S>,
    alloc: Global,
    progress: &mut P,
) -> Result<(Dictionary, Memory), AdoptError>
    requires idle { IsIdle (state S.Store conn.old) }
    requires schema { HasCleanDisk (state S.Store conn.old) → (state S.Store conn.old).now.schema ≡ first_schema }
    ensures found { FindsThat result (λ db found. RecallsFirst db found.0 found.1)
        (state S.Store conn.old) (state S.Store conn.new) }
    ensures refused { HasCleanDisk (state S.Store conn.new)
        → IfErr result (λ e. Adopts First (state S.Store conn.old).now (Err e)) }
    ensures open { HasCleanDisk (state S.Store conn.new) → gives_up result ≡ false
        → IsTrue (state S.Store conn.new).is_open }
    ensures quiet { IsStill (state S.Store conn.old) (state S.Store conn.new) (gives_up result) }
{
    let mut known = Found::new(alloc);
    let (dictionary, count) = examine(conn, alloc, Format::First, &mut known, progress)?;
    let Ok(marks) = Vec::from_elem(alloc, false, count as usize) else {
        return Err(AdoptError::NoMemory);
    };
    Ok((dictionary, Memory::of(known, &marks)))
}
