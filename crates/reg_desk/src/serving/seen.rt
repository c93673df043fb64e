//! The deposits that a caller sees.

ghost use Rattle.std.specs.Prelude.{◌≡◌, ◌≢◌, ◌<◌, ◌≤◌, false, length, Some, Err, IfOk};
ghost use Rattle.reg_store.specs.Deposit.{Deposit};
ghost use Rattle.reg_store.specs.Keep.{fails};
ghost use Rattle.reg_desk.specs.Machine.{held};
ghost use Rattle.reg_desk.specs.Serving.{IsSeenHead, OfHeld, OnlyReads, terms_at};
ghost use Rattle.reg_desk.specs.View.{Sees};

use crate::view::{Look, shows_rows};
use reg_policy::{Caller, Day, Name, Policy};
use reg_store::{Keep, KeepError, KeptHead};
use std::alloc::Global;

/// The head of a deposit, if it is the project's and not withdrawn, and its row of PROJ is shown. Of a deposit that is
/// hidden no other row is read than this one and those that it reaches.
pub(super) fn seen_head<K: Keep>(
    alloc: Global,
    keep: &mut K,
    policy: &Policy,
    caller: &Caller,
    project: &Name,
    day: Day,
    number: u32,
) -> Result<Option<KeptHead>, KeepError>
    requires working { K.has_failed keep.old ≡ false }
    requires number { K.is_sound keep.old → (0 < number) × (number ≤ length (K.deposits keep.old)) }
    ensures reads { OnlyReads K.Keep keep.old keep.new (fails result) }
    ensures seen { K.is_sound keep.new → IfOk result (λ head.
        (d : Deposit) → held number (K.deposits keep.old) ≡ Some d
        → ∥ IsSeenHead (terms_at K.Keep policy.now keep.old) caller.now project.now day d head ∥₁) }
    ensures refused { result ≢ Err KeepError.Full }
{
    let head = keep.head(number)?;
    if head.withdrawn || head.project != *project {
        return Ok(None);
    }
    let look = Look::at(policy, caller, &head, day);
    if !sees_project(alloc, keep, &look, number)? {
        return Ok(None);
    }
    Ok(Some(head))
}

/// Whether the deposit's row of PROJ is shown.
fn sees_project<K: Keep>(
    alloc: Global,
    keep: &mut K,
    look: &Look,
    number: u32,
) -> Result<bool, KeepError>
    requires working { K.has_failed keep.old ≡ false }
    requires number { K.is_sound keep.old → (0 < number) × (number ≤ length (K.deposits keep.old)) }
    ensures reads { OnlyReads K.Keep keep.old keep.new (fails result) }
    ensures seen { K.is_sound keep.new → IfOk result (λ seen.
        OfHeld K.Keep keep.old number (λ file. Sees look.now file seen)) }
    ensures refused { result ≢ Err KeepError.Full }
{
    let rows = keep.project_rows(number)?;
    shows_rows(alloc, look, &rows)
}
