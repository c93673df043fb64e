//! A withdrawal: a firm's own deposit is withdrawn, and stays held.

ghost use Rattle.std.specs.Prelude.{◌≡◌, ◌≢◌, ℤ, List, false, Err, IfOk};
ghost use Rattle.reg_policy.specs.declared.rule.Rule.{Rule};
ghost use Rattle.reg_store.specs.Keep.{fails};
ghost use Rattle.reg_desk.specs.Asked.{withdraw as asks_withdraw};
ghost use Rattle.reg_desk.specs.Machine.{held};
ghost use Rattle.reg_desk.specs.Serving.{OnlyReads, ServesPermitted, withdrawn_of};

use crate::answer::Answer;
use crate::serving::refused;
use reg_policy::{Caller, Name};
use reg_store::{Keep, KeepError};

/// What a withdrawal is answered that the policy permits, under whichever rules and on whichever day.
pub(super) fn serve_withdraw<K: Keep>(
    keep: &mut K,
    caller: &Caller,
    project: &Name,
    number: u32,
) -> Answer
    requires { K.has_failed keep.old ≡ false }
    ensures { (rules : List Rule) (day : ℤ) → ServesPermitted K.Keep rules
        (asks_withdraw caller.now project.now number day) keep.old keep.new result }
{
    match own_withdrawn(keep, caller, project, number) {
        Err(error) => refused(error),
        Ok(None) => Answer::Unknown,
        Ok(Some(true)) => Answer::Withdrawn(number),
        Ok(Some(false)) => match keep.withdraw(number) {
            Err(error) => refused(error),
            Ok(()) => Answer::Withdrawn(number),
        },
    }
}

/// Whether the deposit is withdrawn, if it is the project's and the caller's firm sent it.
fn own_withdrawn<K: Keep>(
    keep: &mut K,
    caller: &Caller,
    project: &Name,
    number: u32,
) -> Result<Option<bool>, KeepError>
    requires { K.has_failed keep.old ≡ false }
    ensures reads { OnlyReads K.Keep keep.old keep.new (fails result) }
    ensures own { K.is_sound keep.new → IfOk result (λ withdrawn.
        withdrawn ≡ withdrawn_of caller.now project.now (held number (K.deposits keep.old))) }
    ensures refused { result ≢ Err KeepError.Full }
{
    if number == 0 || number > keep.count() {
        return Ok(None);
    }
    let head = keep.head(number)?;
    if head.project == *project && head.firm == caller.firm {
        Ok(Some(head.withdrawn))
    } else {
        Ok(None)
    }
}
