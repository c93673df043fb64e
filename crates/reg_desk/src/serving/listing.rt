//! A listing of the deposits that are seen.

ghost use Rattle.std.specs.Prelude.{◌≡◌, ◌≢◌, false, Err, IfOk};
ghost use Rattle.reg_store.specs.Keep.{fails};
ghost use Rattle.reg_desk.specs.Asked.{listing as asks_listing};
ghost use Rattle.reg_desk.specs.Machine.{IsListing};
ghost use Rattle.reg_desk.specs.Serving.{OnlyReads, ServesPermitted, terms_at};

use crate::answer::{Answer, Listed};
use crate::serving::refused;
use crate::serving::seen::seen_head;
use ags_text::Sequence;
use reg_policy::{Caller, Day, Name, Policy};
use reg_store::{Keep, KeepError};
use std::alloc::Global;

/// What a list is answered that the policy permits.
pub(super) fn serve_listing<K: Keep>(
    alloc: Global,
    keep: &mut K,
    policy: &Policy,
    caller: &Caller,
    project: &Name,
    day: Day,
) -> Answer
    requires { K.has_failed keep.old ≡ false }
    ensures { ServesPermitted K.Keep policy.now (asks_listing caller.now project.now day) keep.old keep.new result }
{
    match lines_of(alloc, keep, policy, caller, project, day) {
        Err(error) => refused(error),
        Ok(lines) => Answer::Listing(Sequence::from_vec(lines)),
    }
}

/// The lines of the project's deposits that are not withdrawn and whose row of PROJ is shown.
fn lines_of<K: Keep>(
    alloc: Global,
    keep: &mut K,
    policy: &Policy,
    caller: &Caller,
    project: &Name,
    day: Day,
) -> Result<Vec<Listed>, KeepError>
    requires { K.has_failed keep.old ≡ false }
    ensures reads { OnlyReads K.Keep keep.old keep.new (fails result) }
    ensures listed { K.is_sound keep.new → IfOk result (λ lines.
        ∥ IsListing (terms_at K.Keep policy.now keep.old) caller.now project.now day 1
        (K.deposits keep.old) lines.items ∥₁) }
    ensures refused { result ≢ Err KeepError.Full }
{
    let numbers = keep.numbers(project)?;
    let mut lines = Vec::new(alloc);
    for number in &numbers {
        match seen_head(alloc, keep, policy, caller, project, day, *number)? {
            Some(head) => lines.push(Listed {
                number: *number,
                firm: head.firm,
                embargo: head.embargo,
            })?,
            None => {}
        }
    }
    Ok(lines)
}
