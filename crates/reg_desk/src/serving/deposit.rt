//! A deposit: taken once, with a receipt.

ghost use Rattle.std.specs.Prelude.{◌≡◌, ◌≢◌, ◌≤◌, None, Err, IfOk, IfSome, false, length};
ghost use Rattle.reg_store.specs.Deposit.{sents};
ghost use Rattle.reg_store.specs.Keep.{fails};
ghost use Rattle.reg_desk.specs.Machine.{first_equal};
ghost use Rattle.reg_desk.specs.Serving.{OnlyReads, ServesPermittedDeposit};

use crate::answer::Answer;
use crate::serving::body::refusal_of;
use crate::serving::refused;
use ags_check::{Checked, check};
use ags_rows::LIMIT;
use reg_policy::{Caller, Day, Name};
use reg_store::{Keep, KeepError};
use std::alloc::Global;

/// What a deposit is answered that the policy permits.
pub(super) fn serve_deposit<K: Keep>(
    alloc: Global,
    keep: &mut K,
    caller: &Caller,
    project: &Name,
    embargo: Day,
    bytes: &[u8],
) -> Answer
    requires { K.has_failed keep.old ≡ false }
    ensures { ServesPermittedDeposit K.Keep
        caller.now project.now embargo bytes.now keep.old keep.new result }
{
    if bytes.len() > LIMIT {
        return Answer::TooLarge;
    }
    match check(alloc, keep.dictionary(), bytes) {
        Err(error) => refusal_of(error),
        Ok(checked) => serve_checked(keep, caller, project, embargo, &checked),
    }
}

/// What a deposit is answered that the policy permits and whose body has no finding.
fn serve_checked<K: Keep>(
    keep: &mut K,
    caller: &Caller,
    project: &Name,
    embargo: Day,
    checked: &Checked<'_>,
) -> Answer
    requires working { K.has_failed keep.old ≡ false }
    requires dictionary { checked.now.given ≡ K.dictionary keep.old }
    requires short { length checked.now.bytes ≤ LIMIT }
    ensures { ServesPermittedDeposit K.Keep
        caller.now project.now embargo checked.now.bytes keep.old keep.new result }
{
    match held_already(keep, &caller.firm, project, checked.bytes()) {
        Err(error) => refused(error),
        Ok(Some((number, until))) => receipt(number, Some(until), embargo),
        Ok(None) => {
            if keep.count() >= keep.limit() {
                return Answer::Full;
            }
            match keep.add(&caller.firm, project, embargo, checked) {
                Err(error) => refused(error),
                Ok(number) => receipt(number, None, embargo),
            }
        }
    }
}

/// The number and the embargo of the deposit that is held already, withdrawn or not: the first that is equal in firm,
/// project and bytes.
#[tactic(auto, using(crate::proofs::Taken::none_held))]
fn held_already<K: Keep>(
    keep: &mut K,
    firm: &Name,
    project: &Name,
    bytes: &[u8],
) -> Result<Option<(u32, Day)>, KeepError>
    requires { K.has_failed keep.old ≡ false }
    ensures reads { OnlyReads K.Keep keep.old keep.new (fails result) }
    ensures held { K.is_sound keep.new → IfOk result (λ held.
        held ≡ first_equal 1 firm.now project.now bytes.now (sents (K.deposits keep.old))) }
    ensures refused { result ≢ Err KeepError.Full }
{
    match keep.find(firm, project, bytes)? {
        None => Ok(None),
        Some(number) => {
            let head = keep.head(number)?;
            Ok(Some((number, head.embargo)))
        }
    }
}

/// The receipt of a deposit: one that was held already keeps its embargo, whatever is asked.
fn receipt(number: u32, held: Option<Day>, asked: Day) -> Answer
    ensures held { IfSome held (λ until. result ≡ Answer.Receipt number until) }
    ensures new { held ≡ None → result ≡ Answer.Receipt number asked }
{
    Answer::Receipt {
        number,
        embargo: held.unwrap_or(asked),
    }
}
