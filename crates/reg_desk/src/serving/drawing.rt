//! An extract, from the rows and steps that are kept of a deposit.

ghost use Rattle.std.specs.Prelude.{◌≡◌, ◌≢◌, ◌<◌, ◌≤◌, false, length, option_map, Err, IfOk, IfSome};
ghost use Rattle.ags_check.specs.Findings.{file_of};
ghost use Rattle.reg_store.specs.Keep.{fails};
ghost use Rattle.reg_desk.specs.Asked.{extract as asks_extract, names_in};
ghost use Rattle.reg_desk.specs.Extract.{IsExtractText, IsOfRows};
ghost use Rattle.reg_desk.specs.Machine.{IsDrawnFrom, held};
ghost use Rattle.reg_desk.specs.Serving.{IsAnswerOfRows, OfHeld, OnlyReads, ServesPermitted, terms_at, text_answer};
ghost use Rattle.reg_desk.specs.View.{IsViewOf};

use crate::answer::Answer;
use crate::serving::refused;
use crate::serving::seen::seen_head;
use crate::view::{Look, extract};
use ags_links::Graph;
use ags_text::Sequence;
use reg_policy::{Caller, Day, Name, Policy};
use reg_store::{Keep, KeepError, KeptRow};
use std::alloc::Global;

/// What an extract is answered that the policy permits.
pub(super) fn serve_extract<K: Keep>(
    alloc: Global,
    keep: &mut K,
    policy: &Policy,
    caller: &Caller,
    project: &Name,
    number: u32,
    groups: &[&[u8]],
    day: Day,
) -> Answer
    requires { K.has_failed keep.old ≡ false }
    ensures serves { ServesPermitted K.Keep policy.now
        (asks_extract caller.now project.now number (names_in groups.now) day) keep.old keep.new result }
    ensures rows { IsAnswerOfRows result }
{
    match draw(alloc, keep, policy, caller, project, number, groups, day) {
        Err(error) => refused(error),
        Ok(None) => Answer::Unknown,
        Ok(Some(text)) => Answer::Text(Sequence::from_vec(text)),
    }
}

/// The text of the extract of a deposit of the project, if it is seen: that is decided first, as for a listing.
fn draw<K: Keep>(
    alloc: Global,
    keep: &mut K,
    policy: &Policy,
    caller: &Caller,
    project: &Name,
    number: u32,
    groups: &[&[u8]],
    day: Day,
) -> Result<Option<Vec<u8>>, KeepError>
    requires { K.has_failed keep.old ≡ false }
    ensures reads { OnlyReads K.Keep keep.old keep.new (fails result) }
    ensures drawn { K.is_sound keep.new → IfOk result (λ text.
        ∥ IsDrawnFrom (terms_at K.Keep policy.now keep.old) caller.now project.now (names_in groups.now) day
        (held number (K.deposits keep.old)) (text_answer (option_map (λ t. t.items) text)) ∥₁) }
    ensures rows { IfOk result (λ text. IfSome text (λ t. IsOfRows t.items)) }
    ensures refused { result ≢ Err KeepError.Full }
{
    if number == 0 || number > keep.count() {
        return Ok(None);
    }
    let Some(head) = seen_head(alloc, keep, policy, caller, project, day, number)? else {
        return Ok(None);
    };
    let look = Look::at(policy, caller, &head, day);
    let text = draw_seen(alloc, keep, &look, number, groups)?;
    Ok(Some(text))
}

/// The text of the deposit's extract, from all its rows and steps.
fn draw_seen<K: Keep>(
    alloc: Global,
    keep: &mut K,
    look: &Look,
    number: u32,
    groups: &[&[u8]],
) -> Result<Vec<u8>, KeepError>
    requires working { K.has_failed keep.old ≡ false }
    requires number { K.is_sound keep.old → (0 < number) × (number ≤ length (K.deposits keep.old)) }
    ensures reads { OnlyReads K.Keep keep.old keep.new (fails result) }
    ensures drawn { K.is_sound keep.new → IfOk result (λ text. OfHeld K.Keep keep.old number (λ file.
        IsExtractText look.now (file_of file) (names_in groups.now) text.items)) }
    ensures rows { IfOk result (λ text. IsOfRows text.items) }
    ensures refused { result ≢ Err KeepError.Full }
{
    let (rows, graph) = read_view(keep, number)?;
    extract(alloc, look, groups, &rows, &graph)
}

/// The rows and the steps of a kept deposit.
fn read_view<K: Keep>(keep: &mut K, number: u32) -> Result<(Vec<KeptRow>, Graph), KeepError>
    requires working { K.has_failed keep.old ≡ false }
    requires number { K.is_sound keep.old → (0 < number) × (number ≤ length (K.deposits keep.old)) }
    ensures reads { OnlyReads K.Keep keep.old keep.new (fails result) }
    ensures seen { K.is_sound keep.new
        → IfOk result (λ seen. OfHeld K.Keep keep.old number (λ file. IsViewOf seen.0.items seen.1 file)) }
    ensures refused { result ≢ Err KeepError.Full }
{
    let rows = keep.rows(number)?;
    let graph = keep.steps(number)?;
    Ok((rows, graph))
}
