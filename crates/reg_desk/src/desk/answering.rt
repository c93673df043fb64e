//! One request, and a list of them.

ghost use Rattle.std.specs.Prelude.{◌≡◌, ◌<◌, ◌≤◌, ◌+◌, ◌++◌, ◌∷◌, [], map, vec_len, IfOk, OnErr};
ghost use Rattle.std.specs.Vec.{vec_capacity};
ghost use Rattle.reg_desk.specs.Asked.{asked};
ghost use Rattle.reg_desk.specs.Serving.{is_failed};
ghost use Rattle.reg_desk.specs.Running.{ReceiptsSurviveIfSound, RunsIfSound};
ghost use Rattle.reg_desk.specs.Desks.{AnsweredBy, AreAnsweredBy, EndsARun, IsCleanText, IsSameAnswer};

use crate::answer::Answer;
use crate::desk::Desk;
use crate::request::Request;
use crate::serving::serve;
use reg_store::Keep;
use std::alloc::{AllocError, Global};

impl<K: Keep> Desk<K> {
    /// Answers one request. Once the desk has answered StoreFailed it answers nothing else, even when it is out
    /// of memory.
    pub fn answer(&mut self, alloc: Global, request: &Request<'_>) -> Answer
        ensures answered { AnsweredBy K.Keep self.old (asked request.entry.now) result self.new }
        ensures run { EndsARun K.Keep self.old (asked request.entry.now) result self.new }
        ensures clean { K.is_sound self.new.keep → IsCleanText K.Keep self.old.keep result }
        ensures same { K.is_sound self.new.keep
            → IsSameAnswer K.Keep self.old.policy self.old.keep (asked request.entry.now) result }
    {
        if self.failed {
            return Answer::StoreFailed;
        }
        let answer = serve(alloc, &mut self.keep, &self.policy, request);
        self.failed = is_store_failed(&answer);
        answer
    }

    /// Answers requests in order. At `Err` the desk is as it was. That its policy and its store's dictionary and limit
    /// stay, how many answers there are, and whether it has failed then, follow from `answered` and `unasked`.
    pub fn run(
        &mut self,
        alloc: Global,
        requests: &[Request<'_>],
    ) -> Result<Vec<Answer>, AllocError>
        // The answers at `Ok`: one to each request, in order.
        ensures answered { IfOk result (λ answers.
            AreAnsweredBy K.Keep self.old (map asked requests.entry.now) answers.items self.new) }

        // What a desk that had not failed answers over a sound store, and what a crash may leave.
        ensures runs { IfOk result (λ answers.
            RunsIfSound K.Keep self.old (map asked requests.entry.now) answers.items self.new) }
        ensures receipts { IfOk result (λ answers.
            ReceiptsSurviveIfSound K.Keep self.old (map asked requests.entry.now) answers.items self.new) }

        // At `Err` the desk is as it was.
        ensures unasked { OnErr result (self.new ≡ self.old) }
    {
        let mut answers = Vec::with_capacity(alloc, requests.len())?;
        for request in requests {
            let answer = self.answer(alloc, request);
            push_answer(&mut answers, answer);
        }
        Ok(answers)
    }
}

/// Appends the answer, for which there is room.
fn push_answer(answers: &mut Vec<Answer>, answer: Answer)
    requires { vec_len answers.old < vec_capacity answers.old }
    ensures answers { answers.new.items ≡ answers.old.items ++ answer ∷ [] }
    ensures len { vec_len answers.new ≡ vec_len answers.old + 1 }
    ensures room { vec_capacity answers.old ≤ vec_capacity answers.new }
{
    match answers.push(answer) {
        Ok(()) => {}
        Err(_) => unreachable!(),
    }
}

/// Whether the answer is that the store failed.
fn is_store_failed(answer: &Answer) -> bool
    ensures { result ≡ is_failed answer.now }
{
    matches!(answer, Answer::StoreFailed)
}
