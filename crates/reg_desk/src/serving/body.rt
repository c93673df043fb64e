//! Bodies that a caller sends: why they are refused, and the check of one.

ghost use Rattle.std.specs.Prelude.{◌≡◌, ◌≢◌, ◌⊎◌, [], List};
ghost use Rattle.ags_rows.specs.declared.finding.Finding.{Finding};
ghost use Rattle.reg_desk.specs.Serving.{IsCleanCheck, IsRefusal};

use crate::answer::Answer;
use ags_check::{CheckError, findings};
use ags_dict::Dictionary;
use ags_rows::{FindingList, LIMIT};
use std::alloc::Global;

/// What the check of a body is answered: Clean where it is not too large and has no finding.
pub(super) fn check_body(alloc: Global, dictionary: &Dictionary, bytes: &[u8]) -> Answer
    ensures { IsRefusal dictionary.now bytes.now result ⊎ IsCleanCheck dictionary.now bytes.now result }
{
    if bytes.len() > LIMIT {
        return Answer::TooLarge;
    }
    match findings(alloc, dictionary, bytes) {
        Err(_) => Answer::NoMemory,
        Ok(found) => report(found),
    }
}

/// The answer to a body of these findings: Clean where there are none.
fn report(found: FindingList) -> Answer
    ensures none { found ≡ [] → result ≡ Answer.Clean }
    ensures some { found ≢ [] → result ≡ Answer.Findings found }
{
    if found.is_empty() {
        Answer::Clean
    } else {
        Answer::Findings(found)
    }
}

/// The answer to a body that its check refuses.
pub(super) fn refusal_of(error: CheckError) -> Answer
    ensures findings { (found : List Finding) → error ≡ CheckError.Findings found → result ≡ Answer.Findings found }
    ensures memory { error ≡ CheckError.NoMemory → result ≡ Answer.NoMemory }
{
    match error {
        CheckError::Findings(found) => Answer::Findings(found),
        CheckError::NoMemory => Answer::NoMemory,
    }
}
