//! Laws of the definitions, which the contracts alone do not state.
ghost use Rattle.std.specs.Prelude.{◌≡◌, List};
ghost use Rattle.reg_policy.specs.Callers.{HasCallers};
ghost use Rattle.reg_policy.specs.Days.{OneTextOfDay};
ghost use Rattle.reg_policy.specs.Decision.{Question, IsFirstMatch, decision_of};
ghost use Rattle.reg_policy.specs.Rules.{HasRules};
ghost use Rattle.reg_policy.specs.declared.callers.Credential.{Credential};
ghost use Rattle.reg_policy.specs.declared.rule.Rule.{Rule};

use crate::Policy;

/// Whatever is asked, the decision is that of the first rule that matches: the rules are some that do not match,
/// one that does, and others. Where none matches, it is the denial 0.
pub fn first_match_decides(policy: &Policy)
    ensures { (asked : Question) → IsFirstMatch policy.now asked (decision_of policy.now asked) }
{}

/// A text is one policy at most: its rules are determined, with all that they set.
pub fn one_policy(text: &str)
    ensures { (rules others : List Rule) → HasRules text.now rules → HasRules text.now others → rules ≡ others }
{}

/// A text is one list of callers at most.
pub fn one_list_of_callers(text: &str)
    ensures { (callers others : List Credential) → HasCallers text.now callers
        → HasCallers text.now others → callers ≡ others }
{}

/// A day has one text at most.
pub fn one_text_of_day()
    ensures { OneTextOfDay }
{}
