//! The caller in README.md of reg_policy.

ghost use Rattle.std.specs.Prelude.{◌≡◌, option_map};
ghost use Rattle.reg_policy.specs.declared.subject.Verb.TheVariants.{Deposit};
ghost use Rattle.reg_policy.specs.Callers.{caller_of};
ghost use Rattle.reg_policy.specs.Decision.{decision_of, request_question};

use reg_policy::{Callers, Day, Decision, Name, Policy, Subject, Verb};
use samples_of_tests::{CALLERS, POLICY};
use std::test::Fail;

/// What a policy decides of a deposit in a project, which the holder of a token requests; none of nobody's token.
pub fn decision_on_deposit(
    policy: &Policy,
    callers: &Callers,
    token: &[u8],
    project: &Name,
    day: Day,
) -> Option<Decision>
    ensures { result ≡ option_map (λ c. decision_of policy.now (request_question c project.now Deposit day))
        (caller_of token.now callers.now) }
{
    let caller = callers.find(token)?;
    Some(policy.decide(&Subject::of_request(caller, project, Verb::Deposit, day)))
}

#[test]
fn delta_deposits(rt: HostRuntime) -> Result<(), Fail> {
    let policy = Policy::read(rt.alloc(), POLICY)?;
    let callers = Callers::read(rt.alloc(), CALLERS)?;
    let project = Name::read(rt.alloc(), "N1")?;
    let day = Day::read("2024-05-01").ok_or("day")?;
    let decision = decision_on_deposit(&policy, &callers, b"t-delta", &project, day);
    assert!(rt; decision == Some(Decision::Permit(10)));
    Ok(())
}
