//! A policy: a list of rules, of which the first that matches decides.
ghost use Rattle.std.specs.Prelude.{◌≡◌, ◌↔◌, List, All, IsTrue};
ghost use Rattle.reg_policy.specs.Decision.{Matches, decision_of};
ghost use Rattle.reg_policy.specs.Rules.{IsRisingFrom, ReadsPolicy};
ghost use Rattle.reg_policy.specs.declared.rule.Rule.{Rule as RuleValue};

use crate::document::read_list;
use crate::error::PolicyError;
use crate::rule::Rule;
use crate::{Decision, Subject};
use std::alloc::Global;
use std::marker::Model;

/// The rules of a policy, in the order of the text. Their numbers rise from 1.
pub struct Policy {
    rules: Vec<Rule>,
}

// Written out, so that no crate that lets one go proves again how its parts are dropped.
impl Drop for Policy {
    fn drop(self) {
        let Policy { rules: _ } = self;
    }
}

impl Model for Policy {
    ghost Value = { List RuleValue };

    ghost view = { λ p. p.rules.items };

    ghost invariant = { λ p. IsRisingFrom 0 p.rules.items };
}

impl Policy {
    /// The policy that the text has, or the first refusal that holds of it.
    pub fn read(alloc: Global, text: &str) -> Result<Policy, PolicyError>
        ensures reads { ReadsPolicy text.now result }
    {
        let rules = read_list(alloc, text)?;
        if !is_rising(&rules) {
            return Err(PolicyError::Order);
        }
        Ok(Policy { rules })
    }

    /// What the first rule that matches says. The denial 0 means that none does.
    pub fn decide(&self, subject: &Subject) -> Decision
        ensures decides { result ≡ decision_of self.now subject.now }
        ensures no_match { (result ≡ Decision.Deny 0) ↔ All (λ r. ¬ (Matches r subject.now)) self.now }
    {
        first_match(&self.rules, subject)
    }
}

/// What the first of the rules that matches says.
fn first_match(rules: &[Rule], subject: &Subject) -> Decision
    ensures { result ≡ decision_of rules.now subject.now }
{
    for rule in rules {
        if rule.matches(subject) {
            return rule.decision();
        }
    }
    Decision::Deny(0)
}

/// Whether the numbers of the rules rise strictly.
fn is_rising(rules: &[Rule]) -> bool
    ensures { IsTrue result ↔ IsRisingFrom 0 rules.now }
{
    let mut last = 0;
    for rule in rules {
        if rule.number <= last {
            return false;
        }
        last = rule.number;
    }
    true
}
