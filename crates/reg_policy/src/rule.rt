//! One rule of a policy, and whether it matches what is asked.
ghost use Rattle.std.specs.Prelude.{◌≡◌, ◌↔◌, IsTrue, option_map};
ghost use Rattle.reg_policy.specs.Decision.{HasEntry, Matches, Meets, MeetsEntry, MeetsRow, effect_of, facts_of, matches};

use crate::period::Period;
use crate::{Decision, Name, RowFacts, Subject, Verb};
use ags_text::{Bytes, Cell};

/// What a rule decides where it matches.
#[derive(Clone, Copy)]
#[rattlefmt::skip]
pub(crate) enum Effect { Permit, Deny }

/// A heading and an entry under it.
#[derive(Drop)]
#[rattlefmt::skip]
pub(crate) struct WantedEntry { pub(crate) heading: Bytes, pub(crate) value: Bytes }

/// A rule. What it does not set matches all.
#[derive(Drop)]
pub(crate) struct Rule {
    /// From 1 to 9999.
    pub(crate) number: u32,
    pub(crate) effect: Effect,
    pub(crate) firm: Option<Name>,
    pub(crate) role: Option<Name>,
    pub(crate) project: Option<Name>,
    pub(crate) verb: Option<Verb>,
    pub(crate) group: Option<Bytes>,
    /// Whether the deposit's firm is the caller's.
    pub(crate) own: Option<bool>,
    /// Whether the embargo is over.
    pub(crate) past: Option<bool>,
    pub(crate) entry: Option<WantedEntry>,
    pub(crate) period: Period,
}

impl Rule {
    /// Whether all that the rule sets is so.
    pub(crate) fn matches(&self, subject: &Subject) -> bool
        ensures test { result ≡ matches self.now subject.now }
        ensures relation { IsTrue result ↔ Matches self.now subject.now }
    {
        self.meets(subject)
    }

    fn meets(&self, subject: &Subject) -> bool
        ensures { IsTrue result ↔ Matches self.now subject.now }
    {
        meets_verb(self.verb, subject.verb)
            && meets_name(&self.firm, &subject.caller.firm)
            && meets_name(&self.role, &subject.caller.role)
            && meets_name(&self.project, subject.project)
            && self.meets_row(&subject.row)
            && self.period.holds(subject.day)
    }

    /// What the rule decides where it matches.
    pub(crate) fn decision(&self) -> Decision
        ensures { result ≡ effect_of self.now.effect self.now.number }
    {
        match self.effect {
            Effect::Permit => Decision::Permit(self.number),
            Effect::Deny => Decision::Deny(self.number),
        }
    }

    /// A rule that sets something of a row does not match a request without one.
    fn meets_row(&self, row: &Option<RowFacts>) -> bool
        ensures { IsTrue result ↔ MeetsRow self.now (option_map facts_of row.now) }
    {
        match row {
            Some(facts) => {
                meets_group(&self.group, facts.group)
                    && meets_fact(self.own, facts.own)
                    && meets_fact(self.past, facts.past)
                    && meets_entry(&self.entry, facts.headings, facts.cells)
            }
            None => {
                self.group.is_none()
                    && self.own.is_none()
                    && self.past.is_none()
                    && self.entry.is_none()
            }
        }
    }
}

fn meets_name(set: &Option<Name>, name: &Name) -> bool
    ensures { IsTrue result ↔ Meets set.now name.now }
{
    match set {
        Some(wanted) => wanted == name,
        None => true,
    }
}

fn meets_verb(set: Option<Verb>, verb: Verb) -> bool
    ensures { IsTrue result ↔ Meets set verb }
{
    match set {
        Some(wanted) => wanted == verb,
        None => true,
    }
}

fn meets_fact(set: Option<bool>, fact: bool) -> bool
    ensures { IsTrue result ↔ Meets set fact }
{
    match set {
        Some(wanted) => wanted == fact,
        None => true,
    }
}

fn meets_group(set: &Option<Bytes>, group: &[u8]) -> bool
    ensures { IsTrue result ↔ Meets set.now group.now }
{
    match set {
        Some(wanted) => wanted.as_slice() == group,
        None => true,
    }
}

fn meets_entry(set: &Option<WantedEntry>, headings: &[Cell], cells: &[Cell]) -> bool
    ensures { IsTrue result ↔ MeetsEntry set.now headings.now cells.now }
{
    match set {
        Some(entry) => has_entry(entry, headings, cells),
        None => true,
    }
}

/// Whether the row has the entry under its heading.
fn has_entry(entry: &WantedEntry, headings: &[Cell], cells: &[Cell]) -> bool
    ensures { IsTrue result ↔ HasEntry entry.now headings.now cells.now }
{
    for (heading, cell) in headings.iter().zip(cells) {
        if is_entry(entry, heading, cell) {
            return true;
        }
    }
    false
}

fn is_entry(entry: &WantedEntry, heading: &Cell, cell: &Cell) -> bool
    ensures { IsTrue result ↔ ((heading.now ≡ entry.now.heading) × (cell.now ≡ entry.now.value)) }
{
    heading.as_slice() == entry.heading.as_slice() && cell.as_slice() == entry.value.as_slice()
}
