//! What a policy is asked about, and what it answers.
ghost use Rattle.std.specs.Prelude.{◌≡◌};

use crate::{Caller, Day, Name};
use ags_text::Cell;
use std::marker::Model;

/// What a caller wants to do. `See` is to see one row.
#[derive(Clone, Copy, Debug, PartialEq, Eq)]
#[rattlefmt::skip]
pub enum Verb { Deposit, Check, List, Extract, Withdraw, See }

/// What a policy knows of one row.
#[derive(Clone, Copy)]
pub struct RowFacts<'a> {
    pub group: &'a [u8],
    /// Whether the deposit's firm is the caller's.
    pub own: bool,
    /// Whether the embargo is over.
    pub past: bool,
    /// The headings of the group.
    pub headings: &'a [Cell<'a>],
    /// The row's entries, one under each heading.
    pub cells: &'a [Cell<'a>],
}

/// Who asks for what, and on which day: a request, or to see one row.
#[derive(Drop)]
pub struct Subject<'a> {
    pub(crate) caller: &'a Caller,
    pub(crate) project: &'a Name,
    pub(crate) verb: Verb,
    pub(crate) row: Option<RowFacts<'a>>,
    pub(crate) day: Day,
}

impl<'a> Model for Subject<'a> {
    ghost use Rattle.std.specs.Prelude.{option_map};
    ghost use Rattle.reg_policy.specs.Decision.{Question, facts_of};

    ghost Value = { Question };

    ghost view = { λ s. record {
      firm = s.caller.now.firm;
      role = s.caller.now.role;
      project = s.project.now;
      verb = s.verb;
      row = option_map facts_of s.row;
      day = s.day;
    } };
}

impl<'a> Subject<'a> {
    ghost use Rattle.reg_policy.specs.Decision.{facts_of, request_question, row_question};

    /// A caller's request in a project. It meets no rule that sets something of a row.
    pub fn of_request(caller: &'a Caller, project: &'a Name, verb: Verb, day: Day) -> Subject<'a>
        ensures { result ≡ request_question caller.now project.now verb day }
    {
        Subject {
            caller,
            project,
            verb,
            row: None,
            day,
        }
    }

    /// That a caller wants to see a row of a project: the verb is `See`.
    pub fn of_row(caller: &'a Caller, project: &'a Name, row: RowFacts<'a>, day: Day) -> Subject<'a>
        ensures { result ≡ row_question caller.now project.now (facts_of row.entry) day }
    {
        Subject {
            caller,
            project,
            verb: Verb::See,
            row: Some(row),
            day,
        }
    }
}

/// The answer, with the number of the rule that decides: 0 where no rule matches.
#[derive(Clone, Copy, Debug, PartialEq, Eq)]
#[rattlefmt::skip]
pub enum Decision { Permit(u32), Deny(u32) }
