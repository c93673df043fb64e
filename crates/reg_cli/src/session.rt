//! Who asks, for which project, on which day, and what.

ghost use Rattle.std.specs.Prelude.{◌≡◌, IfOk, Some};
ghost use Rattle.reg_policy.specs.Callers.{caller_of};
ghost use Rattle.reg_desk.specs.Asked.{names_in};
ghost use Rattle.reg_request.specs.Asks.{groups_sought};
ghost use Rattle.reg_cli.specs.Asking.{AsksDesk};
ghost use Rattle.reg_cli.specs.Sessions.{IsDayOr, request_in};

use crate::error::Failure;
use crate::report::ask_desk;
use crate::words::{Action, Asker};
use ags_cli::{Fault, Watched};
use reg_desk::Desk;
use reg_policy::{Caller, Callers, Day, Name, NameError, Verb};
use reg_request::{Ask, lists_groups, number_of_deposit};
use reg_store::Keep;
use std::alloc::Global;
use std::borrow::CowStr;
use std::io::Write;

/// Who asks by this token, for the project and on the day that the arguments give, or on `today` where they give none.
/// A token of no caller, a project that is no name and a day that is none are refused. No clause says which of them is
/// named.
pub fn session_of<'c>(
    alloc: Global,
    callers: &'c Callers,
    token: &[u8],
    asker: &Asker<'_>,
    today: Option<Day>,
) -> Result<Session<'c>, Fault>
    ensures caller { IfOk result (λ session.
        caller_of token.now callers.now ≡ Some session.caller.now) }
    ensures project { IfOk result (λ session. session.project ≡ asker.now.project.now) }
    ensures day { IfOk result (λ session. IsDayOr asker.now.day today session.day) }
{
    let Some(caller) = callers.find(token) else {
        return Err(Fault::TokenRefused);
    };
    let project = project_given(alloc, asker.project)?;
    let day = day_or(asker.day, today)?;
    Ok(Session {
        caller,
        project,
        day,
    })
}

/// Who asks, for which project, and on which day.
#[derive(Drop)]
pub struct Session<'c> {
    pub caller: &'c Caller,
    pub project: Name,
    pub day: Day,
}

impl Session<'_> {
    /// Requests from a desk what is asked, with its groups and its file, and prints the answer. It is refused as
    /// `ask_desk` is.
    pub fn ask<'w, K: Keep, W: Write>(
        &self,
        alloc: Global,
        desk: &mut Desk<K>,
        ask: &Ask<'_>,
        groups: &[&[u8]],
        file: &[u8],
        out: &mut Watched<W>,
    ) -> Result<u8, Failure<'w>>
        requires { names_in groups.now ≡ groups_sought ask.now }
        ensures { AsksDesk W.Write (request_in self.now ask.now file.now) desk.old desk.new out.old out.new result }
    {
        let request = ask.request(self.caller, &self.project, self.day, file, groups);
        ask_desk(alloc, desk, &request, out)
    }
}

/// The project of a name.
fn project_given(alloc: Global, text: &str) -> Result<Name, Fault>
    ensures { IfOk result (λ project. project ≡ text.now) }
{
    match Name::read(alloc, text) {
        Ok(name) => Ok(name),
        Err(NameError::BadName) => Err(Fault::ProjectRefused),
        Err(NameError::NoMemory) => Err(Fault::NoMemory),
    }
}

/// The day that a text writes, or the one for where none is given. `DayRefused` where that is none; no clause names the
/// refusal.
pub fn day_or(text: Option<&str>, other: Option<Day>) -> Result<Day, Fault>
    ensures { IfOk result (λ day. IsDayOr text.entry other day) }
{
    match text {
        Some(text) => Day::read(text).ok_or(Fault::DayRefused),
        None => other.ok_or(Fault::DayRefused),
    }
}

/// What is asked, on a day, by the arguments that give it. No clause says so.
pub fn ask_given<'w>(action: &Action<'w>, day: Day) -> Result<Ask<'w>, Fault> {
    match action.verb {
        Verb::Deposit => Ok(Ask::Deposit(day_or(action.embargo, Some(day))?)),
        Verb::Extract => {
            let groups = groups_given(action.groups)?;
            Ok(Ask::Extract(number_given(action.number)?, groups))
        }
        Verb::Withdraw => Ok(Ask::Withdraw(number_given(action.number)?)),
        _ => Ok(Ask::List),
    }
}

/// The text that lists groups, if it is given.
fn groups_given<'w>(text: Option<&'w str>) -> Result<Option<CowStr<'w>>, Fault> {
    match text {
        Some(text) if !lists_groups(text.as_bytes()) => Err(Fault::GroupsRefused),
        Some(text) => Ok(Some(CowStr::Borrowed(text))),
        None => Ok(None),
    }
}

/// The number of a deposit that a text writes.
fn number_given(text: Option<&str>) -> Result<u32, Fault> {
    number_of_deposit(text.unwrap_or("").as_bytes()).ok_or(Fault::NumberRefused)
}
