//! The arguments of the command line.

ghost use Rattle.std.specs.Prelude.{◌≤◌, IfSome};

use Word::{Flag, Optional, Plain, Required};
use ags_cli::Fault;
use clap::error::ErrorKind;
use clap::{Arg, ArgAction, ArgMatches, Command, Error};
use reg_policy::Verb;
use std::alloc::{AllocError, Global};
use std::convert::AsStr;

/// What the arguments ask, of which the first is the program's name. No clause says so.
pub fn read_words<'w, S: AsStr>(alloc: Global, words: &'w [S]) -> Result<Words<'w>, Fault> {
    let [_program, words @ ..] = words else {
        return Err(Fault::WordsRefused);
    };
    let Some(form) = words.first().and_then(|name| form_of(name.as_str())) else {
        return Err(Fault::WordsRefused);
    };
    let given = given_by(alloc, form, words)?;
    command_words(form.name, &given).ok_or(Fault::WordsRefused)
}

/// A command with the texts that its arguments give.
#[derive(Clone, Copy)]
pub enum Words<'w> {
    Init {
        store: &'w str,
        dictionary: &'w str,
    },
    Migrate {
        store: &'w str,
        shows_progress: bool,
    },
    Verify(Verification<'w>),
    Version,
    Check {
        dictionary: &'w str,
        file: &'w str,
    },
    Ask(Asker<'w>, Action<'w>),
    Serve(Service<'w>),
}

/// What is verified: a register, and against which log.
#[derive(Clone, Copy)]
pub struct Verification<'w> {
    pub store: &'w str,
    pub log: Option<&'w str>,
    /// Whether the progress of the start is shown, whatever standard error is.
    pub shows_progress: bool,
}

/// What is requested, as it was given. What its command has no argument for is none.
#[derive(Clone, Copy)]
pub struct Action<'w> {
    pub verb: Verb,
    pub embargo: Option<&'w str>,
    pub groups: Option<&'w str>,
    pub number: Option<&'w str>,
    pub file: Option<&'w str>,
}

/// Who asks, of which store, by which policy, for which project and on which day, as it was given.
#[derive(Clone, Copy)]
pub struct Asker<'w> {
    pub store: &'w str,
    pub policy: &'w str,
    pub callers: &'w str,
    pub token: Token<'w>,
    pub project: &'w str,
    pub day: Option<&'w str>,
    /// Whether the progress of the start is shown, whatever standard error is.
    pub shows_progress: bool,
}

/// Where the token of the one who asks is.
#[derive(Clone, Copy)]
pub enum Token<'w> {
    /// It is this argument.
    Given(&'w str),
    /// It is in the file that this argument names.
    InFile(&'w str),
}

/// What `serve` listens on.
#[derive(Clone, Copy)]
pub enum Place<'w> {
    /// A port of 127.0.0.1: 1 to 65,535, as `read_words` reads it.
    Port(u16),
    /// A Unix socket at this path.
    Socket(&'w str),
}

/// What `serve` serves, as it was given.
#[derive(Clone, Copy)]
pub struct Service<'w> {
    pub store: &'w str,
    pub policy: &'w str,
    pub callers: &'w str,
    /// None where the day is that of the clock. No clause says so.
    pub day: Option<&'w str>,
    /// Whether the day of each request is that of the clock.
    pub is_day_by_clock: bool,
    pub place: Place<'w>,
    /// How many connections are served, 1 to 1,000,000 as `read_words` reads it; none where there is no end to them. No
    /// clause says so.
    pub connections: Option<u32>,
    /// The seconds for reading a request, and for writing its reply: 1 to 3,600, as `read_words` reads it. No clause
    /// says so.
    pub patience: u32,
    /// Whether `serve` ends after an answer that the store failed.
    pub ends_on_failure: bool,
    /// The file to which a line is appended for each connection.
    pub log: Option<&'w str>,
    /// The file whose change has policy, callers and log read anew.
    pub reload: Option<&'w str>,
    /// Whether the progress of the start is shown, whatever standard error is.
    pub shows_progress: bool,
}

/// A command: its name, the arguments that other commands have too, and its own.
struct Form {
    name: &'static str,
    shared: &'static [Word],
    own: &'static [Word],
}

/// An argument of a command, by the name under which it is read.
enum Word {
    /// An option that has to be given.
    Required(&'static str),
    /// An option that may be left out.
    Optional(&'static str),
    /// An option without a value, which may be left out.
    Flag(&'static str),
    /// An argument without an option's name.
    Plain(&'static str),
}

#[rattlefmt::skip]
static FORMS: [Form; 10] = [
    Form { name: "init", shared: &[], own: &[Required("store"), Required("dictionary")] },
    Form { name: "migrate", shared: &[], own: &[Required("store"), Flag("progress")] },
    Form { name: "verify", shared: &[], own: &[Required("store"), Optional("log"), Flag("progress")] },
    Form { name: "version", shared: &[], own: &[] },
    Form { name: "check", shared: &[], own: &[Required("dictionary"), Plain("file")] },
    Form { name: "deposit", shared: ASKER, own: &[Optional("embargo"), Plain("file")] },
    Form { name: "extract", shared: ASKER, own: &[Optional("groups"), Plain("number")] },
    Form { name: "list", shared: ASKER, own: &[] },
    Form { name: "withdraw", shared: ASKER, own: &[Plain("number")] },
    Form { name: "serve", shared: &[], own: &[
        Required("store"), Required("policy"), Required("callers"), Optional("port"), Optional("socket"),
        Optional("connections"), Flag("unending"), Optional("day"), Flag("day-by-clock"), Optional("patience"),
        Flag("end-on-failure"), Optional("log"), Optional("reload"), Flag("progress"),
    ] },
];

/// The arguments that say who asks.
#[rattlefmt::skip]
const ASKER: &[Word] = &[
    Required("store"), Required("policy"), Required("callers"), Optional("token"), Optional("token-file"),
    Required("project"), Optional("day"), Flag("progress"),
];

/// The form of the command that has this name.
fn form_of(name: &str) -> Option<&'static Form> {
    FORMS.iter().find(|form| form.name == name)
}

/// What the arguments give to a command, whose name is the first. A request for help is refused as well.
fn given_by<'w, S: AsStr>(
    alloc: Global,
    form: &Form,
    words: &'w [S],
) -> Result<ArgMatches<'w>, Fault> {
    let command = command(alloc, form)?;
    command.try_get_matches_from(words).map_err(fault_of)
}

fn fault_of(error: Error) -> Fault {
    match error.kind() {
        ErrorKind::OutOfMemory => Fault::NoMemory,
        _ => Fault::WordsRefused,
    }
}

/// The command of a form. The prover writes it out at each point of a function that holds one, and at most where it is
/// passed on, so few functions do.
fn command<'w>(alloc: Global, form: &Form) -> Result<Command<'w>, AllocError> {
    let mut command = Command::new(alloc, form.name)
        .disable_help_flag(true)
        .disable_version_flag(true);
    for word in form.shared.iter().chain(form.own) {
        command = command.arg(argument(alloc, word))?;
    }
    Ok(command)
}

fn argument<'w>(alloc: Global, word: &Word) -> Arg<'w> {
    match word {
        Word::Required(name) => option(alloc, name).required(true),
        Word::Optional(name) => option(alloc, name),
        Word::Flag(name) => flag(alloc, name),
        Word::Plain(name) => Arg::new(alloc, name).required(true).action(ArgAction::Set),
    }
}

fn option<'w>(alloc: Global, name: &'w str) -> Arg<'w> {
    Arg::new(alloc, name).long(name).action(ArgAction::Set)
}

fn flag<'w>(alloc: Global, name: &'w str) -> Arg<'w> {
    Arg::new(alloc, name).long(name).action(ArgAction::SetTrue)
}

/// What the arguments of the command of this name give.
fn command_words<'w>(name: &str, given: &ArgMatches<'w>) -> Option<Words<'w>> {
    match name {
        "init" => init_words(given),
        "migrate" => migrate_words(given),
        "verify" => verify_words(given),
        "version" => Some(Words::Version),
        "check" => check_words(given),
        "deposit" => asking_words(given, Verb::Deposit),
        "extract" => asking_words(given, Verb::Extract),
        "list" => asking_words(given, Verb::List),
        "withdraw" => asking_words(given, Verb::Withdraw),
        "serve" => Some(Words::Serve(service_given(given)?)),
        _ => None,
    }
}

fn init_words<'w>(given: &ArgMatches<'w>) -> Option<Words<'w>> {
    Some(Words::Init {
        store: given.get_str("store")?,
        dictionary: given.get_str("dictionary")?,
    })
}

fn migrate_words<'w>(given: &ArgMatches<'w>) -> Option<Words<'w>> {
    Some(Words::Migrate {
        store: given.get_str("store")?,
        shows_progress: given.get_flag("progress"),
    })
}

fn verify_words<'w>(given: &ArgMatches<'w>) -> Option<Words<'w>> {
    Some(Words::Verify(Verification {
        store: given.get_str("store")?,
        log: given.get_str("log"),
        shows_progress: given.get_flag("progress"),
    }))
}

fn check_words<'w>(given: &ArgMatches<'w>) -> Option<Words<'w>> {
    Some(Words::Check {
        dictionary: given.get_str("dictionary")?,
        file: given.get_str("file")?,
    })
}

fn asking_words<'w>(given: &ArgMatches<'w>, verb: Verb) -> Option<Words<'w>> {
    let action = Action {
        verb,
        embargo: given.get_str("embargo"),
        groups: given.get_str("groups"),
        number: given.get_str("number"),
        file: given.get_str("file"),
    };
    Some(Words::Ask(asker_given(given)?, action))
}

fn asker_given<'w>(given: &ArgMatches<'w>) -> Option<Asker<'w>> {
    Some(Asker {
        store: given.get_str("store")?,
        policy: given.get_str("policy")?,
        callers: given.get_str("callers")?,
        token: token_given(given)?,
        project: given.get_str("project")?,
        day: given.get_str("day"),
        shows_progress: given.get_flag("progress"),
    })
}

/// The token, or the file that has it: one of them.
fn token_given<'w>(given: &ArgMatches<'w>) -> Option<Token<'w>> {
    match (given.get_str("token"), given.get_str("token-file")) {
        (Some(token), None) => Some(Token::Given(token)),
        (None, Some(path)) => Some(Token::InFile(path)),
        _ => None,
    }
}

fn service_given<'w>(given: &ArgMatches<'w>) -> Option<Service<'w>> {
    let day = given.get_str("day");
    let is_day_by_clock = given.get_flag("day-by-clock");
    if is_day_by_clock && day.is_some() {
        return None;
    }
    Some(Service {
        store: given.get_str("store")?,
        policy: given.get_str("policy")?,
        callers: given.get_str("callers")?,
        day,
        is_day_by_clock,
        place: place_given(given)?,
        connections: connections_given(given)?,
        patience: patience_given(given)?,
        ends_on_failure: given.get_flag("end-on-failure"),
        log: given.get_str("log"),
        reload: given.get_str("reload"),
        shows_progress: given.get_flag("progress"),
    })
}

/// The port, or the socket: one of them.
fn place_given<'w>(given: &ArgMatches<'w>) -> Option<Place<'w>> {
    match (given.get_str("port"), given.get_str("socket")) {
        (Some(_), None) => Some(Place::Port(number(given, "port", 65_535)? as u16)),
        (None, Some(path)) => Some(Place::Socket(path)),
        _ => None,
    }
}

/// How many connections are served, or that there is no end to them: one of both is given.
fn connections_given(given: &ArgMatches<'_>) -> Option<Option<u32>> {
    let is_unending = given.get_flag("unending");
    match given.get_str("connections") {
        Some(_) if !is_unending => Some(Some(number(given, "connections", MOST_CONNECTIONS)?)),
        None if is_unending => Some(None),
        _ => None,
    }
}

/// The seconds of patience with a connection.
fn patience_given(given: &ArgMatches<'_>) -> Option<u32> {
    match given.get_str("patience") {
        Some(_) => number(given, "patience", MOST_PATIENCE),
        None => Some(USUAL_PATIENCE),
    }
}

/// The greatest number of connections that `serve` serves.
const MOST_CONNECTIONS: u32 = 1_000_000;

/// The greatest patience with a connection, in seconds.
const MOST_PATIENCE: u32 = 3_600;

/// The patience where none is given.
const USUAL_PATIENCE: u32 = 30;

/// The number that digits give under a name, from 1 to `most`.
fn number(given: &ArgMatches<'_>, name: &str, most: u32) -> Option<u32>
    ensures { IfSome result (λ number. (1 ≤ number) × (number ≤ most)) }
{
    let digits = given.get_str(name)?;
    if !digits.bytes().all(|b| b.is_ascii_digit()) {
        return None;
    }
    match digits.parse::<u32>() {
        Ok(number) if (1..=most).contains(&number) => Some(number),
        _ => None,
    }
}
