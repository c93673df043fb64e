//! What a command prints of the desk's answers, from a register that is soon full.

ghost use Rattle.std.specs.Prelude.{◌≡◌, false};

use ags_cli::Watched;
use ags_dict::Dictionary;
use ags_rows::built_in::MINI;
use reg_cli::{Action, Asker, Session, Token, ask_desk, ask_given, session_of};
use reg_desk::Desk;
use reg_policy::{Callers, Policy, Verb};
use reg_store::{Keep, PlainKeep};
use samples_of_tests::{CALLERS, FILE_A, FILE_B, POLICY};
use std::alloc::Global;
use std::test::Fail;

pub static DELTA: Asker<'static> = Asker {
    store: "",
    policy: "",
    callers: "",
    token: Token::Given("t-delta"),
    project: "N1",
    day: Some("2024-05-01"),
    shows_progress: false,
};

/// A policy that permits everything.
const ALL: &str = "[[rule]]\nnumber = 1\neffect = \"permit\"\n";

const RECEIPT: &[u8] = b"receipt 1 2024-06-01\n";

/// Files and numbers that commands ask for, in a register that has room for one deposit, what is printed, and the
/// status. The full register counts the deposit that is withdrawn, and so does the file that is sent again.
#[rattlefmt::skip]
static OF_ONE: [(Verb, &[u8], &[u8], u8); 11] = [
    (Verb::Withdraw, b"", b"unknown\n", 3),
    (Verb::Deposit, FILE_A, RECEIPT, 0),
    (Verb::Deposit, FILE_B, b"full\n", 5),
    (Verb::List, b"", b"1 Delta 2024-06-01\n", 0),
    (Verb::Extract, b"", FILE_A, 0),
    (Verb::Withdraw, b"", b"withdrawn 1\n", 0),
    (Verb::Withdraw, b"", b"withdrawn 1\n", 0),
    (Verb::List, b"", b"", 0),
    (Verb::Extract, b"", b"unknown\n", 3),
    (Verb::Deposit, FILE_B, b"full\n", 5),
    (Verb::Deposit, FILE_A, RECEIPT, 0),
];

/// The same under a policy without a rule that permits a withdrawal.
static OF_NO_RULE: [(Verb, &[u8], &[u8], u8); 2] = [
    (Verb::Deposit, FILE_A, RECEIPT, 0),
    (Verb::Withdraw, b"", b"denied 0\n", 2),
];

/// Whether a request, for deposit 1 if it names one, prints this and ends with this status.
fn answers<K: Keep>(
    alloc: Global,
    desk: &mut Desk<K>,
    session: &Session<'_>,
    row: &(Verb, &[u8], &[u8], u8),
) -> Result<bool, Fail> {
    let (verb, file, want, ended) = row;
    let action = Action {
        verb: *verb,
        embargo: Some("2024-06-01"),
        groups: None,
        number: Some("1"),
        file: None,
    };
    let Ok(ask) = ask_given(&action, session.day) else {
        return Err(Fail::from("asked"));
    };
    let groups = ask.groups(alloc)?;
    let request = ask.request(session.caller, &session.project, session.day, file, &groups);
    let mut printed = Vec::new(alloc);
    let asked = ask_desk(alloc, desk, &request, &mut Watched::new(&mut printed));
    Ok((asked.unwrap_or(9) == *ended) & (printed.as_slice() == *want))
}

/// Whether a desk answers as the rows say.
fn all_answered<K: Keep>(
    alloc: Global,
    desk: &mut Desk<K>,
    session: &Session<'_>,
    rows: &[(Verb, &[u8], &[u8], u8)],
) -> Result<bool, Fail> {
    for row in rows {
        if !answers(alloc, desk, session, row)? {
            return Ok(false);
        }
    }
    Ok(true)
}

/// Whether a desk over this store answers so.
fn keep_answers<K: Keep + Drop>(
    alloc: Global,
    keep: K,
    policy: Policy,
    session: &Session<'_>,
    rows: &[(Verb, &[u8], &[u8], u8)],
) -> Result<bool, Fail>
    requires { K.has_failed keep ≡ false }
{
    all_answered(alloc, &mut Desk::new(keep, policy), session, rows)
}

/// Whether a register of one deposit answers so.
fn register_answers(
    alloc: Global,
    session: &Session<'_>,
    policy: &str,
    rows: &[(Verb, &[u8], &[u8], u8)],
) -> Result<bool, Fail> {
    let policy = Policy::read(alloc, policy)?;
    let dictionary = Dictionary::read(alloc, MINI)?;
    let keep = PlainKeep::with_limit(alloc, dictionary, 1);
    keep_answers(alloc, keep, policy, session, rows)
}

#[test]
fn answers_are_printed(rt: HostRuntime) -> Result<(), Fail> {
    let callers = Callers::read(rt.alloc(), CALLERS)?;
    let Ok(session) = session_of(rt.alloc(), &callers, b"t-delta", &DELTA, None) else {
        return Err(Fail::from("session"));
    };
    assert!(rt; register_answers(rt.alloc(), &session, ALL, &OF_ONE)?);
    assert!(rt; register_answers(rt.alloc(), &session, POLICY, &OF_NO_RULE)?);
    Ok(())
}
