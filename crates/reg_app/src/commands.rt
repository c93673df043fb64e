//! What each command does.

ghost use Rattle.std.specs.Prelude.{◌≡◌, ◌≤◌, false, IfOk, length};
ghost use Rattle.ags_cli.specs.Checking.{ChecksInput};
ghost use Rattle.ags_cli.specs.Streams.{HaveNotFailed, has_failed};

use crate::progress::ProgressLines;
use crate::server::serve_register;
use crate::stores::{Registers, make_private, migrate_register, open_register};
use crate::verification::verify;
use crate::version::print_version;
use ags_cli::{Watched, run_without_words, tell};
use reg_cli::{
    Action, Asker, Failure, Rights, Words, ask_given, check_given, dictionary_in, read_path,
    read_rights, read_token, read_words, session_of,
};
use reg_desk::Desk;
use reg_policy::Day;
use reg_request::Ask;
use reg_store::NextStart;
use std::convert::AsStr;
use std::io::{Read, Write};

/// Runs the program on its arguments. The first is its name; without others it checks the file that the input
/// carries. No clause says what is done with further arguments, or with what the machine says.
pub fn run_words<G: Registers, S: AsStr, R: Read, W: Write, E: Write>(
    rt: &HostRuntime,
    machine: Machine<G>,
    words: &[S],
    input: &mut Watched<R>,
    out: &mut Watched<W>,
    err: &mut Watched<E>,
) -> u8
    requires { HaveNotFailed input.old out.old err.old }
    ensures wordless { length words.now ≤ 1
        → ChecksInput R.Read W.Write E.Write input.old input.new out.old out.new err.old err.new result }
{
    if words.len() <= 1 {
        return run_without_words(rt.alloc(), input, out, err);
    }
    let words = match read_words(rt.alloc(), words) {
        Ok(words) => words,
        Err(fault) => return fault.tell(err),
    };
    match run_command(rt, machine, words, out, err) {
        Ok(status) => status,
        Err(failure) => failure.tell(err),
    }
}

/// What the machine says of a run.
#[derive(Drop)]
pub struct Machine<G> {
    /// Where its registers are.
    pub registers: G,
    /// The day that the clock tells, if it tells one.
    pub today: Option<Day>,
    /// Whether standard error is a terminal.
    pub is_terminal: bool,
}

/// Does what the arguments ask.
fn run_command<'w, G: Registers, W: Write, E: Write>(
    rt: &HostRuntime,
    machine: Machine<G>,
    words: Words<'w>,
    out: &mut Watched<W>,
    err: &mut Watched<E>,
) -> Result<u8, Failure<'w>>
    requires out { has_failed out.old ≡ false }
    requires err { has_failed err.old ≡ false }
{
    match words {
        Words::Init { store, dictionary } => {
            init(rt, machine.registers, store, dictionary, out, err)
        }
        Words::Migrate {
            store,
            shows_progress,
        } => migrate(rt, machine, store, shows_progress, out, err),
        Words::Verify(verification) => verify(rt, machine, verification, out, err),
        Words::Version => Ok(print_version(out)),
        Words::Check { dictionary, file } => check_file(rt, dictionary, file, out, err),
        Words::Ask(asker, action) => ask_register(rt, machine, &asker, &action, out, err),
        Words::Serve(service) => serve_register(rt, machine, &service, out, err),
    }
}

/// Makes a register.
fn init<'w, G: Registers, W: Write, E: Write>(
    rt: &HostRuntime,
    registers: G,
    store: &'w str,
    dictionary: &'w str,
    out: &mut Watched<W>,
    err: &mut Watched<E>,
) -> Result<u8, Failure<'w>> {
    let alloc = rt.alloc();
    let bytes = read_path(rt, alloc, dictionary)?;
    // Bytes that are no dictionary make no file.
    dictionary_in(alloc, &bytes)?;
    make_private(rt, store);
    let kept = registers.create(rt, alloc, store, &bytes)?;
    let _told = tell_if_nearly_full(&kept, err);
    G::close(kept);
    Ok(tell(out, b"created\n", 0))
}

/// Makes a register of format 1 one of format 2.
fn migrate<'w, G: Registers, W: Write, E: Write>(
    rt: &HostRuntime,
    machine: Machine<G>,
    store: &'w str,
    shows_progress: bool,
    out: &mut Watched<W>,
    err: &mut Watched<E>,
) -> Result<u8, Failure<'w>> {
    let alloc = rt.alloc();
    let is_wanted = machine.is_terminal || shows_progress;
    let mut lines = ProgressLines::new(alloc, rt, err, is_wanted);
    let kept = migrate_register(rt, alloc, machine.registers, store, &mut lines)?;
    let _told = tell_if_nearly_full(&kept, err);
    G::close(kept);
    Ok(tell(out, b"migrated\n", 0))
}

/// Checks a file under the dictionary of another.
fn check_file<'w, W: Write, E: Write>(
    rt: &HostRuntime,
    dictionary: &'w str,
    file: &'w str,
    out: &mut Watched<W>,
    err: &mut Watched<E>,
) -> Result<u8, Failure<'w>>
    requires out { has_failed out.old ≡ false }
    requires err { has_failed err.old ≡ false }
{
    let alloc = rt.alloc();
    let dictionary = read_path(rt, alloc, dictionary)?;
    check_given(alloc, &dictionary, read_path(rt, alloc, file), out, err)
}

/// Asks a register. Where a deposit takes the next start over three quarters of the memory, that is said after the
/// answer.
fn ask_register<'w, G: Registers, W: Write, E: Write>(
    rt: &HostRuntime,
    machine: Machine<G>,
    asker: &Asker<'w>,
    action: &Action<'w>,
    out: &mut Watched<W>,
    err: &mut Watched<E>,
) -> Result<u8, Failure<'w>> {
    let alloc = rt.alloc();
    let Rights {
        policy,
        callers,
        digests: _digests,
    } = read_rights(rt, alloc, asker.policy, asker.callers)?;
    let token = read_token(rt, alloc, asker.token)?;
    let session = session_of(alloc, &callers, &token, asker, machine.today)?;
    let ask = ask_given(action, session.day)?;
    let bytes = match action.file {
        Some(path) => read_path(rt, alloc, path)?,
        None => Vec::new(alloc),
    };
    let groups = ask.groups(alloc)?;
    let kept = open_shown(rt, machine, asker.store, asker.shows_progress, err)?;
    let mut desk = Desk::new(kept, policy);
    let was_nearly_full = desk.keep().is_nearly_full();
    let done = session.ask(alloc, &mut desk, &ask, &groups, &bytes, out);
    if !was_nearly_full {
        tell_after(&ask, desk.keep(), err);
    }
    G::close(desk.into_keep());
    done
}

/// Says after a deposit that the next start will need more than three quarters of the memory, if it will. What else is
/// asked makes it need no more.
fn tell_after<K: NextStart, E: Write>(ask: &Ask<'_>, keep: &K, err: &mut Watched<E>) {
    if let Ask::Deposit(_) = ask {
        let _told = tell_if_nearly_full(keep, err);
    }
}

/// Opens the register at a path, and says on standard error how far that is, where that is to be shown.
pub(crate) fn open_shown<'w, G: Registers, E: Write>(
    rt: &HostRuntime,
    machine: Machine<G>,
    path: &str,
    shows_progress: bool,
    err: &mut Watched<E>,
) -> Result<G::Kept, Failure<'w>>
    ensures { IfOk result (λ kept. G.Kept.has_failed kept ≡ false) }
{
    let is_wanted = machine.is_terminal || shows_progress;
    let mut lines = ProgressLines::new(rt.alloc(), rt, err, is_wanted);
    let kept = open_register(rt, rt.alloc(), machine.registers, path, &mut lines)?;
    let _told = tell_if_nearly_full(&kept, err);
    Ok(kept)
}

/// Whether the next start will need more than three quarters of the memory that a process may take. If so it is said on
/// standard error; what that does not take is no fault.
pub(crate) fn tell_if_nearly_full<K: NextStart, E: Write>(keep: &K, err: &mut Watched<E>) -> bool {
    let is_nearly_full = keep.is_nearly_full();
    if is_nearly_full {
        let _said = tell(err, NEARLY_FULL, 0);
    }
    is_nearly_full
}

/// What is said where the next start will need more than three quarters of the memory that a process may take.
const NEARLY_FULL: &[u8] =
    b"groundreg: the next start needs more than three quarters of the memory that is allowed\n";
