//! What ends a command without an answer.

ghost use Rattle.std.specs.Prelude.{◌≡◌};
ghost use Rattle.ags_cli.specs.Faults.{TellsTo};
ghost use Rattle.reg_cli.specs.Failures.{TellsFailure, unread_text, unwritten_text, version_text};
ghost use Rattle.ags_cli.specs.declared.error.Fault.TheVariants.{NoMemory};
ghost use Rattle.reg_cli.specs.declared.error.Failure.TheVariants.{Plain};

use ags_cli::{Fault, Watched, tell, tell_line};
use itoa::Buffer;
use reg_policy::{CallersError, PolicyError};
use std::alloc::AllocError;
use std::io::Write;

/// Why a command has no answer.
#[derive(Clone, Copy, Debug, PartialEq, Eq)]
pub enum Failure<'w> {
    /// A fault whose text is the same each time.
    Plain(Fault),
    /// The policy is none.
    Policy(PolicyError),
    /// The callers are none.
    Callers(CallersError),
    /// The file that this argument names can not be read.
    CannotRead(&'w str),
    /// The file that this argument names can not be written.
    CannotWrite(&'w str),
    /// The register has a format of this number, and not the one that is asked for.
    Version(i64),
    /// The port can not be listened on.
    CannotListen,
}

impl<'w> From<Fault> for Failure<'w> {
    ghost from_gives = { λ fault failure. failure ≡ Plain fault };

    fn from(fault: Fault) -> Failure<'w> {
        Failure::Plain(fault)
    }
}

impl<'w> From<AllocError> for Failure<'w> {
    ghost from_gives = { λ _ failure. failure ≡ Plain NoMemory };

    fn from(_refused: AllocError) -> Failure<'w> {
        Failure::Plain(Fault::NoMemory)
    }
}

impl<'w> Failure<'w> {
    /// Says it on standard error, and gives the status that the run ends with.
    pub fn tell<E: Write>(&self, err: &mut Watched<E>) -> u8
        ensures { TellsFailure E.Write self.now err.old err.new result }
    {
        match self {
            Failure::Plain(fault) => fault.tell(err),
            Failure::Policy(_) => Fault::PolicyRefused.tell(err),
            Failure::Callers(_) => Fault::CallersRefused.tell(err),
            Failure::CannotRead(path) => tell_unread(err, path),
            Failure::CannotWrite(path) => tell_unwritten(err, path),
            Failure::Version(number) => tell_version(err, *number),
            Failure::CannotListen => tell(err, b"groundreg: cannot listen\n", 6),
        }
    }
}

/// Says that the file at a path can not be read.
fn tell_unread<E: Write>(err: &mut Watched<E>, path: &str) -> u8
    ensures { TellsTo E.Write err.old err.new (unread_text path.now) 6 result }
{
    tell_line(err, b"groundreg: cannot read ", path.as_bytes(), 6)
}

/// Says that the file at a path can not be written.
fn tell_unwritten<E: Write>(err: &mut Watched<E>, path: &str) -> u8
    ensures { TellsTo E.Write err.old err.new (unwritten_text path.now) 6 result }
{
    tell_line(err, b"groundreg: cannot write ", path.as_bytes(), 6)
}

/// Says that the register has a format of this number.
fn tell_version<E: Write>(err: &mut Watched<E>, number: i64) -> u8
    ensures { TellsTo E.Write err.old err.new (version_text number) 4 result }
{
    let mut buffer = Buffer::new();
    let digits = buffer.format(number).as_bytes();
    tell_line(err, b"groundreg: register version ", digits, 4)
}
