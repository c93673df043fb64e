//! What ends a run without an answer.

ghost use Rattle.std.specs.Prelude.{◌≡◌};
ghost use Rattle.ags_cli.specs.Faults.{ended_with, fault_text, fault_status, TellsTo};
ghost use Rattle.ags_cli.specs.Writing.{two_part_line};
ghost use Rattle.ags_cli.specs.declared.error.Fault.TheVariants.{NoMemory, Stream};

use crate::watched::{StreamFailed, Watched};
use std::alloc::AllocError;
use std::io::Write;

/// Why a run has no answer, where the text is the same each time. Its status is 6 where a stream failed, and only
/// there.
#[derive(Clone, Copy, Debug, PartialEq, Eq)]
pub enum Fault {
    /// The arguments are none of a command's.
    WordsRefused,
    /// The policy is none.
    PolicyRefused,
    /// The callers are none.
    CallersRefused,
    /// No caller has the token.
    TokenRefused,
    /// The project is no name.
    ProjectRefused,
    /// The day, or that of the embargo, is none.
    DayRefused,
    /// What is listed is not the names of groups.
    GroupsRefused,
    /// The number is none of a deposit.
    NumberRefused,
    /// The dictionary is none.
    DictionaryRefused,
    /// The file has more than LIMIT bytes.
    TooLarge,
    /// The store that was to be made has tables.
    StoreNotEmpty,
    /// The store holds no register.
    NotRegister,
    /// The store failed.
    StoreFailed,
    /// An allocation failed.
    NoMemory,
    /// A read or a write failed.
    Stream,
}

impl From<AllocError> for Fault {
    ghost from_gives = { λ _ fault. fault ≡ NoMemory };

    fn from(_refused: AllocError) -> Fault {
        Fault::NoMemory
    }
}

impl From<StreamFailed> for Fault {
    ghost from_gives = { λ _ fault. fault ≡ Stream };

    fn from(_failed: StreamFailed) -> Fault {
        Fault::Stream
    }
}

impl Fault {
    /// What is said of it on standard error; nothing of a stream that failed.
    fn text(&self) -> &'static [u8]
        ensures { result.now ≡ fault_text self.now }
    {
        match self {
            Fault::WordsRefused => b"groundreg: words refused\n",
            Fault::PolicyRefused => b"groundreg: policy refused\n",
            Fault::CallersRefused => b"groundreg: callers refused\n",
            Fault::TokenRefused => b"groundreg: token refused\n",
            Fault::ProjectRefused => b"groundreg: project refused\n",
            Fault::DayRefused => b"groundreg: day refused\n",
            Fault::GroupsRefused => b"groundreg: groups refused\n",
            Fault::NumberRefused => b"groundreg: number refused\n",
            Fault::DictionaryRefused => b"groundreg: dictionary refused\n",
            Fault::TooLarge => b"groundreg: too large\n",
            Fault::StoreNotEmpty => b"groundreg: store not empty\n",
            Fault::NotRegister => b"groundreg: not a register\n",
            Fault::StoreFailed => b"groundreg: store failed\n",
            Fault::NoMemory => b"groundreg: out of memory\n",
            Fault::Stream => b"",
        }
    }

    /// The status that the run ends with.
    pub fn status(&self) -> u8
        ensures { result ≡ fault_status self.now }
    {
        match self {
            Fault::StoreFailed | Fault::NoMemory => 5,
            Fault::Stream => 6,
            _ => 4,
        }
    }

    /// Says the fault, and gives the status that the run ends with.
    pub fn tell<E: Write>(&self, err: &mut Watched<E>) -> u8
        ensures { TellsTo E.Write err.old err.new (fault_text self.now) (fault_status self.now) result }
    {
        tell(err, self.text(), self.status())
    }
}

/// Writes a text and gives the status. Where the writer fails it gives 6, and a first part of the text is written.
pub fn tell<W: Write>(out: &mut Watched<W>, text: &[u8], status: u8) -> u8
    ensures { TellsTo W.Write out.old out.new text.now status result }
{
    ended(out.write_text(text), status)
}

/// Writes a line of two parts and gives the status, or 6 where the writer fails.
pub fn tell_line<W: Write>(out: &mut Watched<W>, first: &[u8], second: &[u8], status: u8) -> u8
    ensures { TellsTo W.Write out.old out.new (two_part_line first.now second.now) status result }
{
    ended(out.write_line(first, second), status)
}

/// The status that a run ends with where a text was written, or that of a stream that failed.
fn ended(written: Result<(), StreamFailed>, status: u8) -> u8
    ensures { result ≡ ended_with written status }
{
    match written {
        Ok(()) => status,
        Err(_) => Fault::Stream.status(),
    }
}
