//! The caller in README.md of reg_app.

ghost use Rattle.std.specs.Prelude.{◌≤◌, length};
ghost use Rattle.ags_cli.specs.Checking.{ChecksInput};
ghost use Rattle.ags_cli.specs.Streams.{HaveNotFailed};

use ags_cli::Watched;
use reg_app::{Machine, Registers, run_words};
use reg_policy::Day;
use std::io::{Read, Write};

/// Runs the program on its arguments, of which the first is its name, over these registers, and gives its status.
pub fn run_with<G: Registers, R: Read, W: Write, E: Write>(
    rt: &HostRuntime,
    registers: G,
    today: Option<Day>,
    words: &[&str],
    input: &mut Watched<R>,
    out: &mut Watched<W>,
    err: &mut Watched<E>,
) -> u8
    requires { HaveNotFailed input.old out.old err.old }
    ensures { length words.now ≤ 1
        → ChecksInput R.Read W.Write E.Write input.old input.new out.old out.new err.old err.new result }
{
    let machine = Machine {
        registers,
        today,
        is_terminal: false,
    };
    run_words(rt, machine, words, input, out, err)
}
