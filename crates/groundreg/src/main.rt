//! A register of AGS4 files. Without arguments it checks a file on standard input, and prints its findings, or `clean`.
#![tactic(auto)]

use ags_cli::{Watched, words_given};
use jiff::Zoned;
use jiff::tz::TimeZone;
use reg_app::{Machine, run_words};
use reg_files::Files;
use reg_policy::Day;
use sqlite::{Start, Unknown};
use std::io::{IsTerminal, Read, Write};
use std::process::ExitCode;

fn main(rt: HostRuntime) -> ExitCode {
    ExitCode::from(run_program(&rt, Unknown, rt.stdin(), rt.stdout(), rt.stderr()))
}

/// Runs the program over its three streams, of any types: what names the types of the real ones is kept short. `F`
/// stands for what the files of a register held.
fn run_program<F: Start, R: Read + Drop, W: Write + Drop, E: Write + IsTerminal + Drop>(
    rt: &HostRuntime,
    start: F,
    input: R,
    out: W,
    err: E,
) -> u8 {
    let is_terminal = err.is_terminal();
    let mut input = Watched::new(input);
    let mut out = Watched::new(out);
    let mut err = Watched::new(err);
    match words_given(rt) {
        Ok(words) => {
            let machine = Machine {
                registers: Files::new(start),
                today: today(rt),
                is_terminal,
            };
            run_words(
                rt,
                machine,
                words.as_slice(),
                &mut input,
                &mut out,
                &mut err,
            )
        }
        Err(fault) => fault.tell(&mut err),
    }
}

/// The day that it is in UTC, if the clock tells one.
fn today(rt: &HostRuntime) -> Option<Day> {
    let now = Zoned::now(rt, TimeZone::UTC).ok()?;
    Day::new(now.date().to_plain().to_unix_epoch_day())
}
