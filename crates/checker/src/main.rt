//! The check alone: what `groundreg` does without arguments, as a program that is proved and built sooner. It checks the
//! file on standard input under the built-in dictionary, and prints its findings, or `clean`.
#![tactic(auto)]

use ags_cli::{Fault, Watched, run_without_words, words_given};
use std::io::{Read, Write};
use std::process::ExitCode;

fn main(rt: HostRuntime) -> ExitCode {
    ExitCode::from(check_input(&rt, rt.stdin(), rt.stdout(), rt.stderr()))
}

/// The check over three streams, of any types: what names the types of the real ones is kept short. An argument is
/// refused.
fn check_input<R: Read + Drop, W: Write + Drop, E: Write + Drop>(
    rt: &HostRuntime,
    input: R,
    out: W,
    err: E,
) -> u8 {
    let mut input = Watched::new(input);
    let mut out = Watched::new(out);
    let mut err = Watched::new(err);
    match words_given(rt) {
        Ok(words) if words.len() > 1 => Fault::WordsRefused.tell(&mut err),
        Ok(_) => run_without_words(rt.alloc(), &mut input, &mut out, &mut err),
        Err(fault) => fault.tell(&mut err),
    }
}
