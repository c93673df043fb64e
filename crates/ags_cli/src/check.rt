//! The check of the file that a stream carries.

ghost use Rattle.std.specs.Prelude.{◌≡◌, ◌||◌, ◌+◌, ◌≤◌, IfOk, IfSome};
ghost use Rattle.ags_dict.specs.Mini.{mini_entries};
ghost use Rattle.ags_cli.specs.Answers.{ReportsOn};
ghost use Rattle.ags_cli.specs.Checking.{ChecksInput, ChecksStream};
ghost use Rattle.ags_cli.specs.Faults.{is_stream_fault};
ghost use Rattle.ags_cli.specs.Reading.{TakesAtMost};
ghost use Rattle.ags_cli.specs.Streams.{HaveNotFailed};

use crate::error::Fault;
use crate::input::read_file;
use crate::report::{Report, findings_report};
use crate::watched::Watched;
use ags_check::findings;
use ags_dict::laws::{mini_is_dictionary, one_dictionary};
use ags_dict::{DictError, Dictionary};
use ags_rows::LIMIT;
use ags_rows::built_in::MINI;
use ags_rows::laws::one_list_of_findings;
use std::alloc::{AllocError, Global};
use std::io::{Read, Write};

/// A run without arguments: checks the file that the stream carries under the dictionary that is built in.
pub fn run_without_words<R: Read, W: Write, E: Write>(
    alloc: Global,
    input: &mut Watched<R>,
    out: &mut Watched<W>,
    err: &mut Watched<E>,
) -> u8
    requires { HaveNotFailed input.old out.old err.old }
    ensures { ChecksInput R.Read W.Write E.Write input.old input.new out.old out.new err.old err.new result }
{
    match built_in(alloc) {
        Ok(dictionary) => check_stream(alloc, &dictionary, input, out, err),
        Err(refused) => Fault::from(refused).tell(err),
    }
}

/// The dictionary that is built into the program.
fn built_in(alloc: Global) -> Result<Dictionary, AllocError>
    ensures { IfOk result (λ dictionary. dictionary ≡ mini_entries) }
{
    one_list_of_findings();
    one_dictionary();
    mini_is_dictionary();
    match Dictionary::read(alloc, MINI) {
        Ok(dictionary) => Ok(dictionary),
        Err(DictError::NotDictionary(_found)) => unreachable!(),
        Err(DictError::NoDict) => unreachable!(),
        Err(DictError::MissingHeading) => unreachable!(),
        Err(DictError::NoMemory) => Err(AllocError),
    }
}

/// Checks the file that the stream carries: prints its findings under the dictionary, or `clean`, and gives the status.
pub fn check_stream<R: Read, W: Write, E: Write>(
    alloc: Global,
    dictionary: &Dictionary,
    input: &mut Watched<R>,
    out: &mut Watched<W>,
    err: &mut Watched<E>,
) -> u8
    requires { HaveNotFailed input.old out.old err.old }
    ensures { ChecksStream R.Read W.Write E.Write dictionary.now
        input.old input.new out.old out.new err.old err.new result }
{
    match report_on(alloc, dictionary, input) {
        Ok(report) => report.print(out),
        Err(fault) => fault.tell(err),
    }
}

/// What is printed for the file that the stream carries.
fn report_on<R: Read>(
    alloc: Global,
    dictionary: &Dictionary,
    input: &mut Watched<R>,
) -> Result<Report, Fault>
    ensures taken { TakesAtMost (LIMIT + 1) (R.remaining input.old.inner) (R.remaining input.new.inner) }
    ensures status { IfOk result (λ report. report.status ≤ 1) }
    ensures noted { input.new.failed ≡ (input.old.failed || is_stream_fault result) }
    ensures answers { IfSome (R.remaining input.old.inner) (λ bytes. ReportsOn dictionary.now bytes result) }
{
    let bytes = read_file(alloc, input)?;
    let found = findings(alloc, dictionary, bytes.as_slice())?;
    Ok(findings_report(alloc, &found)?)
}
