//! The files that arguments name, and the check of one under the dictionary of another.

ghost use Rattle.std.specs.Prelude.{◌≡◌, ◌≤◌, false, IfOk, IfSome, length};
ghost use Rattle.ags_cli.specs.Streams.{has_failed};
ghost use Rattle.ags_dict.specs.Reading.{IsDictionary};
ghost use Rattle.reg_policy.specs.Callers.{HasCallers};
ghost use Rattle.reg_policy.specs.Rules.{HasRules};
ghost use Rattle.reg_cli.specs.Given.{ChecksUnder};

use crate::error::Failure;
use crate::words::Token;
use ags_cli::{Fault, Watched, check_stream};
use ags_dict::{DictError, Dictionary};
use ags_rows::LIMIT;
use reg_policy::{Callers, CallersError, Policy, PolicyError};
use sha2::{Digest, Sha256};
use std::alloc::Global;
use std::io::{ErrorKind, Read, Write};
use std::str::from_utf8;
use std::{fs, io};

/// The policy and the callers in the files at two paths. No clause says so.
pub fn read_rights<'w>(
    rt: &HostRuntime,
    alloc: Global,
    policy: &'w str,
    callers: &'w str,
) -> Result<Rights, Failure<'w>> {
    let bytes = read_path(rt, alloc, policy)?;
    let policy_digest = Sha256::digest(bytes.as_slice());
    let policy = policy_in(alloc, &bytes)?;
    let bytes = read_path(rt, alloc, callers)?;
    let callers_digest = Sha256::digest(bytes.as_slice());
    Ok(Rights {
        policy,
        callers: callers_in(alloc, &bytes)?,
        digests: RightsDigests {
            policy: policy_digest,
            callers: callers_digest,
        },
    })
}

/// Who may do what.
#[derive(Drop)]
pub struct Rights {
    pub policy: Policy,
    pub callers: Callers,
    pub digests: RightsDigests,
}

/// The SHA-256 of the two files. No clause says so.
#[derive(Clone, Copy)]
pub struct RightsDigests {
    pub policy: [u8; 32],
    pub callers: [u8; 32],
}

/// The token of the one who asks: as it is given, or the bytes of the file that has it, without one line end after
/// them. No clause says so.
pub fn read_token<'w>(
    rt: &HostRuntime,
    alloc: Global,
    token: Token<'w>,
) -> Result<Vec<u8>, Failure<'w>> {
    match token {
        Token::Given(text) => Ok(Vec::from_slice(alloc, text.as_bytes())?),
        Token::InFile(path) => {
            let mut bytes = read_path(rt, alloc, path)?;
            drop_line_end(&mut bytes);
            Ok(bytes)
        }
    }
}

/// Takes one line end, LF or CR LF, from the end of a text.
fn drop_line_end(text: &mut Vec<u8>) {
    if text.last() == Some(&b'\n') {
        let _line_feed = text.pop();
        if text.last() == Some(&b'\r') {
            let _carriage_return = text.pop();
        }
    }
}

/// The policy that bytes are. What is no text is no TOML.
fn policy_in<'w>(alloc: Global, bytes: &[u8]) -> Result<Policy, Failure<'w>>
    ensures { IfOk result (λ policy. HasRules bytes.now policy) }
{
    let Some(text) = utf8_text(bytes) else {
        return Err(Failure::Policy(PolicyError::Syntax));
    };
    match Policy::read(alloc, text) {
        Ok(policy) => Ok(policy),
        Err(PolicyError::NoMemory) => Err(Failure::Plain(Fault::NoMemory)),
        Err(error) => Err(Failure::Policy(error)),
    }
}

/// The callers that bytes are. What is no text is no TOML.
fn callers_in<'w>(alloc: Global, bytes: &[u8]) -> Result<Callers, Failure<'w>>
    ensures { IfOk result (λ callers. HasCallers bytes.now callers) }
{
    let Some(text) = utf8_text(bytes) else {
        return Err(Failure::Callers(CallersError::Syntax));
    };
    match Callers::read(alloc, text) {
        Ok(callers) => Ok(callers),
        Err(CallersError::NoMemory) => Err(Failure::Plain(Fault::NoMemory)),
        Err(error) => Err(Failure::Callers(error)),
    }
}

/// The text that bytes are, if they are UTF-8 and not longer than LIMIT.
fn utf8_text(bytes: &[u8]) -> Option<&str>
    ensures { IfSome result (λ text. text.now ≡ bytes.now) }
{
    if bytes.len() > LIMIT {
        return None;
    }
    from_utf8(bytes).ok()
}

/// The dictionary that bytes are.
pub fn dictionary_in(alloc: Global, bytes: &[u8]) -> Result<Dictionary, Fault>
    ensures read { IfOk result (λ dictionary. IsDictionary bytes.now dictionary) }
    ensures short { IfOk result (λ _. length bytes.now ≤ LIMIT) }
{
    if bytes.len() > LIMIT {
        return Err(Fault::DictionaryRefused);
    }
    match Dictionary::read(alloc, bytes) {
        Ok(dictionary) => Ok(dictionary),
        Err(DictError::NoMemory) => Err(Fault::NoMemory),
        Err(_) => Err(Fault::DictionaryRefused),
    }
}

/// The bytes of the file at a path, of which at most LIMIT and one are read. No clause says so.
pub fn read_path<'w>(
    rt: &HostRuntime,
    alloc: Global,
    path: &'w str,
) -> Result<Vec<u8>, Failure<'w>> {
    let file = match fs::open(rt, path) {
        Ok(file) => file,
        Err(error) => return Err(unread(path, error)),
    };
    let mut bytes = Vec::new(alloc);
    match file.take(LIMIT as u64 + 1).read_to_end(&mut bytes) {
        Ok(_) => Ok(bytes),
        Err(error) => Err(unread(path, error)),
    }
}

/// Why the file at a path is not read.
fn unread<'w>(path: &'w str, error: io::Error) -> Failure<'w> {
    match error.kind() {
        ErrorKind::OutOfMemory => Failure::Plain(Fault::NoMemory),
        _ => Failure::CannotRead(path),
    }
}

/// Checks a file, if it was read, under the dictionary that bytes are: prints its findings, or `clean`, and gives the
/// status. Bytes that are no dictionary are refused first, then the file, as why it was not read.
pub fn check_given<'w, W: Write, E: Write>(
    alloc: Global,
    dictionary: &[u8],
    file: Result<Vec<u8>, Failure<'w>>,
    out: &mut Watched<W>,
    err: &mut Watched<E>,
) -> Result<u8, Failure<'w>>
    requires out { has_failed out.old ≡ false }
    requires err { has_failed err.old ≡ false }
    ensures { IfOk result (λ status. ChecksUnder W.Write E.Write dictionary.now file.entry
        out.old out.new err.old err.new status) }
{
    let dictionary = dictionary_in(alloc, dictionary)?;
    let bytes = file?;
    let mut input = Watched::new(bytes.as_slice());
    Ok(check_stream(alloc, &dictionary, &mut input, out, err))
}
