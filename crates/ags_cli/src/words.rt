//! The arguments that a program is started with.

use crate::error::Fault;
use std::env;
use std::io::ErrorKind;

/// The arguments that the program is started with, its name first. One that is not UTF-8 refuses them all. No clause
/// says which they are.
pub fn words_given(rt: &HostRuntime) -> Result<Vec<String>, Fault> {
    match env::args(rt) {
        Ok(words) => Ok(words.collect(rt.alloc())?),
        Err(error) if error.kind() == ErrorKind::OutOfMemory => Err(Fault::NoMemory),
        Err(_) => Err(Fault::WordsRefused),
    }
}
