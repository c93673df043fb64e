//! What a check reads and prints: the streams that are watched, the file that one carries, the faults that are said, and
//! the report on the file's findings.
//!
//! Streams are passed in. So contracts say what is printed, what is said of a fault and the status of a run, over readers
//! and writers whose bytes they can name.
#![tactic(auto)]

mod check;
mod error;
mod input;
mod report;
mod watched;
mod words;

pub use check::{check_stream, run_without_words};
pub use error::{Fault, tell, tell_line};
pub use report::{Report, findings_report};
pub use watched::{StreamFailed, Watched};
pub use words::words_given;
