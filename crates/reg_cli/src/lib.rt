//! What the program is given, requests and prints, apart from any store and socket: the arguments of the command line,
//! the files that they name, who asks, what is requested from a desk and what is printed of its answer, why a command has
//! no answer, and the check of a file under the dictionary of another.
//!
//! Arguments and streams are passed in. So contracts say what is printed, what is said of a failure and the status of a
//! run, over writers whose bytes they can name. What a check of standard input reads and prints is `ags_cli`.
#![tactic(auto)]

mod error;
mod files;
mod report;
mod session;
mod words;

pub use error::Failure;
pub use files::{
    Rights, RightsDigests, check_given, dictionary_in, read_path, read_rights, read_token,
};
pub use report::ask_desk;
pub use session::{Session, ask_given, day_or, session_of};
pub use words::{Action, Asker, Place, Service, Token, Verification, Words, read_words};
