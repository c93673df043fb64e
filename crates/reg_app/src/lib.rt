//! What the program `groundreg` does: the commands of a register, and without arguments the check of standard input.
//!
//! Arguments, streams and what the machine says of a run are passed in. So contracts say what is printed, what is said
//! of a fault and the status of a run, over readers and writers whose bytes they can name. What names no store and no
//! socket is `ags_cli` and `reg_cli`.
#![tactic(auto)]

mod commands;
mod connection;
pub mod laws;
mod listener;
mod log;
mod log_file;
mod moment;
mod progress;
mod record;
mod reload;
mod server;
mod sides;
mod stores;
mod verification;
mod version;

pub use commands::{Machine, run_words};
pub use listener::Listener;
pub use log::Log;
pub use progress::ProgressLines;
pub use reload::{Reload, Renewal};
pub use server::{Running, Server, Serving, Start, serve_keep, serve_on};
pub use stores::Registers;
