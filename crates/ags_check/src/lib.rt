//! What an AGS4 file breaks of the rules, phase by phase.
#![tactic(auto)]

mod checked;
mod checking;
mod header;
pub mod laws;
mod named_groups;
mod rows;

pub use checked::Checked;
pub use checking::{CheckError, check, findings};
