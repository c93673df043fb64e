//! The files, the policy and the callers that tests read. No library names this crate.
#![tactic(auto)]

mod files;
mod rights;

pub use files::{FILE_A, FILE_B, FILE_C};
pub use rights::{CALLERS, POLICY};
