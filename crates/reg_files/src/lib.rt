//! Registers in files, for the commands of reg_app.
#![tactic(auto)]

mod files;

pub use files::Files;
