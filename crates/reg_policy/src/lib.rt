//! Policies and callers, with the names and days that requests speak of.
//!
//! A policy is a list of rules; of those that match a request the first decides.
#![tactic(auto)]

mod callers;
mod day;
mod document;
mod error;
pub mod laws;
mod name;
mod period;
mod policy;
mod rule;
mod rules;
mod subject;

pub use callers::{Caller, Callers};
pub use day::Day;
pub use error::{CallersError, NameError, PolicyError};
pub use name::Name;
pub use policy::Policy;
pub use subject::{Decision, RowFacts, Subject, Verb};
