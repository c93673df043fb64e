//! What is requested from a register, as the command line and HTTP read it: what is asked, the number of a deposit, and
//! a list of groups.
#![tactic(auto)]

mod ask;
mod groups;
mod number;

pub use ask::Ask;
pub use groups::lists_groups;
pub use number::{is_number, number_from_digits, number_of_deposit};
