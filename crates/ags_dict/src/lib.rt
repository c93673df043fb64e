//! The dictionary: which headings a group may have, which are its keys, and which group is its parent.
#![tactic(auto)]

mod dictionary;
mod entries;
mod extending;
mod groups;
mod headings;
pub mod laws;
mod parts;
mod places;
mod reading;

pub use dictionary::Dictionary;
pub use reading::{DictError, has_dict};
