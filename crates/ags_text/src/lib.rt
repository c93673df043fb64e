//! Texts of the AGS format: lists of bytes, the fields of rows, the names of groups and headings.
#![tactic(auto)]

mod cell;
mod names;
mod sequence;

pub use cell::Cell;
pub use names::{is_definition, is_group_name, is_heading_name, is_within};
pub use sequence::{Bytes, Sequence, copy};
