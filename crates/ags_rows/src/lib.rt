//! Lines, rows and groups of an AGS4 file.
#![tactic(auto)]

pub mod built_in;
mod checking;
mod code;
mod contents;
mod finding;
mod grouping;
pub mod laws;
mod ordering;
mod places;
mod rows;
mod scanning;
mod spelling;
mod writing;

pub use ags_text::{Cell, is_definition};
pub use code::Code;
pub use contents::{cell_at, place_in, under};
pub use finding::{Finding, FindingList, FindingRef, NotedFindings};
pub use places::Places;
pub use rows::{Descriptor, Group, Row};
pub use scanning::{RowsError, Scan};
pub use spelling::{cells, push_cells};
pub use writing::{quote, write_group, write_line, write_row};

/// The greatest length of a deposited file, in bytes: 16 MiB.
pub const LIMIT: usize = 16_777_216;

/// The greatest length of a text that is read.
pub const READABLE: usize = 67_108_864;
