//! Keys, parents and record links of the rows of an AGS4 file, the graph that they make, and its closure.
#![tactic(auto)]

mod candidates;
mod closure;
mod entry_lists;
mod families;
mod filed_rows;
mod graph;
mod index;
pub mod laws;
mod linked_rows;
mod listed_parents;
mod lists;
mod lookup;
mod parents;
mod placed;
mod separators;
mod steps;
mod texts;

pub use closure::{reached, shown};
pub use graph::{Graph, step_count};
pub use index::{Index, Targets};
pub use separators::{Separators, separators_in};
pub use texts::find_byte;
