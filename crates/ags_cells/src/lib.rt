//! The data types of AGS4, and which entries fit them (Rule 8).
//!
//! `CellType::of` reads the code that a TYPE row has, and `fits` says whether an entry fits its type under its unit.
//! Both take no memory and read each byte a fixed number of times at most, whatever the bytes are.
#![tactic(auto)]

mod cell_type;
mod fitting;
pub mod laws;
mod number;
mod part;
mod time;
mod time_unit;

pub use cell_type::CellType;
pub use fitting::fits;
