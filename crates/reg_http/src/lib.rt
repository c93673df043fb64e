//! The HTTP engine: from the bytes of a connection to the bytes of its reply, over any reader and writer.
//!
//! A connection carries one request. Its head is read within 8,192 bytes and 32 fields, then its body by its length;
//! the desk is asked, and its answer is written. A request that is refused never reaches the desk.
#![tactic(auto)]

mod connection;
mod error;
pub mod laws;
mod list;
mod notes;
mod reply;
mod request;
mod tally;

pub use connection::{Served, serve_noted, serve_one};
pub use error::IoFault;
pub use list::serve_list;
pub use notes::{ConnectionNotes, Head};
pub use tally::Tally;
