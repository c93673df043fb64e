//! Which program this is.

use ags_cli::{Watched, tell_line};
use std::io::Write;

/// The version of the program; CHANGELOG.md says what each has.
pub(crate) const VERSION: &str = "1.1.0";

/// The format of the registers that it makes and opens.
const FORMAT: &str = "2";

/// Prints both.
pub(crate) fn print_version<W: Write>(out: &mut Watched<W>) -> u8 {
    match tell_line(out, b"groundreg ", VERSION.as_bytes(), 0) {
        0 => tell_line(out, b"register format ", FORMAT.as_bytes(), 0),
        status => status,
    }
}
