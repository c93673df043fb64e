//! The caller in README.md of ags_cells.

ghost use Rattle.std.specs.Prelude.{◌↔◌, IsTrue};
ghost use Rattle.ags_cells.specs.Fits.{FitsTypeCode};

use ags_cells::laws::fits_its_type_code;
use ags_cells::{CellType, fits};

/// Whether an entry fits the code of a TYPE row, under the unit of a UNIT row (Rule 8).
pub fn is_in_form(code: &[u8], unit: &[u8], entry: &[u8]) -> bool
    ensures { IsTrue result ↔ FitsTypeCode code.now unit.now entry.now }
{
    fits_its_type_code();
    fits(CellType::of(code), unit, entry)
}

#[test]
fn a_level_has_two_decimals(rt: HostRuntime) {
    assert!(rt; is_in_form(b"2DP", b"m", b"1.50"));
    assert!(rt; !is_in_form(b"2DP", b"m", b"1.5"));
}
