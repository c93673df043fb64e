//! Whether an entry fits its type.
ghost use Rattle.std.specs.Prelude.{◌↔◌, IsTrue};
ghost use Rattle.ags_cells.specs.Fits.{Fits};

use crate::cell_type::CellType;
use crate::number::{
    after_angle, after_decimal, after_moisture, after_scientific, after_significant,
};
use crate::part::is_whole;
use crate::time::{fits_date_time, fits_elapsed_time};

/// Whether a cell fits its type under its unit (Rule 8). The null fits every type.
pub fn fits(cell_type: CellType, unit: &[u8], cell: &[u8]) -> bool
    ensures { IsTrue result ↔ Fits cell_type unit.now cell.now }
{
    if cell.is_empty() {
        return true;
    }
    match cell_type {
        CellType::DecimalPlaces(places) => is_whole(after_decimal(cell, places)),
        CellType::SignificantFigures(_) => is_whole(after_significant(cell)),
        CellType::Scientific(places) => is_whole(after_scientific(cell, places)),
        CellType::MoistureContent => is_whole(after_moisture(cell)),
        CellType::YesNo => matches!(cell, [b'Y' | b'N' | b'y' | b'n']),
        CellType::DegreesMinutesSeconds => is_whole(after_angle(cell)),
        CellType::DateTime => fits_date_time(unit, cell),
        CellType::ElapsedTime => fits_elapsed_time(unit, cell),
        CellType::Any => true,
    }
}
