//! The types of the cells.
ghost use Rattle.ags_cells.specs.CellTypes.{IsTypeCodeOf};

/// The type of a heading's entries, as the TYPE row says it.
#[derive(Clone, Copy, Debug, PartialEq, Eq)]
pub enum CellType {
    /// `nDP`: a number with n digits after its point.
    DecimalPlaces(u8),
    /// `nSF`: a number to n significant figures.
    SignificantFigures(u8),
    /// `nSCI`: a number with an exponent, and with n digits after its point.
    Scientific(u8),
    /// `MC`: a moisture content.
    MoistureContent,
    /// `YN`: yes or no.
    YesNo,
    /// `DMS`: degrees, minutes and seconds.
    DegreesMinutesSeconds,
    /// `DT`: a date, a time of day, or both, as the unit says.
    DateTime,
    /// `T`: a length of time, as the unit says.
    ElapsedTime,
    /// Every other type: any text fits.
    Any,
}

impl CellType {
    /// The type of that code: `Any` for a text that is no code of the others.
    pub fn of(text: &[u8]) -> CellType
        ensures { IsTypeCodeOf text.now result }
    {
        match text {
            [n @ b'0'..=b'9', b'D', b'P'] => CellType::DecimalPlaces(*n - b'0'),
            [n @ b'0'..=b'9', b'S', b'F'] => CellType::SignificantFigures(*n - b'0'),
            [n @ b'0'..=b'9', b'S', b'C', b'I'] => CellType::Scientific(*n - b'0'),
            b"MC" => CellType::MoistureContent,
            b"YN" => CellType::YesNo,
            b"DMS" => CellType::DegreesMinutesSeconds,
            b"DT" => CellType::DateTime,
            b"T" => CellType::ElapsedTime,
            _ => CellType::Any,
        }
    }
}
