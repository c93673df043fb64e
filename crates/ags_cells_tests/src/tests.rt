mod caller;

use ags_cells::{CellType, fits};
use std::process::Abort;

/// A type's code, a unit, an entry, and whether it fits.
type Case = (&'static str, &'static str, &'static str, bool);

const NUMBERS: &[Case] = &[
    ("2DP", "m", "1.5", false),
    ("2DP", "m", "1.50", true),
    ("2DP", "m", "-0.00", true),
    ("0DP", "", "12", true),
    ("0DP", "", "12.", false),
    ("0DP", "", "1", true),
    ("0DP", "", "1.", false),
    ("0DP", "", "-1", true),
    ("3SF", "", "12.0", true),
    ("3SF", "", "1.2E3", true),
    ("3SF", "", "12.", false),
    ("3SF", "", "1,2", false),
    ("3SF", "", "1E1234", false),
    ("3SF", "", ".5", false),
    ("3SF", "", "+1e+004", true),
    ("2SCI", "", "1.23E+04", true),
    ("2SCI", "", "12.3E4", false),
    ("0SCI", "", "1E4", true),
    ("0SCI", "", "1.E4", false),
    ("MC", "%", "1.", false),
    ("MC", "%", "-1.0", true),
    ("MC", "%", "1E2", false),
    ("YN", "", "y", true),
    ("YN", "", "Yes", false),
    ("DMS", "", "1:2:03", false),
    ("DMS", "", "999:59:59.", false),
    ("DMS", "", "-0:00:00.5", true),
    ("DMS", "", "1:60:00", false),
    ("10DP", "", "x", true),
    ("12DP", "", "x", true),
    ("XN", "", "x", true),
    ("QQ", "", "x", true),
    ("", "", "x", true),
];

const TIMES: &[Case] = &[
    ("DT", "yyyy", "0000", true),
    ("DT", "yyyy", "9999", true),
    ("DT", "yyyy", "999", false),
    ("DT", "yyyy-mm", "2024-12", true),
    ("DT", "yyyy-mm", "2024-13", false),
    ("DT", "yyyy-mm-dd", "1900-02-29", false),
    ("DT", "yyyy-mm-dd", "2000-02-29", true),
    ("DT", "yyyy-mm-dd", "0000-02-29", true),
    ("DT", "yyyy-mm-dd", "2023-02-29", false),
    ("DT", "yyyy-mm-dd", "2024-02-29", true),
    ("DT", "yyyy-mm-dd", "2024-2-9", false),
    ("DT", "yyyy-mm-ddThh:mm", "2024-02-29", true),
    ("DT", "yyyy-mm-ddThh:mm", "2024-02", false),
    ("DT", "yyyy-mm-ddThh:mm", "2024-02-29 10:00", false),
    ("DT", "yyyy-mm-ddThh:mm", "2024-02-29T10:00:00", false),
    ("DT", "yyyy-mm-ddThh:mm", "2024-02-29T24:00", false),
    ("DT", "yyyy-mm-ddThh:mm:ss", "2024-02-29T23:59:59", true),
    ("DT", "hh:mm", "24:00", false),
    ("DT", "dd/mm/yyyy", "x", true),
    ("T", "hh:mm", "24:00", true),
    ("T", "hh:mm", "1234:59", true),
    ("T", "hh:mm", "9999:59", true),
    ("T", "hh:mm", "9:00", false),
    ("T", "hh:mm", "1:59", false),
    ("T", "hh:mm", "10000:00", false),
    ("T", "yyyy-mm-ddThh:mm", "2024-02-29T24:00", false),
    ("T", "s", "x", true),
];

/// The codes whose texts are restricted: the null fits each, under any unit.
const CODES: &[&str] = &["2DP", "3SF", "2SCI", "MC", "YN", "DMS", "DT", "T"];

/// Whether an entry fits or not, as it should.
fn is_as_wanted(case: &Case) -> bool {
    let (code, unit, cell, want) = case;
    let kind = CellType::of(code.as_bytes());
    fits(kind, unit.as_bytes(), cell.as_bytes()) == *want
}

/// Whether the null fits a code's type, under a unit and under none.
fn is_null_fit(code: &str) -> bool {
    fits(CellType::of(code.as_bytes()), b"yyyy-mm-dd", b"")
        && fits(CellType::of(code.as_bytes()), b"", b"")
}

/// Asserts of each entry that it fits or not, as it should.
fn assert_wanted(rt: &impl Abort, cases: &[Case]) {
    for case in cases {
        assert!(rt; is_as_wanted(case));
    }
}

/// Asserts of each code that the null fits its type.
fn assert_null_fits(rt: &impl Abort, codes: &[&str]) {
    for code in codes {
        assert!(rt; is_null_fit(code));
    }
}

#[test]
fn entries_fit_their_types(rt: HostRuntime) {
    assert_wanted(&rt, NUMBERS);
    assert_wanted(&rt, TIMES);
    assert_null_fits(&rt, CODES);
}
