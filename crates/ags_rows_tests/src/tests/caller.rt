//! The caller in README.md of ags_rows.

ghost use Rattle.std.specs.Prelude.{◌≡◌, ◌≤◌, List, length, IfOk};
ghost use Rattle.ags_rows.specs.declared.TheConstants.{READABLE};
ghost use Rattle.ags_rows.specs.declared.rows.Group.{Group};
ghost use Rattle.ags_rows.specs.Findings.{FileGroups};
ghost use Rattle.ags_rows.specs.Groups.{row_count};

use ags_rows::{RowsError, Scan};
use samples_of_tests::FILE_A;
use std::alloc::Global;

/// How many DATA rows a file has, or its findings of the first three phases.
pub fn data_row_count(alloc: Global, bytes: &[u8]) -> Result<u32, RowsError>
    requires { length bytes.now ≤ READABLE }
    ensures { IfOk result (λ count. (groups : List Group) × FileGroups bytes.now groups × (count ≡ row_count groups)) }
{
    let scan = Scan::read(alloc, bytes)?;
    Ok(scan.row_count())
}

#[test]
fn file_a_has_six_data_rows(rt: HostRuntime) {
    assert!(rt; data_row_count(rt.alloc(), FILE_A).unwrap_or(0) == 6);
}
