//! The caller in README.md of ags_check.

ghost use Rattle.std.specs.Prelude.{◌≡◌, ◌≤◌, List, length, IfOk};
ghost use Rattle.ags_rows.specs.declared.TheConstants.{READABLE};
ghost use Rattle.ags_rows.specs.declared.finding.Finding.{Finding};
ghost use Rattle.ags_check.specs.Findings.{Findings};

use ags_check::findings;
use ags_dict::Dictionary;
use ags_rows::built_in::MINI;
use samples_of_tests::FILE_A;
use std::alloc::{AllocError, Global};
use std::test::Fail;

/// How many findings a file has under a dictionary: of the first phase that has any.
pub fn count_findings(
    alloc: Global,
    dictionary: &Dictionary,
    bytes: &[u8],
) -> Result<usize, AllocError>
    requires { length bytes.now ≤ READABLE }
    ensures { IfOk result (λ n. (found : List Finding) × Findings dictionary.now bytes.now found × (n ≡ length found)) }
{
    let found = findings(alloc, dictionary, bytes)?;
    Ok(found.len())
}

#[test]
fn findings_are_counted(rt: HostRuntime) -> Result<(), Fail> {
    let dictionary = Dictionary::read(rt.alloc(), MINI)?;
    assert!(rt; count_findings(rt.alloc(), &dictionary, FILE_A)? == 0);
    assert!(rt; count_findings(rt.alloc(), &dictionary, b"")? == 1);
    Ok(())
}
