//! The caller in README.md of ags_dict.

ghost use Rattle.std.specs.Prelude.{◌≡◌, ◌≤◌, length, IfOk};
ghost use Rattle.ags_rows.specs.declared.TheConstants.{READABLE};
ghost use Rattle.ags_dict.specs.Entries.{Entries, keys_of};
ghost use Rattle.ags_dict.specs.Reading.{IsDictionary};

use ags_dict::{DictError, Dictionary};
use ags_rows::built_in::MINI;
use std::alloc::Global;

/// How many KEY headings a dictionary gives a group, or why the bytes are no dictionary.
pub fn key_count(alloc: Global, bytes: &[u8], group: &[u8]) -> Result<usize, DictError>
    requires { length bytes.now ≤ READABLE }
    ensures { IfOk result (λ count. (d : Entries) × IsDictionary bytes.now d × (count ≡ length (keys_of d group.now))) }
{
    let dictionary = Dictionary::read(alloc, bytes)?;
    let keys = dictionary.keys(group)?;
    Ok(keys.len())
}

#[test]
fn samples_have_three_keys(rt: HostRuntime) {
    assert!(rt; key_count(rt.alloc(), MINI, b"SAMP").unwrap_or(0) == 3);
}
