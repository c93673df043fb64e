//! The caller in README.md of ags_text.

ghost use Rattle.std.specs.Prelude.{◌≡◌, if◌then◌else◌, Some, None, IfOk};
ghost use Rattle.ags_text.specs.Names.{is_group_name};

use ags_rows::cells;
use ags_text::{Bytes, Cell, copy, is_group_name};
use std::alloc::{AllocError, Global};
use std::test::Fail;

/// A copy of a field that is a group's name, to be kept longer than the file; none of any other field.
pub fn kept_name(alloc: Global, field: &Cell<'_>) -> Result<Option<Bytes>, AllocError>
    ensures { IfOk result (λ kept. kept ≡ (if is_group_name field.now then Some field.now else None)) }
{
    if !is_group_name(field.as_slice()) {
        return Ok(None);
    }
    Ok(Some(copy(alloc, field.as_slice())?))
}

#[test]
fn one_of_two_is_kept(rt: HostRuntime) -> Result<(), Fail> {
    let fields = cells(rt.alloc(), b"\"LOCA\",\"Loca\"")?.ok_or("fields")?;
    let mut kept = 0u32;
    for field in &fields {
        kept = kept.saturating_add(u32::from(kept_name(rt.alloc(), field)?.is_some()));
    }
    assert!(rt; kept == 1);
    Ok(())
}
