//! What the DATA rows of PROJ and TRAN break, which have one row alone.

ghost use Rattle.std.specs.Prelude.{OnOk};
ghost use Rattle.ags_rows.specs.Collecting.{Adds};
ghost use Rattle.ags_check.specs.HeaderSteps.{AtLongSign, AtFurtherRows};

use ags_rows::{Code, Group, NotedFindings, under};
use std::alloc::AllocError;

/// Rules 11a and 11b: notes that the entry of TRAN's first DATA row under the heading has more than one character.
pub(crate) fn note_long_sign(
    group: &Group,
    code: Code,
    heading: &[u8],
    findings: &mut NotedFindings,
) -> Result<(), AllocError>
    ensures { OnOk result (Adds (AtLongSign code heading.now group.now) findings.old findings.new) }
{
    if group.name.as_slice() != b"TRAN".as_slice() {
        return Ok(());
    }
    if let Some(row) = group.rows.as_slice().first() {
        let sign = under(group.headings.as_slice(), row.cells.as_slice(), heading);
        if sign.len() > 1 {
            findings.note(row.line, code, heading)?;
        }
    }
    Ok(())
}

/// Rules 13 and 14: notes the DATA rows, but for the first, of the group of this name.
pub(crate) fn note_further_rows(
    group: &Group,
    code: Code,
    name: &[u8],
    findings: &mut NotedFindings,
) -> Result<(), AllocError>
    ensures { OnOk result (Adds (AtFurtherRows code name.now group.now) findings.old findings.new) }
{
    if group.name.as_slice() != name {
        return Ok(());
    }
    let rows = group.rows.as_slice();
    for (i, row) in rows.iter().enumerate() {
        if i > 0 {
            findings.note(row.line, code, name)?;
        }
    }
    Ok(())
}
