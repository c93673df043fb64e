//! What the GROUP row of a group breaks, and the file by the groups that it lacks.

ghost use Rattle.std.specs.Prelude.{◌≡◌, ◌↔◌, IsTrue, OnOk};
ghost use Rattle.ags_rows.specs.declared.code.Code.TheVariants.{Rule10c};
ghost use Rattle.ags_rows.specs.Collecting.{Adds, Notes};
ghost use Rattle.ags_rows.specs.Contents.{group_contents, contents_of};
ghost use Rattle.ags_check.specs.Header.{HasGroup, IsUnknownGroup, LacksParentGroup, unknown_code};
ghost use Rattle.ags_check.specs.HeaderSteps.{LacksParentAmong, AtGroup};

use crate::named_groups::NamedGroups;
use ags_dict::{Dictionary, has_dict};
use ags_rows::{Code, Group, NotedFindings};
use std::alloc::AllocError;

/// The code of what the dictionary does not know: Rule 9 where the file has a DICT, else Rule 18.
pub(crate) fn unknown_code(groups: &[Group]) -> Code
    ensures { result ≡ unknown_code (contents_of groups.now) }
{
    if has_dict(groups) {
        Code::Rule9
    } else {
        Code::Rule18
    }
}

/// Rules 9 and 18: notes a group for which the dictionary has no entry.
pub(crate) fn note_unknown_group(
    dictionary: &Dictionary,
    code: Code,
    group: &Group,
    findings: &mut NotedFindings,
) -> Result<(), AllocError>
    ensures { OnOk result (Adds (AtGroup code (IsUnknownGroup dictionary.now) group.now)
        findings.old findings.new) }
{
    let name = group.name.as_slice();
    if !dictionary.has_group(name) {
        findings.note(group.line, code, name)?;
    }
    Ok(())
}

/// Rule 10c: notes a group whose parent group is not in the file.
pub(crate) fn note_lacking_parent(
    dictionary: &Dictionary,
    file: &NamedGroups,
    group: &Group,
    findings: &mut NotedFindings,
) -> Result<(), AllocError>
    ensures { OnOk result (Adds (AtGroup Rule10c (LacksParentAmong dictionary.now file.now) group.now)
        findings.old findings.new) }
{
    if lacks_parent_group(dictionary, file, group) {
        findings.note(group.line, Code::Rule10c, group.name.as_slice())?;
    }
    Ok(())
}

/// Whether the group has a parent group that is not in the file.
fn lacks_parent_group(dictionary: &Dictionary, file: &NamedGroups, group: &Group) -> bool
    ensures { IsTrue result ↔ LacksParentGroup dictionary.now (contents_of file.now) (group_contents group.now) }
{
    match dictionary.parent(group.name.as_slice()) {
        Some(parent) => !file.has(parent),
        None => false,
    }
}

/// Rules 13, 14, 15 and 17: notes that a group which each file has is absent.
pub(crate) fn note_absent_group(
    file: &NamedGroups,
    code: Code,
    name: &[u8],
    findings: &mut NotedFindings,
) -> Result<(), AllocError>
    ensures { OnOk result (Adds (Notes 0 code name.now (¬ (HasGroup (contents_of file.now) name.now)))
        findings.old findings.new) }
{
    if !file.has(name) {
        findings.note(0, code, name)?;
    }
    Ok(())
}
