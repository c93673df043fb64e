//! The fourth phase: the groups of a file against its dictionary.

ghost use Rattle.std.specs.Prelude.{◌≡◌, IfOk, OnOk};
ghost use Rattle.ags_rows.specs.Collecting.{Adds, OneOf};
ghost use Rattle.ags_rows.specs.Contents.{contents_of};
ghost use Rattle.ags_rows.specs.Findings.{AreExactly};
ghost use Rattle.ags_check.specs.Placing.{InSome};
ghost use Rattle.ags_check.specs.Header.{heading_row_rules, file_rules, StandsInDictionary};
ghost use Rattle.ags_check.specs.HeaderSteps.{InKnownHeadingRow, InOnlyRows, header_rules_of};

pub(crate) mod groups;
pub(crate) mod headings;
pub(crate) mod only_rows;

use crate::header::groups::{
    note_absent_group, note_lacking_parent, note_unknown_group, unknown_code,
};
use crate::header::headings::{
    note_absent_keys, note_absent_required, note_misnamed, note_misplaced, note_unknown,
};
use crate::header::only_rows::{note_further_rows, note_long_sign};
use crate::named_groups::NamedGroups;
use ags_dict::Dictionary;
use ags_rows::{Code, FindingList, Group, NotedFindings, Places};
use std::alloc::{AllocError, Global};

/// The findings of the fourth phase, in order, each once.
pub(crate) fn header_findings(
    alloc: Global,
    given: &Dictionary,
    extended: &Dictionary,
    groups: &[Group],
) -> Result<FindingList, AllocError>
    ensures { IfOk result (AreExactly (StandsInDictionary given.now extended.now groups.now)) }
{
    let mut findings = NotedFindings::new(alloc);
    note_header_groups(alloc, given, extended, groups, &mut findings)?;
    Ok(findings.in_order())
}

/// What these groups break, and what the file lacks.
fn note_header_groups(
    alloc: Global,
    given: &Dictionary,
    extended: &Dictionary,
    groups: &[Group],
    findings: &mut NotedFindings,
) -> Result<(), AllocError>
    ensures { OnOk result (Adds (StandsInDictionary given.now extended.now groups.now) findings.old findings.new) }
{
    let file = NamedGroups::of(alloc, groups)?;
    note_file(alloc, given, extended, &file, findings)
}

/// What the groups break, and what the file lacks.
fn note_file(
    alloc: Global,
    given: &Dictionary,
    extended: &Dictionary,
    file: &NamedGroups,
    findings: &mut NotedFindings,
) -> Result<(), AllocError>
    ensures { OnOk result (Adds (StandsInDictionary given.now extended.now file.now) findings.old findings.new) }
{
    let code = unknown_code(file.groups());
    note_all_header_rows(alloc, given, extended, file, code, findings)?;
    note_absent_groups(file, findings)
}

/// What the groups break, one after the other.
fn note_all_header_rows(
    alloc: Global,
    given: &Dictionary,
    extended: &Dictionary,
    file: &NamedGroups,
    code: Code,
    findings: &mut NotedFindings,
) -> Result<(), AllocError>
    ensures { OnOk result (Adds (InSome file.now (header_rules_of given.now extended.now file.now code))
        findings.old findings.new) }
{
    let groups = file.groups();
    for group in groups {
        note_header_rows(alloc, given, extended, file, code, group, findings)?;
    }
    Ok(())
}

/// What one group breaks.
fn note_header_rows(
    alloc: Global,
    given: &Dictionary,
    extended: &Dictionary,
    file: &NamedGroups,
    code: Code,
    group: &Group,
    findings: &mut NotedFindings,
) -> Result<(), AllocError>
    ensures { OnOk result (Adds (OneOf (header_rules_of given.now extended.now file.now code group.now))
        findings.old findings.new) }
{
    note_unknown_group(extended, code, group, findings)?;
    note_lacking_parent(extended, file, group, findings)?;
    note_known_heading_row(alloc, given, extended, code, group, findings)?;
    note_only_rows(group, findings)
}

/// What the HEADING row of a group breaks, if the dictionary has an entry for the group.
fn note_known_heading_row(
    alloc: Global,
    given: &Dictionary,
    extended: &Dictionary,
    code: Code,
    group: &Group,
    findings: &mut NotedFindings,
) -> Result<(), AllocError>
    ensures { OnOk result (Adds (InKnownHeadingRow given.now extended.now code group.now)
        findings.old findings.new) }
{
    if !extended.has_group(group.name.as_slice()) {
        return Ok(());
    }
    note_heading_row(alloc, given, extended, code, group, findings)
}

/// What the HEADING row of a group breaks, where the dictionary knows the group.
fn note_heading_row(
    alloc: Global,
    given: &Dictionary,
    extended: &Dictionary,
    code: Code,
    group: &Group,
    findings: &mut NotedFindings,
) -> Result<(), AllocError>
    ensures { OnOk result (Adds (OneOf (heading_row_rules given.now extended.now code group.now))
        findings.old findings.new) }
{
    let row = Places::of_cells(alloc, group.headings.as_slice())?;
    note_header_headings(given, extended, code, group, &row, findings)
}

/// What the HEADING row of a group breaks: these are its headings, where the dictionary knows the group.
fn note_header_headings(
    given: &Dictionary,
    extended: &Dictionary,
    code: Code,
    group: &Group,
    row: &Places,
    findings: &mut NotedFindings,
) -> Result<(), AllocError>
    requires { row.now ≡ group.now.headings }
    ensures { OnOk result (Adds (OneOf (heading_row_rules given.now extended.now code group.now))
        findings.old findings.new) }
{
    let name = group.name.as_slice();
    let line = group.heading_line;
    let headings = row.names();
    note_misplaced(extended, name, headings, line, findings)?;
    note_unknown(extended, name, headings, line, code, findings)?;
    note_absent_keys(extended, name, row, line, findings)?;
    note_absent_required(extended, name, row, line, findings)?;
    note_misnamed(given, extended, name, headings, line, findings)
}

/// What the DATA rows of PROJ and TRAN break.
fn note_only_rows(group: &Group, findings: &mut NotedFindings) -> Result<(), AllocError>
    ensures { OnOk result (Adds (InOnlyRows group.now) findings.old findings.new) }
{
    note_long_sign(group, Code::Rule11a, b"TRAN_DLIM", findings)?;
    note_long_sign(group, Code::Rule11b, b"TRAN_RCON", findings)?;
    note_further_rows(group, Code::Rule13, b"PROJ", findings)?;
    note_further_rows(group, Code::Rule14, b"TRAN", findings)
}

/// What the file lacks.
fn note_absent_groups(file: &NamedGroups, findings: &mut NotedFindings) -> Result<(), AllocError>
    ensures { OnOk result (Adds (OneOf (file_rules (contents_of file.now))) findings.old findings.new) }
{
    note_absent_group(file, Code::Rule13, b"PROJ", findings)?;
    note_absent_group(file, Code::Rule14, b"TRAN", findings)?;
    note_absent_group(file, Code::Rule15, b"UNIT", findings)?;
    note_absent_group(file, Code::Rule17, b"TYPE", findings)
}
