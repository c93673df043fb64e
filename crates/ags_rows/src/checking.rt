//! The findings of the groups of a file.

ghost use Rattle.std.specs.Prelude.{◌≢◌, [], OnOk};
ghost use Rattle.ags_rows.specs.declared.code.Code.TheVariants.{Rule4};
ghost use Rattle.ags_rows.specs.Collecting.{OneOf, Notes, Adds};
ghost use Rattle.ags_rows.specs.Stands.{shape_rules, StandsInGroups};
ghost use Rattle.ags_rows.specs.Findings.{AreExactly};
ghost use Rattle.ags_rows.specs.Parsing.{IsMet, MeetsAlso, name_rules_after, heading_rules_after, group_rules_after, IfFindings, StandsInDataRows, StandsInHeadings};

use crate::code::Code;
use crate::finding::NotedFindings;
use crate::rows::{Group, Row};
use crate::scanning::{RowsError, none_noted};
use ags_text::{is_group_name, is_heading_name};
use std::alloc::{AllocError, Global};
use std::collections::BTreeMap;

/// Nothing, or the findings of the third phase: each group.
pub(crate) fn check_groups(alloc: Global, groups: &[Group]) -> Result<(), RowsError>
    ensures none { OnOk result (AreExactly (StandsInGroups groups.now) []) }
    ensures findings { IfFindings result (AreExactly (StandsInGroups groups.now)) }
{
    let mut findings = NotedFindings::new(alloc);
    note_groups(alloc, groups, &mut findings)?;
    none_noted(findings)
}

/// Notes the findings of the groups.
fn note_groups(
    alloc: Global,
    groups: &[Group],
    findings: &mut NotedFindings,
) -> Result<(), AllocError>
    ensures { OnOk result (Adds (StandsInGroups groups.now) findings.old findings.new) }
{
    let mut met = BTreeMap::new(alloc);
    for group in groups {
        note_group(alloc, group, &mut met, findings)?;
    }
    Ok(())
}

/// Notes the findings of a group.
fn note_group<'g>(
    alloc: Global,
    group: &'g Group,
    met: &mut BTreeMap<&'g [u8], ()>,
    findings: &mut NotedFindings,
) -> Result<(), AllocError>
    ensures noted { OnOk result (Adds (OneOf (group_rules_after met.old group.now)) findings.old findings.new) }
    ensures met { OnOk result (MeetsAlso met.old met.new group.now.name) }
{
    note_shape(group, findings)?;
    note_name(group.line, group.name.as_slice(), met, findings)?;
    note_headings(alloc, group, findings)
}

/// Notes a group without DATA rows, and rows with a wrong number of items (Rules 2 and 4).
fn note_shape(group: &Group, findings: &mut NotedFindings) -> Result<(), AllocError>
    ensures { OnOk result (Adds (OneOf (shape_rules group.now)) findings.old findings.new) }
{
    let width = group.headings.len();
    let name = group.name.as_slice();
    if group.rows.is_empty() {
        findings.note(group.line, Code::Rule2, name)?;
    }
    if group.headings.is_empty() {
        findings.note(group.heading_line, Code::Rule4, name)?;
    }
    note_width(group.unit_line, group.units.len(), width, name, findings)?;
    note_width(group.type_line, group.types.len(), width, name, findings)?;
    note_widths(group.rows.as_slice(), width, name, findings)
}

/// Notes a row with another number of items than the HEADING row (Rule 4).
fn note_width(
    line: u32,
    items: usize,
    width: usize,
    name: &[u8],
    findings: &mut NotedFindings,
) -> Result<(), AllocError>
    ensures { OnOk result (Adds (Notes line Rule4 name.now (items ≢ width)) findings.old findings.new) }
{
    if items != width {
        findings.note(line, Code::Rule4, name)?;
    }
    Ok(())
}

/// Notes DATA rows with another number of items than the HEADING row (Rule 4).
fn note_widths(
    rows: &[Row],
    width: usize,
    name: &[u8],
    findings: &mut NotedFindings,
) -> Result<(), AllocError>
    ensures { OnOk result (Adds (StandsInDataRows rows.now width name.now) findings.old findings.new) }
{
    for row in rows {
        note_width(row.line, row.cells.len(), width, name, findings)?;
    }
    Ok(())
}

/// Notes a name that no group may have, and one that an earlier group has (Rule 19, P1).
fn note_name<'g>(
    line: u32,
    name: &'g [u8],
    met: &mut BTreeMap<&'g [u8], ()>,
    findings: &mut NotedFindings,
) -> Result<(), AllocError>
    ensures noted { OnOk result (Adds (OneOf (name_rules_after met.old line name.now)) findings.old findings.new) }
    ensures met { OnOk result (MeetsAlso met.old met.new name.now) }
{
    if !is_group_name(name) {
        findings.note(line, Code::Rule19, name)?;
    }
    note_repeat(line, Code::P1, name, met, findings)
}

/// Notes a name that was met before. From now on it was.
fn note_repeat<'g>(
    line: u32,
    code: Code,
    name: &'g [u8],
    met: &mut BTreeMap<&'g [u8], ()>,
    findings: &mut NotedFindings,
) -> Result<(), AllocError>
    ensures noted { OnOk result (Adds (Notes line code name.now (IsMet met.old name.now)) findings.old findings.new) }
    ensures met { OnOk result (MeetsAlso met.old met.new name.now) }
{
    let before = met.insert(name, ())?;
    if before.is_some() {
        findings.note(line, code, name)?;
    }
    Ok(())
}

/// Notes the findings of the headings of a group (Rule 19a, P2).
fn note_headings(
    alloc: Global,
    group: &Group,
    findings: &mut NotedFindings,
) -> Result<(), AllocError>
    ensures { OnOk result (Adds (StandsInHeadings group.now) findings.old findings.new) }
{
    let mut met = BTreeMap::new(alloc);
    for heading in group.headings.as_slice() {
        note_heading(group.heading_line, heading.as_slice(), &mut met, findings)?;
    }
    Ok(())
}

/// Notes a name that no heading may have, and one that an earlier heading of its row has (Rule 19a, P2).
fn note_heading<'g>(
    line: u32,
    heading: &'g [u8],
    met: &mut BTreeMap<&'g [u8], ()>,
    findings: &mut NotedFindings,
) -> Result<(), AllocError>
    ensures noted { OnOk result (Adds (OneOf (heading_rules_after met.old line heading.now))
        findings.old findings.new) }
    ensures met { OnOk result (MeetsAlso met.old met.new heading.now) }
{
    if !is_heading_name(heading) {
        findings.note(line, Code::Rule19a, heading)?;
    }
    note_repeat(line, Code::P2, heading, met, findings)
}
