//! What the HEADING row of a group breaks.

ghost use Rattle.std.specs.Prelude.{◌≡◌, ◌↔◌, ◌++◌, ℕ, List, IsTrue, OnOk, MatchOption, map};
ghost use Rattle.ags_rows.specs.declared.code.Code.TheVariants.{Rule7, Rule10a, Rule10b, Rule19b};
ghost use Rattle.ags_rows.specs.Collecting.{Adds};
ghost use Rattle.ags_dict.specs.Entries.{keys_of, required_of};
ghost use Rattle.ags_check.specs.Header.{BeginsWithName};
ghost use Rattle.ags_check.specs.HeaderSteps.{later, is_before_latest, IsMisnamedBy, AtAbsent, AtUnknown, AtMisplaced, AtMisnamed};

use ags_dict::Dictionary;
use ags_rows::{Code, NotedFindings, Places};
use std::alloc::{AllocError, Global};

/// Rules 9 and 18: notes the headings that are not in the group's order.
pub(crate) fn note_unknown(
    dictionary: &Dictionary,
    group: &[u8],
    headings: &[&[u8]],
    line: u32,
    code: Code,
    findings: &mut NotedFindings,
) -> Result<(), AllocError>
    ensures { OnOk result (Adds (AtUnknown line code dictionary.now group.now headings.now)
        findings.old findings.new) }
{
    for heading in headings {
        if dictionary.place_in_order(group, heading).is_none() {
            findings.note(line, code, heading)?;
        }
    }
    Ok(())
}

/// Rule 10a: notes the KEY headings of the group that are not in the row.
pub(crate) fn note_absent_keys(
    dictionary: &Dictionary,
    group: &[u8],
    row: &Places,
    line: u32,
    findings: &mut NotedFindings,
) -> Result<(), AllocError>
    ensures { OnOk result (Adds (AtAbsent line Rule10a (keys_of dictionary.now group.now) row.now)
        findings.old findings.new) }
{
    let keys = dictionary.keys(group)?;
    note_absent(keys.as_slice(), row, line, Code::Rule10a, findings)
}

/// Rule 10b: notes the REQUIRED headings of the group that are not in the row.
pub(crate) fn note_absent_required(
    dictionary: &Dictionary,
    group: &[u8],
    row: &Places,
    line: u32,
    findings: &mut NotedFindings,
) -> Result<(), AllocError>
    ensures { OnOk result (Adds (AtAbsent line Rule10b (required_of dictionary.now group.now) row.now)
        findings.old findings.new) }
{
    let required = dictionary.required(group)?;
    note_absent(required.as_slice(), row, line, Code::Rule10b, findings)
}

/// Rules 10a and 10b: notes the listed headings that are not in the row.
fn note_absent(
    listed: &[&[u8]],
    row: &Places,
    line: u32,
    code: Code,
    findings: &mut NotedFindings,
) -> Result<(), AllocError>
    ensures { OnOk result (Adds (AtAbsent line code (map (λ name. name.now) listed.now) row.now)
        findings.old findings.new) }
{
    for heading in listed {
        if row.find(heading).is_none() {
            findings.note(line, code, heading)?;
        }
    }
    Ok(())
}

/// Rule 7: notes the headings before which the row has one that comes later in the group's order.
pub(crate) fn note_misplaced(
    dictionary: &Dictionary,
    group: &[u8],
    headings: &[&[u8]],
    line: u32,
    findings: &mut NotedFindings,
) -> Result<(), AllocError>
    ensures { OnOk result (Adds (AtMisplaced line Rule7 dictionary.now group.now headings.now)
        findings.old findings.new) }
{
    let mut latest = None;
    for heading in headings {
        let place = dictionary.place_in_order(group, heading);
        if is_before_latest(place, latest) {
            findings.note(line, Code::Rule7, heading)?;
        }
        latest = later(latest, place);
    }
    Ok(())
}

/// Whether a place is before the latest one so far.
fn is_before_latest(place: Option<usize>, latest: Option<usize>) -> bool
    ensures { result ≡ is_before_latest place latest }
{
    match (place, latest) {
        (Some(place), Some(latest)) => place < latest,
        _ => false,
    }
}

/// The later of two places.
fn later(one: Option<usize>, other: Option<usize>) -> Option<usize>
    ensures { result ≡ later one other }
{
    match (one, other) {
        (Some(one), Some(other)) => Some(one.max(other)),
        (None, place) => place,
        (place, None) => place,
    }
}

/// Rule 19b: notes the user-defined headings that are neither named for the group nor another group's.
pub(crate) fn note_misnamed(
    given: &Dictionary,
    extended: &Dictionary,
    group: &[u8],
    headings: &[&[u8]],
    line: u32,
    findings: &mut NotedFindings,
) -> Result<(), AllocError>
    ensures { OnOk result (Adds (AtMisnamed line Rule19b given.now extended.now group.now headings.now)
        findings.old findings.new) }
{
    for heading in headings {
        if is_misnamed(given, extended, group, heading) {
            findings.note(line, Code::Rule19b, heading)?;
        }
    }
    Ok(())
}

/// Whether the heading is user-defined, and neither named for the group nor another group's.
fn is_misnamed(given: &Dictionary, extended: &Dictionary, group: &[u8], heading: &[u8]) -> bool
    ensures { IsTrue result ↔ IsMisnamedBy given.now extended.now group.now heading.now }
{
    extended.place_in_order(group, heading).is_some()
        && given.place_in_order(group, heading).is_none()
        && !begins_with_name(heading, group)
        && !extended.elsewhere(group, heading)
}

/// Whether the heading begins with the group's name and a low line.
fn begins_with_name(heading: &[u8], group: &[u8]) -> bool
    ensures { IsTrue result ↔ BeginsWithName group.now heading.now }
{
    match after_front(heading, group) {
        Some(rest) => after_front(rest, b"_").is_some(),
        None => false,
    }
}

/// What comes after the front of a text, if the text begins with it.
fn after_front<'t>(text: &'t [u8], front: &[u8]) -> Option<&'t [u8]>
    ensures { MatchOption result ((rest : List ℕ) → text.now ≡ front.now ++ rest → ⊥)
        (λ rest. text.now ≡ front.now ++ rest.now) }
{
    text.strip_prefix(front)
}
