//! What is printed for a file.

ghost use Rattle.std.specs.Prelude.{◌≡◌, OnOk, IfOk, ◌++◌, flat_map};
ghost use Rattle.ags_rows.specs.FindingLists.{finding_of};
ghost use Rattle.ags_cli.specs.Faults.{TellsTo};
ghost use Rattle.ags_cli.specs.Report.{report_of, report_line, shown_byte, shown_subject};

use crate::error::tell;
use crate::watched::Watched;
use ags_rows::{FindingList, FindingRef};
use ags_text::{Bytes, Sequence};
use std::alloc::{AllocError, Global};
use std::io::Write;

/// What is printed for the findings of a file, `clean` where there is none.
pub fn findings_report(alloc: Global, findings: &FindingList) -> Result<Report, AllocError>
    ensures { IfOk result (λ report. report ≡ report_of findings.now) }
{
    if findings.is_empty() {
        return Ok(Report {
            text: Sequence::from_vec(Vec::from_slice(alloc, b"clean\n")?),
            status: 0,
        });
    }
    Ok(Report {
        text: Sequence::from_vec(report_lines(alloc, findings)?),
        status: 1,
    })
}

/// The text that is printed for a file, and the status that the run ends with.
#[derive(Drop)]
pub struct Report {
    pub text: Bytes,
    pub status: u8,
}

impl Report {
    /// Prints it, and gives the status.
    pub fn print<W: Write>(&self, out: &mut Watched<W>) -> u8
        ensures { TellsTo W.Write out.old out.new self.now.text self.now.status result }
    {
        tell(out, self.text.as_slice(), self.status)
    }
}

/// The lines that report findings.
fn report_lines(alloc: Global, findings: &FindingList) -> Result<Vec<u8>, AllocError>
    ensures { IfOk result (λ text. text.items ≡ flat_map report_line findings.now) }
{
    let mut text = Vec::new(alloc);
    for place in 0..findings.len() {
        push_report_line(&mut text, findings.at(place))?;
    }
    Ok(text)
}

/// Appends the line that reports a finding.
fn push_report_line(text: &mut Vec<u8>, finding: FindingRef<'_>) -> Result<(), AllocError>
    ensures { OnOk result (text.new.items ≡ text.old.items ++ report_line (finding_of finding.entry)) }
{
    text.extend_from_slice(finding.code.text())?;
    write!(text, " {} ", finding.line).map_err(|_| AllocError)?;
    push_subject(text, finding.subject)?;
    text.push(b'\n')?;
    Ok(())
}

/// Appends a subject, or `-` where it is empty.
fn push_subject(text: &mut Vec<u8>, subject: &[u8]) -> Result<(), AllocError>
    ensures { OnOk result (text.new.items ≡ text.old.items ++ shown_subject subject.now) }
{
    if subject.is_empty() {
        text.push(b'-')?;
        return Ok(());
    }
    for byte in subject {
        text.push(shown_byte(*byte))?;
    }
    Ok(())
}

/// A byte of a subject as it is printed: one below the space or above `~` as `?`.
fn shown_byte(byte: u8) -> u8
    ensures { result ≡ shown_byte byte }
{
    if b' ' <= byte && byte <= b'~' {
        byte
    } else {
        b'?'
    }
}
