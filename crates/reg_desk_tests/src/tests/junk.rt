//! A store that is not sound: where one row of a file is none, no extract and no listing shows it.

ghost use Rattle.std.specs.Prelude.{◌≡◌, ◌<◌, ◌≤◌, [], All, false, length, IsTrue, refl};
ghost use Rattle.reg_store.specs.Plain.{deposits_of};
ghost use Rattle.reg_store.specs.Reading.{HasKind};

use super::examples::MOST;
use super::memory_of;
use super::requests::{deposit_of, extract_of, list_of, two_of};
use ags_check::Checked;
use ags_dict::Dictionary;
use ags_links::Graph;
use ags_text::{Bytes, Sequence};
use reg_desk::{Answer, Desk, Request};
use reg_policy::{Caller, Callers, Day, Name, Policy};
use reg_store::{HeadedRow, Keep, KeepError, Kept, KeptHead, KeptRow, PlainKeep, SharedBytes};
use samples_of_tests::{CALLERS, FILE_A, POLICY};
use std::alloc::{AllocError, Global};
use std::mem::swap;

/// What is changed of a row, or of the row of PROJ.
#[derive(Clone, Copy)]
enum Part {
    Line,
    Group,
    /// The kind, which becomes that of a UNIT row.
    Kind,
    /// The line of the row of PROJ.
    Project,
    /// The GROUP row above it.
    ProjectGroup,
    /// The HEADING row above it.
    ProjectHeadings,
}

/// A store in memory that gives a text in place of this part of one row of a file. It answers only the calls that an
/// extract and a listing make.
#[derive(Drop)]
struct Junked {
    alloc: Global,
    keep: PlainKeep,
    part: Part,
    place: usize,
    text: Bytes,
}

/// Whether the store has a deposit of the number.
fn has(keep: &PlainKeep, n: u32) -> bool
    ensures { IsTrue result → (0 < n) × (n ≤ length (deposits_of keep.now)) }
{
    0 < n && n <= keep.count()
}

/// Puts the text in place of this part of the row there.
fn put(rows: &mut Vec<KeptRow>, part: Part, place: usize, text: &mut Bytes)
    requires { All HasKind rows.old.items }
    ensures { All HasKind rows.new.items }
{
    if place < rows.len() {
        match part {
            Part::Line => swap(&mut rows[place].line, text),
            Part::Group => swap(&mut rows[place].group, text),
            Part::Kind => rows[place].kind = 2,
            Part::Project | Part::ProjectGroup | Part::ProjectHeadings => {}
        }
    }
}

/// Puts the text in place of this part of the row of PROJ or of a row that it reaches.
fn put_headed(
    alloc: Global,
    rows: &mut Vec<HeadedRow>,
    part: Part,
    place: usize,
    text: &[u8],
) -> Result<(), AllocError> {
    if place < rows.len() {
        let mut shared = SharedBytes::copied(alloc, text)?;
        match part {
            Part::Project => swap(&mut rows[place].line, &mut shared),
            Part::ProjectGroup => swap(&mut rows[place].group, &mut shared),
            Part::ProjectHeadings => swap(&mut rows[place].headings, &mut shared),
            Part::Line | Part::Group | Part::Kind => {}
        }
    }
    Ok(())
}

impl Keep for Junked {
    ghost use Rattle.reg_store.specs.Plain.{deposits_of, dictionary_of, limit_of};

    ghost deposits = { λ k. deposits_of k.keep };

    ghost dictionary = { λ k. dictionary_of k.keep };

    ghost text = { λ _. [] };

    ghost limit = { λ k. limit_of k.keep };

    ghost has_failed = { λ _. false };

    ghost may_leave = { λ k bytes list. (bytes ≡ []) × (list ≡ deposits_of k.keep) };

    ghost may_break = { λ _. ⊥ };

    ghost is_sound = { λ _. ⊥ };

    fn find(
        &mut self,
        _firm: &Name,
        _project: &Name,
        _bytes: &[u8],
    ) -> Result<Option<u32>, KeepError> {
        Err(KeepError::NoMemory)
    }

    fn add(
        &mut self,
        _firm: &Name,
        _project: &Name,
        _embargo: Day,
        _checked: &Checked<'_>,
    ) -> Result<u32, KeepError> {
        Err(KeepError::NoMemory)
    }

    fn withdraw(&mut self, _n: u32) -> Result<(), KeepError> {
        Err(KeepError::NoMemory)
    }

    fn deposit(&mut self, _n: u32) -> Result<Kept, KeepError> {
        Err(KeepError::NoMemory)
    }

    fn numbers(&mut self, project: &Name) -> Result<Vec<u32>, KeepError> {
        self.keep.numbers(project)
    }

    fn head(&mut self, n: u32) -> Result<KeptHead, KeepError> {
        if has(&self.keep, n) {
            self.keep.head(n)
        } else {
            Err(KeepError::NoMemory)
        }
    }

    fn rows(&mut self, n: u32) -> Result<Vec<KeptRow>, KeepError> {
        if !has(&self.keep, n) {
            return Err(KeepError::NoMemory);
        }
        let mut rows = self.keep.rows(n)?;
        put(&mut rows, self.part, self.place, &mut self.text);
        Ok(rows)
    }

    fn steps(&mut self, n: u32) -> Result<Graph, KeepError> {
        if has(&self.keep, n) {
            self.keep.steps(n)
        } else {
            Err(KeepError::NoMemory)
        }
    }

    fn project_rows(&mut self, n: u32) -> Result<Vec<HeadedRow>, KeepError> {
        if !has(&self.keep, n) {
            return Err(KeepError::NoMemory);
        }
        let mut rows = self.keep.project_rows(n)?;
        put_headed(
            self.alloc,
            &mut rows,
            self.part,
            self.place,
            self.text.as_slice(),
        )?;
        Ok(rows)
    }

    fn count(&self) -> u32 {
        self.keep.count()
    }

    fn limit(&self) -> u32 {
        self.keep.limit()
    }

    fn dictionary(&self) -> &Dictionary {
        self.keep.dictionary()
    }

    ghost settled = { λ _ _ _ _ _ same. same };

    ghost stays = { λ _ _ _. ∣ (refl, refl) ∣₁ };

    ghost unbroken = { λ _ _ _ none. none };

    ghost remains = { λ k sound _ _. sound };

    ghost fit = { λ _ sound _. absurd sound };

    ghost few = { λ _ sound _. absurd sound };
}

/// What a desk over this store answers to one request, and the store.
fn asked<K: Keep + Drop>(alloc: Global, keep: K, request: &Request) -> Option<(K, Answer)>
    requires { K.has_failed keep ≡ false }
{
    let policy = Policy::read(alloc, POLICY).ok()?;
    let mut desk = Desk::new(keep, policy);
    let answer = desk.answer(alloc, request);
    Some((desk.into_keep(), answer))
}

/// What the request is answered, where this part of row `place` of the first file is the text.
fn answered(
    alloc: Global,
    deposit: &Request,
    request: &Request,
    part: Part,
    place: usize,
    text: &[u8],
) -> Option<Answer> {
    let (keep, _receipt) = asked(alloc, memory_of(alloc, MOST)?, deposit)?;
    let junked = Junked {
        alloc,
        keep,
        part,
        place,
        text: Sequence::from_vec(Vec::from_slice(alloc, text).ok()?),
    };
    let (_keep, answer) = asked(alloc, junked, request)?;
    Some(answer)
}

/// At how many rows of the first file the store fails where this part of one is this text, of 30 places.
fn failures_of(alloc: Global, requests: &[Request], part: Part, text: &[u8]) -> Option<usize> {
    let [deposit, request] = requests else {
        return None;
    };
    let mut failed = 0usize;
    for place in 0..30 {
        match answered(alloc, deposit, request, part, place, text)? {
            Answer::StoreFailed => failed = failed.saturating_add(1),
            Answer::Text(_) | Answer::Listing(_) => {}
            _ => return None,
        }
    }
    Some(failed)
}

/// A deposit of the first file; and an extract of it, or a list where it is the row of PROJ that is changed.
fn pair_of<'a>(delta: &'a Caller, project: &'a Name, day: Day, part: Part) -> [Request<'a>; 2] {
    let request = match part {
        Part::Line | Part::Group | Part::Kind => extract_of(delta, project, 1, &[], day),
        Part::Project | Part::ProjectGroup | Part::ProjectHeadings => list_of(delta, project, day),
    };
    [deposit_of(delta, project, day, FILE_A, day), request]
}

/// The same of these two requests by Delta.
fn failures_by_delta(
    alloc: Global,
    callers: &Callers,
    project: &Name,
    part: Part,
    text: &[u8],
) -> Option<usize> {
    match two_of(callers, b"t-delta", b"t-echo") {
        Some((delta, _echo, day)) => {
            failures_of(alloc, &pair_of(delta, project, day, part), part, text)
        }
        None => None,
    }
}

/// The same where callers and project are read.
fn failures(alloc: Global, part: Part, text: &[u8]) -> Option<usize> {
    let callers = Callers::read(alloc, CALLERS).ok()?;
    let project = Name::read(alloc, "N1").ok()?;
    failures_by_delta(alloc, &callers, &project, part, text)
}

/// Each of the 26 lines is read before an extract shows it: header rows and rows of definition groups too.
#[test]
fn lines_that_are_none(rt: HostRuntime) {
    let alloc = rt.alloc();
    for text in [b"junk".as_slice(), b"", b"\"DATA\",\"a\"\r\n\"DATA\",\"b\""] {
        assert!(rt; failures(alloc, Part::Line, text) == Some(26));
    }
}

/// Each of these is the line of a row in one group of five, and of none elsewhere: of the 5 GROUP rows, the 5 HEADING
/// rows and the 6 DATA rows the store fails for 15. The 10 other header rows are not read as rows of their kind.
#[test]
fn rows_of_another_kind(rt: HostRuntime) {
    let alloc = rt.alloc();
    let texts = [
        b"\"DATA\",\"a\"".as_slice(),
        b"\"GROUP\",\"LOCA\"",
        b"\"HEADING\",\"a\"",
    ];
    for text in texts {
        assert!(rt; failures(alloc, Part::Line, text) == Some(15));
    }
}

/// A DATA row that is kept under the name of another group: five of the six, since one is in this group.
#[test]
fn rows_of_another_group(rt: HostRuntime) {
    assert!(rt; failures(rt.alloc(), Part::Group, b"UNIT") == Some(5));
}

/// A row that is kept as a UNIT row: the 5 GROUP rows, the 5 HEADING rows and the 6 DATA rows are missing then. TYPE and
/// the group before it have as many headings, so its DATA rows are not those of a HEADING row further above.
#[test]
fn rows_of_kind_unit(rt: HostRuntime) {
    assert!(rt; failures(rt.alloc(), Part::Kind, b"") == Some(16));
}

/// Without a row of PROJ under its header rows there is no listing: of what `project_rows` gives of the first file, one row.
#[test]
fn rows_of_proj_that_are_none(rt: HostRuntime) {
    let alloc = rt.alloc();
    let rows = [
        (Part::Project, b"junk".as_slice()),
        (Part::Project, b"\"DATA\",\"P7\""),
        (Part::Project, b"\"UNIT\",\"\",\"\""),
        (Part::ProjectGroup, b"junk"),
        (Part::ProjectGroup, b"\"GROUP\""),
        (Part::ProjectGroup, b"\"HEADING\",\"PROJ\""),
        (Part::ProjectHeadings, b"junk"),
        (Part::ProjectHeadings, b"\"HEADING\",\"PROJ_ID\""),
        (Part::ProjectHeadings, b"\"UNIT\",\"\",\"\""),
    ];
    for (part, text) in rows {
        assert!(rt; failures(alloc, part, text) == Some(1));
    }
}
