//! What is read anew while connections are served.

use crate::log::Log;
use crate::log_file::open_log;
use reg_cli::{Failure, Rights, Service, read_rights};
use std::alloc::Global;
use std::fs;
use std::fs::File;
use std::os::unix::fs::MetadataExt;

/// Looks whether rights and log are to be read anew.
pub trait Reload<'w, L> {
    ghost use Rattle.reg_app.specs.declared.reload.Renewal.{Renewal};

    /// What a look may find, and what it leaves: anything, unless a type says more.
    ghost looks: { Self → Renewal L → Self → Type 0 } = { λ _ _ _. Unit {0} };

    /// Looks once, before a connection is served.
    fn look(&mut self, alloc: Global) -> Renewal<'w, L>
        ensures { looks self.old result self.new };
}

/// What a look finds.
#[derive(Drop)]
pub enum Renewal<'w, L> {
    /// Nothing is to be read anew.
    Same,
    /// These apply from now on.
    Anew(Rights, Option<Log<L>>),
    /// They were to be read anew, and this is why they are refused.
    Refused(Failure<'w>),
}

/// A file by whose change an administrator says that policy, callers and log are to be read anew. It is a sign of its
/// own, since a policy that is written by half can be a whole one that permits more.
#[derive(Drop)]
pub(crate) struct ReloadFile<'r, 'w> {
    rt: &'r HostRuntime,
    service: Service<'w>,
    seen: Option<FileMark>,
}

/// By what a file is another one, or changed.
#[derive(Clone, Copy, PartialEq, Eq)]
struct FileMark {
    device: u64,
    file: u64,
    seconds: i64,
    nanoseconds: i64,
}

impl<'r, 'w> ReloadFile<'r, 'w> {
    /// As it is now.
    pub(crate) fn new(rt: &'r HostRuntime, service: &Service<'w>) -> ReloadFile<'r, 'w> {
        ReloadFile {
            rt,
            service: *service,
            seen: service.reload.and_then(|path| file_mark(rt, path)),
        }
    }

    /// Whether it is another file, or was changed, since the last look. A file that is missing is no sign.
    fn is_new(&mut self) -> bool {
        let Some(path) = self.service.reload else {
            return false;
        };
        let Some(mark) = file_mark(self.rt, path) else {
            return false;
        };
        let is_new = self.seen != Some(mark);
        self.seen = Some(mark);
        is_new
    }
}

impl<'w> Reload<'w, File> for ReloadFile<'_, 'w> {
    fn look(&mut self, alloc: Global) -> Renewal<'w, File> {
        if !self.is_new() {
            return Renewal::Same;
        }
        match read_anew(self.rt, alloc, &self.service) {
            Ok((rights, log)) => Renewal::Anew(rights, log),
            Err(failure) => Renewal::Refused(failure),
        }
    }
}

/// Rights and log as they are in their files now.
fn read_anew<'w>(
    rt: &HostRuntime,
    alloc: Global,
    service: &Service<'w>,
) -> Result<(Rights, Option<Log<File>>), Failure<'w>> {
    let rights = read_rights(rt, alloc, service.policy, service.callers)?;
    Ok((rights, open_log(rt, service)?))
}

/// The mark of the file at a path, if it is there.
fn file_mark(rt: &HostRuntime, path: &str) -> Option<FileMark> {
    let found = fs::metadata(rt, path).ok()?;
    Some(FileMark {
        device: found.dev(),
        file: found.ino(),
        seconds: found.ctime(),
        nanoseconds: found.ctime_nsec(),
    })
}
