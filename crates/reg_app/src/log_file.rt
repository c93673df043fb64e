//! The file of a log.

use crate::log::Log;
use reg_cli::{Failure, Service};
use reg_policy::Day;
use std::alloc::Global;
use std::fs::{File, OpenOptions};
use std::io::Write;
use std::os::unix::fs::{FileExt, MetadataExt, OpenOptionsExt};
use std::str::from_utf8;
use std::{fs, io};

/// How many bytes of the end of a log are looked at: more than two of its lines have.
const END: u64 = 65_536;

/// Opens the log of `serve`, if it has one. A file that is made may be read by its owner alone. The register's own
/// files are refused. A last line that was not ended is ended first.
pub(crate) fn open_log<'w>(
    rt: &HostRuntime,
    service: &Service<'w>,
) -> Result<Option<Log<File>>, Failure<'w>> {
    let alloc = rt.alloc();
    let Some(path) = service.log else {
        return Ok(None);
    };
    let wal = format!(in alloc; "{}-wal", service.store)?;
    if path == service.store || path == wal.as_str() {
        return Err(Failure::CannotWrite(path));
    }
    let Ok(file) = open_appending(rt, path) else {
        return Err(Failure::CannotWrite(path));
    };
    if is_at(rt, &file, service.store) || is_at(rt, &file, wal.as_str()) {
        return Err(Failure::CannotWrite(path));
    }
    let Ok(last_day) = end_last_line(alloc, &file) else {
        return Err(Failure::CannotWrite(path));
    };
    Ok(Some(Log::new(alloc, file, last_day)?))
}

fn open_appending(rt: &HostRuntime, path: &str) -> io::Result<File> {
    OpenOptions::new()
        .read(true)
        .append(true)
        .create(true)
        .mode(0o600)
        .open(rt, path)
}

/// Whether a path names an open file.
fn is_at(rt: &HostRuntime, file: &File, path: &str) -> bool {
    match (file.metadata(), fs::metadata(rt, path)) {
        (Ok(open), Ok(found)) => open.dev() == found.dev() && open.ino() == found.ino(),
        _ => false,
    }
}

/// Ends the last line of a log where it is not ended, and gives the latest day that its last lines have.
fn end_last_line(alloc: Global, file: &File) -> io::Result<Option<Day>> {
    let found = file.metadata()?;
    if !found.is_file() {
        return Ok(None);
    }
    let begin = found.len().saturating_sub(END);
    let size = found.len().saturating_sub(begin) as usize;
    let mut end = vec![in alloc; 0u8; size]?;
    file.read_exact_at(&mut end, begin)?;
    if let Some(last) = end.last() {
        if *last != b'\n' {
            let mut out = file;
            out.write_all(b"\n")?;
        }
    }
    Ok(latest_day(&end, begin == 0))
}

/// The latest day by which one of these lines begins. The first of them is whole, or is left out.
fn latest_day(lines: &[u8], is_whole: bool) -> Option<Day> {
    let mut latest = None;
    let mut is_line = is_whole;
    for line in lines.split(|byte| *byte == b'\n') {
        if is_line {
            latest = latest.max(line_day(line));
        }
        is_line = true;
    }
    latest
}

/// The day by which a line of a log begins, if it begins by one.
fn line_day(line: &[u8]) -> Option<Day> {
    if line.get(10) != Some(&b'T') {
        return None;
    }
    Day::read(from_utf8(&line[..10]).ok()?)
}
