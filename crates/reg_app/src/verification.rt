//! Verifying a register, also against a log of its receipts and withdrawals.

ghost use Rattle.std.specs.Prelude.{◌≡◌, true, false};

use crate::commands::{Machine, open_shown};
use crate::stores::Registers;
use ags_cli::{Fault, Watched};
use reg_cli::{Failure, Verification};
use reg_store::{Keep, KeepError, KeptHead};
use std::alloc::{AllocError, Global};
use std::fs;
use std::fs::File;
use std::io::{BufRead, BufReader, Write};

/// Opens a register, which checks every deposit, and prints how many there are. With a log, each receipt and each
/// withdrawal of it is compared with the register: what differs is printed, and how many were compared.
pub(crate) fn verify<'w, G: Registers, W: Write, E: Write>(
    rt: &HostRuntime,
    machine: Machine<G>,
    verification: Verification<'w>,
    out: &mut Watched<W>,
    err: &mut Watched<E>,
) -> Result<u8, Failure<'w>> {
    let log = match verification.log {
        Some(path) => Some((open_lines(rt, path)?, path)),
        None => None,
    };
    let kept = open_shown(
        rt,
        machine,
        verification.store,
        verification.shows_progress,
        err,
    )?;
    let (done, kept) = verify_keep(rt.alloc(), kept, log, out);
    G::close(kept);
    done
}

/// The log at a path, open.
fn open_lines<'w>(rt: &HostRuntime, path: &'w str) -> Result<File, Failure<'w>> {
    fs::open(rt, path).map_err(|_| Failure::CannotRead(path))
}

/// Verifies a store, which is returned.
fn verify_keep<'w, K: Keep, W: Write>(
    alloc: Global,
    keep: K,
    log: Option<(File, &'w str)>,
    out: &mut Watched<W>,
) -> (Result<u8, Failure<'w>>, K)
    requires { K.has_failed keep ≡ false }
{
    let mut heads = Heads {
        keep,
        has_failed: false,
    };
    let done = verify_heads(alloc, &mut heads, log, out);
    let Heads {
        keep,
        has_failed: _has_failed,
    } = heads;
    (done, keep)
}

/// The heads of a store's deposits, as long as it has not failed.
#[derive(Drop)]
struct Heads<K: Keep> {
    keep: K,
    has_failed: bool,
    ghost sticky: { K.has_failed keep ≡ true → has_failed ≡ true },
}

impl<K: Keep> Heads<K> {
    /// The head of a deposit, if there is one of this number.
    fn find(&mut self, number: u32) -> Result<Option<KeptHead>, Fault> {
        if self.has_failed {
            return Err(Fault::StoreFailed);
        }
        if number == 0 || number > self.keep.count() {
            return Ok(None);
        }
        match self.keep.head(number) {
            Ok(head) => Ok(Some(head)),
            Err(KeepError::NoMemory) => Err(Fault::NoMemory),
            Err(_) => {
                self.has_failed = true;
                Err(Fault::StoreFailed)
            }
        }
    }
}

fn verify_heads<'w, K: Keep, W: Write>(
    alloc: Global,
    heads: &mut Heads<K>,
    log: Option<(File, &'w str)>,
    out: &mut Watched<W>,
) -> Result<u8, Failure<'w>> {
    let count = heads.keep.count();
    print(out, format!(in alloc; "verified {count}\n"))?;
    match log {
        Some((file, path)) => compare_log(alloc, heads, file, path, out),
        None => Ok(0),
    }
}

/// Prints a line, if there was memory for it.
fn print<W: Write>(out: &mut Watched<W>, line: Result<String, AllocError>) -> Result<(), Fault> {
    let line = line?;
    Ok(out.write_text(line.as_bytes())?)
}

/// Compares the lines of a log with a register: 1 where one of them differs.
fn compare_log<'w, K: Keep, W: Write>(
    alloc: Global,
    heads: &mut Heads<K>,
    file: File,
    path: &'w str,
    out: &mut Watched<W>,
) -> Result<u8, Failure<'w>> {
    let reader = BufReader::new(alloc, file).map_err(|_| Fault::NoMemory)?;
    let mut compared = 0u32;
    let mut status = 0;
    for line in reader.lines(alloc) {
        let Ok(line) = line else {
            return Err(Failure::CannotRead(path));
        };
        let Some(taken) = taken_in(line.as_str()) else {
            continue;
        };
        compared = compared.saturating_add(1);
        if !compare_taken(heads, &taken)? {
            status = 1;
            print(out, missing_line(alloc, &taken))?;
        }
    }
    print(out, format!(in alloc; "compared {compared}\n"))?;
    Ok(status)
}

/// What a line of the log says was taken: a deposit that has a receipt, or its withdrawal.
#[derive(Drop)]
struct Taken<'l> {
    firm: &'l str,
    project: &'l str,
    number: u32,
    is_withdrawal: bool,
}

/// What a line of the log says was taken, if it says that: its status is 200, and its request a deposit or a
/// withdrawal.
fn taken_in(line: &str) -> Option<Taken<'_>> {
    let mut fields = line.split(' ');
    let _time = fields.next()?;
    let firm = fields.next()?;
    let _role = fields.next()?;
    let method = fields.next()?;
    let path = fields.next()?;
    if fields.next()? != "200" {
        return None;
    }
    let number = fields.nth(3)?.parse::<u32>().ok()?;
    let project = path.strip_prefix("/v1/projects/")?.split('/').next()?;
    let is_withdrawal = method == "DELETE";
    if !is_withdrawal && !(method == "POST" && path.ends_with("/deposits")) {
        return None;
    }
    Some(Taken {
        firm,
        project,
        number,
        is_withdrawal,
    })
}

/// Whether a register has what was taken.
fn compare_taken<K: Keep>(heads: &mut Heads<K>, taken: &Taken<'_>) -> Result<bool, Fault> {
    let Some(head) = heads.find(taken.number)? else {
        return Ok(false);
    };
    let is_same = head.firm.text() == taken.firm && head.project.text() == taken.project;
    Ok(is_same && (head.withdrawn || !taken.is_withdrawal))
}

/// The line that says what a register lacks of its log.
fn missing_line(alloc: Global, taken: &Taken<'_>) -> Result<String, AllocError> {
    let (number, firm, project) = (taken.number, taken.firm, taken.project);
    let what = if taken.is_withdrawal {
        "withdrawal"
    } else {
        "deposit"
    };
    format!(in alloc; "missing {what} {number} {firm} {project}\n")
}
