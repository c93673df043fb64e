//! Registers at paths: what makes and opens them, and what is said of their files.

ghost use Rattle.std.specs.Prelude.{◌≡◌, ◌≤◌, [], false, IfOk, length};
ghost use Rattle.ags_dict.specs.Reading.{IsDictionary};

use crate::progress::ProgressLines;
use ags_cli::Fault;
use ags_rows::READABLE;
use reg_cli::Failure;
use reg_store::{Keep, NextStart, Progress};
use std::alloc::Global;
use std::convert::AsStr;
use std::fs;
use std::fs::OpenOptions;
use std::io::{ErrorKind, Write};
use std::os::unix::fs::OpenOptionsExt;
use std::path::Path;
use std::time::Clock;

/// What makes and opens registers at paths.
pub trait Registers: Drop {
    /// A register that is open.
    type Kept: Keep + NextStart;

    /// Makes an empty register at a path under the dictionary that the bytes are.
    fn create<'w>(
        self,
        rt: &HostRuntime,
        alloc: Global,
        path: &str,
        bytes: &[u8],
    ) -> Result<Self::Kept, Failure<'w>>
        requires { length bytes.now ≤ READABLE }
        ensures working { IfOk result (λ kept. Self.Kept.has_failed kept ≡ false) }
        ensures dictionary { IfOk result (λ kept. IsDictionary bytes.now (Self.Kept.dictionary kept)) }
        ensures empty { IfOk result (λ kept. Self.Kept.is_sound kept → Self.Kept.deposits kept ≡ []) };

    /// Opens the register at a path. `progress` takes note of the deposits that are checked.
    fn open<'w, P: Progress>(
        self,
        rt: &HostRuntime,
        alloc: Global,
        path: &str,
        progress: &mut P,
    ) -> Result<Self::Kept, Failure<'w>>
        ensures { IfOk result (λ kept. Self.Kept.has_failed kept ≡ false) };

    /// Makes the register of format 1 at a path one of format 2.
    fn migrate<'w, P: Progress>(
        self,
        rt: &HostRuntime,
        alloc: Global,
        path: &str,
        progress: &mut P,
    ) -> Result<Self::Kept, Failure<'w>>
        ensures { IfOk result (λ kept. Self.Kept.has_failed kept ≡ false) };

    /// Closes a register.
    fn close(kept: Self::Kept);
}

/// Opens the register at a path, and says how far that is.
pub(crate) fn open_register<'w, G: Registers, C: Clock, E: Write>(
    rt: &HostRuntime,
    alloc: Global,
    registers: G,
    path: &str,
    lines: &mut ProgressLines<'_, '_, C, E>,
) -> Result<G::Kept, Failure<'w>>
    ensures { IfOk result (λ kept. G.Kept.has_failed kept ≡ false) }
{
    find_file(rt, alloc, path, lines)?;
    registers.open(rt, alloc, path, lines)
}

/// Makes the register of format 1 at a path one of format 2, and says how far that is.
pub(crate) fn migrate_register<'w, G: Registers, C: Clock, E: Write>(
    rt: &HostRuntime,
    alloc: Global,
    registers: G,
    path: &str,
    lines: &mut ProgressLines<'_, '_, C, E>,
) -> Result<G::Kept, Failure<'w>> {
    find_file(rt, alloc, path, lines)?;
    registers.migrate(rt, alloc, path, lines)
}

/// Says how many bytes a register has, unless its path names nothing, in a folder that is there: opening a store would
/// make a file of this name.
fn find_file<C: Clock, E: Write>(
    rt: &HostRuntime,
    alloc: Global,
    path: &str,
    lines: &mut ProgressLines<'_, '_, C, E>,
) -> Result<(), Fault> {
    if is_absent(rt, path) {
        return Err(Fault::NotRegister);
    }
    if let Some(bytes) = register_bytes(rt, alloc, path) {
        lines.say_bytes(bytes);
    }
    Ok(())
}

/// Makes an empty file that its owner alone may read and write, where none is there. The log beside it has the same
/// rights once it is made. What fails here fails where the register is made, and is said there.
pub(crate) fn make_private(rt: &HostRuntime, store: &str) {
    let _made = OpenOptions::new()
        .write(true)
        .create_new(true)
        .mode(0o600)
        .open(rt, store);
}

/// Whether a path names nothing, in a folder that is there.
fn is_absent(rt: &HostRuntime, path: &str) -> bool {
    let found = fs::symlink_metadata(rt, path);
    found.is_err_and(|error| error.kind() == ErrorKind::NotFound) && has_folder(rt, path)
}

/// Whether the folder of a path is there.
fn has_folder(rt: &HostRuntime, path: &str) -> bool {
    match Path::new(path).parent() {
        Some(folder) if folder.as_str().is_empty() => true,
        Some(folder) => fs::metadata(rt, folder).is_ok_and(|found| found.is_dir()),
        None => false,
    }
}

/// The bytes of the file at a path and of the log beside it, if the file is there.
fn register_bytes(rt: &HostRuntime, alloc: Global, path: &str) -> Option<u64> {
    let file = file_bytes(rt, path)?;
    let log = format!(in alloc; "{path}-wal").ok()?;
    let logged = file_bytes(rt, log.as_str()).unwrap_or(0);
    Some(file.saturating_add(logged))
}

/// The bytes of the file at a path, if there is one.
fn file_bytes(rt: &HostRuntime, path: &str) -> Option<u64> {
    let found = fs::metadata(rt, path).ok()?;
    found.is_file().then(|| found.len())
}
