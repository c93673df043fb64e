//! The caller in README.md of reg_cli.

use super::answers::DELTA;
use ags_cli::Watched;
use ags_dict::Dictionary;
use ags_rows::built_in::MINI;
use reg_cli::{Asker, session_of};
use reg_desk::Desk;
use reg_policy::{Callers, Policy};
use reg_request::Ask;
use reg_store::{Keep, PlainKeep};
use samples_of_tests::{CALLERS, POLICY};
use std::alloc::Global;
use std::io::Write;
use std::test::Fail;

/// Prints what the holder of a token may list, and gives the status. Without memory nothing is printed.
pub fn print_list<K: Keep, W: Write>(
    alloc: Global,
    desk: &mut Desk<K>,
    callers: &Callers,
    asker: &Asker<'_>,
    token: &[u8],
    out: &mut Watched<W>,
) -> u8 {
    match session_of(alloc, callers, token, asker, None) {
        Ok(session) => session
            .ask(alloc, desk, &Ask::List, &[], b"", out)
            .unwrap_or(5),
        Err(fault) => fault.status(),
    }
}

#[test]
fn nothing_is_listed_at_first(rt: HostRuntime) -> Result<(), Fail> {
    let callers = Callers::read(rt.alloc(), CALLERS)?;
    let dictionary = Dictionary::read(rt.alloc(), MINI)?;
    let policy = Policy::read(rt.alloc(), POLICY)?;
    let mut desk = Desk::new(PlainKeep::new(rt.alloc(), dictionary), policy);
    let mut printed = Vec::new(rt.alloc());
    let out = &mut Watched::new(&mut printed);
    let status = print_list(rt.alloc(), &mut desk, &callers, &DELTA, b"t-delta", out);
    assert!(rt; status == 0 && printed.is_empty());
    Ok(())
}
