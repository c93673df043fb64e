//! What is noted of a run: how far a start said that it was, the bytes that a file has, and the letter of a stage.

use super::Stage;
use reg_store::Progress;
use sqlite_disk::{Disk, Fuse, Memory};
use std::alloc::Global;
use std::io;

/// How many calls said that 0 deposits are checked, then 1, and so on, of how many, and how many said something else.
#[derive(Clone, Copy)]
pub(super) struct Noted {
    in_order: u32,
    count: Option<u32>,
    others: u32,
}

impl Progress for Noted {
    fn checked(&mut self, checked: u32, count: u32) {
        if checked == self.in_order && self.count.unwrap_or(count) == count {
            self.in_order = self.in_order.saturating_add(1);
        } else {
            self.others = self.others.saturating_add(1);
        }
        self.count = Some(count);
    }
}

impl Noted {
    /// No call yet.
    pub(super) fn new() -> Noted {
        Noted {
            in_order: 0,
            count: None,
            others: 0,
        }
    }

    /// Whether it is said once before the first of so many deposits, and once after each.
    pub(super) fn is_of(self, count: u32) -> bool {
        self.in_order == count.saturating_add(1) && self.count == Some(count) && self.others == 0
    }
}

/// A file in memory that has these bytes, all of them synced.
pub(super) fn copied(alloc: Global, file: &Fuse<Memory>) -> io::Result<Memory> {
    let mut copy = Memory::new(alloc);
    copy.write_at(0, file.inner().bytes())?;
    copy.sync()?;
    Ok(copy)
}

/// The letter of a stage, and `x` where a run left what it may not.
pub(super) fn letter(stage: Option<Stage>) -> char {
    match stage {
        Some(Stage::Making) => 'M',
        Some(Stage::First) => 'F',
        Some(Stage::Second) => 'S',
        Some(Stage::Withdrawal) => 'W',
        Some(Stage::Closing) => 'C',
        Some(Stage::Ended) => '.',
        None => 'x',
    }
}
