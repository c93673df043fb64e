//! How far the deposits of a register are checked, while it is opened or migrated.

/// Takes note of how many deposits are checked.
pub trait Progress {
    /// `checked` of `count` deposits are checked.
    ///
    /// The call comes once with 0, before the first deposit, and once after each deposit that is whole. No clause says
    /// so.
    fn checked(&mut self, checked: u32, count: u32);
}

/// Takes no note.
#[derive(Drop)]
pub struct NoProgress;

impl Progress for NoProgress {
    fn checked(&mut self, _checked: u32, _count: u32) {}
}
