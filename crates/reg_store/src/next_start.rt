//! The memory that the next start takes.

/// A store that is opened again at the next start.
pub trait NextStart {
    /// Whether the next start will need more than three quarters of the memory that a process may take. No clause says
    /// so.
    fn is_nearly_full(&self) -> bool;
}
