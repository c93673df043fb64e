//! Lists as a struct holds them, which contracts see by their elements.

ghost use Rattle.std.specs.Prelude.{◌≡◌, ◌==◌, List, IfOk, length};

use std::alloc::{AllocError, Global};
use std::marker::Model;

/// A list that contracts see by its elements.
#[derive(Debug, Drop)]
pub struct Sequence<T> {
    held: Vec<T>,
}

impl<T> Model for Sequence<T> {
    ghost Value = { List T };

    ghost view = { λ s. s.held.items };
}

impl<T> Sequence<T> {
    pub fn from_vec(held: Vec<T>) -> Self
        ensures { result ≡ held.items }
    {
        Sequence { held }
    }

    pub fn into_vec(self) -> Vec<T>
        ensures { result.items ≡ self }
    {
        let Sequence { held } = self;
        held
    }

    pub fn len(&self) -> usize
        ensures { result ≡ length self.now }
    {
        self.held.len()
    }

    pub fn is_empty(&self) -> bool
        ensures { result ≡ (length self.now == 0) }
    {
        self.held.is_empty()
    }

    pub fn as_slice(&self) -> &[T]
        ensures { result.now ≡ self.now }
    {
        self.held.as_slice()
    }
}

/// A list of bytes.
pub type Bytes = Sequence<u8>;

/// The bytes, kept.
pub fn copy(alloc: Global, bytes: &[u8]) -> Result<Bytes, AllocError>
    ensures { IfOk result (λ copied. copied ≡ bytes.now) }
{
    Ok(Sequence::from_vec(Vec::from_slice(alloc, bytes)?))
}
