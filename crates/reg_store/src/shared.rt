//! Bytes with several owners.

ghost use Rattle.std.specs.Prelude.{◌≡◌, List, ℕ, IfOk};

use ags_text::{Bytes, copy};
use std::alloc::{AllocError, Global};
use std::marker::Model;
use std::rc::Rc;

/// Bytes of which a clone is a further owner, and no copy.
#[derive(Drop)]
pub struct SharedBytes {
    held: Rc<Bytes>,
}

impl Model for SharedBytes {
    ghost Value = { List ℕ };

    ghost view = { λ bytes. bytes.held.value };
}

impl SharedBytes {
    /// A copy of these bytes. It is refused only when out of memory.
    pub fn copied(alloc: Global, bytes: &[u8]) -> Result<SharedBytes, AllocError>
        ensures { IfOk result (λ shared. shared ≡ bytes.now) }
    {
        let held = Rc::new(alloc, copy(alloc, bytes)?)?;
        Ok(SharedBytes { held })
    }

    pub fn as_slice(&self) -> &[u8]
        ensures { result.now ≡ self.now }
    {
        self.held.as_slice()
    }
}

impl Clone for SharedBytes {
    ghost is_clone = { λ bytes copy. copy ≡ bytes };

    fn clone(&self) -> Result<SharedBytes, AllocError> {
        let held = self.held.clone()?;
        Ok(SharedBytes { held })
    }
}
