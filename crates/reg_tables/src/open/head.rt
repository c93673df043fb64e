//! What is known of a deposit from its row and its file.

ghost use Rattle.std.specs.Prelude.{◌≡◌};
ghost use Rattle.reg_store.specs.Keep.{sent_of};
ghost use Rattle.reg_tables.specs.Private.Heads.{head_of};

use crate::memory::Known;
use crate::memory::file::KnownFile;
use reg_store::{Kept, KeptHead};

/// What is known of a deposit, with its digest.
#[derive(Drop)]
pub(crate) struct DigestedHead {
    pub known: Known,
    pub digest: [u8; 32],
}

/// What is known of a deposit of this file, whose bytes are dropped. It has no mark: the marks are read later.
pub(crate) fn into_known(kept: Kept, file: KnownFile) -> Known
    ensures head { result.head ≡ head_of (sent_of kept) }
    ensures file { result.file ≡ file }
{
    let Kept {
        firm,
        project,
        embargo,
        bytes: _,
        withdrawn: _,
    } = kept;
    Known {
        head: KeptHead {
            firm,
            project,
            embargo,
            withdrawn: false,
        },
        file,
    }
}
