//! For each digest, the numbers of the deposits that have it.

ghost use Rattle.std.specs.Prelude.{◌≡◌, ◌∷◌, ◌++◌, [], ℕ, List, IfOk, OnOk, IsSome};
ghost use Rattle.reg_tables.specs.Private.Digests.{AddsNumber, digest_of as digest, found_at, numbers_under, PutsNumbers};

use reg_policy::Name;
use sha2::{Digest, Sha256};
use std::alloc::{AllocError, Global};
use std::collections::BTreeMap;

/// For each digest, the numbers of the deposits that have it.
#[derive(Drop)]
pub(crate) struct Digests {
    pub(crate) held: BTreeMap<[u8; 32], Vec<u32>>,
}

impl Digests {
    /// No digests.
    pub(crate) fn new(alloc: Global) -> Digests
        ensures { (other : List ℕ) → numbers_under result other ≡ [] }
    {
        Digests {
            held: BTreeMap::new(alloc),
        }
    }

    /// The numbers under a digest.
    pub(crate) fn of(&self, digest: &[u8; 32]) -> &[u32]
        ensures { result.now ≡ numbers_under self.now digest.now }
    {
        match self.held.get(digest) {
            Some(numbers) => numbers.as_slice(),
            None => &[],
        }
    }

    /// The numbers of a digest with one more, for which there is room from then on.
    pub(crate) fn make_room(
        &mut self,
        alloc: Global,
        digest: &[u8; 32],
        number: u32,
    ) -> Result<Vec<u32>, AllocError>
        ensures same { (other : List ℕ) → numbers_under self.new other ≡ numbers_under self.old other }
        ensures more { IfOk result (λ numbers. numbers.items ≡ numbers_under self.old digest.now ++ number ∷ []) }
        ensures room { OnOk result (IsSome (found_at self.new digest.now)) }
    {
        let mut numbers = Vec::from_slice(alloc, self.of(digest))?;
        numbers.push(number)?;
        if !self.held.contains_key(digest) {
            self.held.insert(*digest, Vec::new(alloc))?;
        }
        Ok(numbers)
    }

    /// Puts the numbers of a digest instead of those that are under it. There is room.
    pub(crate) fn note(&mut self, digest: [u8; 32], numbers: Vec<u32>)
        requires { IsSome (found_at self.old digest) }
        ensures { PutsNumbers self.old self.new digest numbers.items }
    {
        match self.held.insert(digest, numbers) {
            Ok(_before) => {}
            Err(_) => unreachable!(),
        }
    }

    /// One number more under a digest.
    pub(crate) fn add(
        &mut self,
        alloc: Global,
        digest: [u8; 32],
        number: u32,
    ) -> Result<(), AllocError>
        ensures { OnOk result (AddsNumber self.old self.new digest number) }
    {
        let numbers = self.make_room(alloc, &digest, number)?;
        self.note(digest, numbers);
        Ok(())
    }
}

/// The digest of a deposit.
pub(crate) fn digest_of(firm: &Name, project: &Name, bytes: &[u8]) -> [u8; 32]
    ensures { result ≡ digest firm.now project.now bytes.now }
{
    let mut hasher = Sha256::new();
    hasher.update(firm.text());
    hasher.update("\n");
    hasher.update(project.text());
    hasher.update("\n");
    hasher.update(bytes);
    hasher.finalize()
}
