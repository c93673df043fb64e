//! What is known of the deposits without the tables: their heads, their rows of PROJ, and their digests.

ghost use Rattle.std.specs.Prelude.{◌≡◌, ◌≢◌, ◌↔◌, ◌+◌, ◌++◌, ◌∷◌, ◌-◌, ◌<◌, ◌≤◌, [], ℕ, List, length, Some, Err};
ghost use Rattle.std.specs.Prelude.{slice_get, IsTrue, IfOk, IfSome};
ghost use Rattle.ags_dict.specs.Entries.{Entries};
ghost use Rattle.reg_store.specs.Keep.{OfDeposit};
ghost use Rattle.reg_store.specs.Reading.{HasProjectRows, IsHeadAt};
ghost use Rattle.reg_store.specs.Deposit.{Deposit, with_withdrawn, sents, new_deposit};
ghost use Rattle.reg_store.specs.Sent.{Sent, numbers_from};
ghost use Rattle.reg_tables.specs.Private.Digests.{AreBelow, AreDigested, numbers_under};
ghost use Rattle.reg_tables.specs.Private.Heads.{AreNew, KnowsFile};
ghost use Rattle.reg_tables.specs.Register.{marks_of};
ghost use Rattle.reg_tables.specs.Rows.{deposit_from};

pub(crate) mod digests;
pub(crate) mod file;
pub(crate) mod room;

use crate::error::TableError;
use crate::memory::digests::{Digests, digest_of};
use crate::memory::file::KnownFile;
use crate::memory::room::{Room, Totals};
use reg_policy::{Day, Name};
use reg_store::{HeadedRow, KeptHead};
use std::alloc::{AllocError, Global};

/// What is known of the deposits.
#[derive(Drop)]
pub(crate) struct Memory {
    /// What is known of each, in the order of their numbers.
    known: Vec<Known>,
    /// The numbers of the deposits of each digest.
    digests: Digests,
    /// How much the register had and has.
    room: Room,
    ghost few: { length known.items ≤ 999999 },
}

impl Memory {
    ghost use Rattle.reg_tables.specs.Private.Memory.{Agrees, HasRoom, IsComing};

    /// No deposit is known, of a register whose dictionary has so many bytes.
    pub(crate) fn new(alloc: Global, dictionary_bytes: usize) -> Memory
        ensures agrees { (dictionary : Entries) → Agrees result dictionary [] }
        ensures none { result.known.items ≡ [] }
    {
        Memory {
            known: Vec::new(alloc),
            digests: Digests::new(alloc),
            room: Room::of_new(dictionary_bytes),
        }
    }

    /// What was found of the deposits, with these marks.
    pub(crate) fn of(found: Found, marks: &[bool]) -> Memory
        requires few { length found.known.items ≤ 999999 }
        requires marks { length marks.now ≡ length found.known.items }
        ensures agrees { (dictionary : Entries) (list : List Deposit)
            → AreNew dictionary found.known.items (sents list) → marks.now ≡ marks_of list
            → AreDigested found.digests (sents list) → AreBelow found.digests (length list + 1)
            → Agrees result dictionary list }
        ensures long { length result.known.items ≡ length found.known.items }
    {
        let Found {
            mut known,
            digests,
            dictionary_bytes,
        } = found;
        let mut totals = Totals::of_dictionary(dictionary_bytes);
        for at in 0..known.len() {
            known[at].head.withdrawn = marks[at];
            totals = totals.with(known[at].file.size);
        }
        Memory {
            known,
            digests,
            room: Room::of_opened(totals),
        }
    }

    /// How many deposits are known.
    pub(crate) fn count(&self) -> u32
        ensures { result ≡ length self.now.known.items }
    {
        self.known.len() as u32
    }

    /// Whether a deposit that is known has the number n.
    fn is_known(&self, n: u32) -> bool
        ensures { IsTrue result ↔ ((0 < n) × (n ≤ length self.now.known.items)) }
    {
        0 < n && n as usize <= self.known.len()
    }

    /// Whether the next start will need more than three quarters of the memory that a process may take.
    pub(crate) fn is_nearly_full(&self, alloc: Global) -> bool {
        self.room.is_nearly_full(alloc)
    }

    /// Takes the memory that a start will take beyond what the process holds now, and drops it.
    pub(crate) fn try_start(&self, alloc: Global) -> Result<(), AllocError> {
        self.room.try_start(alloc)
    }

    /// The head of deposit n. A number that no deposit has is `Store`: the disk that it was read from was not sound.
    pub(crate) fn held_head(&self, n: u32) -> Result<KeptHead, TableError>
        ensures read { IfOk result (λ head. (dictionary : Entries) (list : List Deposit) → Agrees self.now dictionary list
            → IsHeadAt list n head) }
        ensures there { 0 < n → n ≤ length self.now.known.items → result ≢ Err TableError.Store }
    {
        if !self.is_known(n) {
            return Err(TableError::Store);
        }
        let head = self.known[n as usize - 1].head.clone()?;
        Ok(head)
    }

    /// Whether deposit n is withdrawn.
    pub(crate) fn is_withdrawn(&self, n: u32) -> bool
        ensures { (dictionary : Entries) (list : List Deposit) → Agrees self.now dictionary list
            → 0 < n → (d : Deposit) → slice_get list (n - 1) ≡ Some d → result ≡ d.withdrawn }
    {
        self.is_known(n) && self.known[n as usize - 1].head.withdrawn
    }

    /// How many DATA rows deposit n has.
    pub(crate) fn row_count(&self, n: u32) -> u32
        ensures { (dictionary : Entries) (list : List Deposit) → Agrees self.now dictionary list → 0 < n
            → OfDeposit dictionary (sents list) n (λ file. result ≡ file.graph.rows) }
    {
        if self.is_known(n) {
            self.known[n as usize - 1].file.size.rows
        } else {
            0
        }
    }

    /// The numbers of a project's deposits, rising.
    pub(crate) fn held_numbers(&self, alloc: Global, project: &Name) -> Result<Vec<u32>, AllocError>
        ensures { IfOk result (λ ns. (dictionary : Entries) (list : List Deposit) → Agrees self.now dictionary list
            → ns.items ≡ numbers_from 1 project.now (sents list)) }
    {
        let mut numbers = Vec::new(alloc);
        let mut number: u32 = 0;
        for one in &self.known {
            number += 1;
            if one.head.project == *project {
                numbers.push(number)?;
            }
        }
        Ok(numbers)
    }

    /// The numbers of the deposits of a digest.
    pub(crate) fn held_with_digest(&self, digest: &[u8; 32]) -> &[u32]
        ensures { result.now ≡ numbers_under self.now.digests digest.now }
    {
        self.digests.of(digest)
    }

    /// The row of PROJ of deposit n, and the rows that it reaches. A number that no deposit has is `Store`: the disk
    /// that it was read from was not sound.
    pub(crate) fn held_project(&self, alloc: Global, n: u32) -> Result<Vec<HeadedRow>, TableError>
        ensures read { IfOk result (λ rows. (dictionary : Entries) (list : List Deposit)
            → Agrees self.now dictionary list → OfDeposit dictionary (sents list) n (HasProjectRows rows)) }
        ensures there { 0 < n → n ≤ length self.now.known.items → result ≢ Err TableError.Store }
    {
        if !self.is_known(n) {
            return Err(TableError::Store);
        }
        let rows = copied_rows(alloc, &self.known[n as usize - 1].file.project)?;
        Ok(rows)
    }

    /// One deposit more, which is not known yet. There is room for it from then on, and there was memory enough for a
    /// start that opens the register with it.
    pub(crate) fn make_room(
        &mut self,
        alloc: Global,
        firm: &Name,
        project: &Name,
        embargo: Day,
        bytes: &[u8],
        file: KnownFile,
    ) -> Result<Coming, AllocError>
        ensures same { length self.new.known.items ≡ length self.old.known.items }
        ensures agrees { (dictionary : Entries) (list : List Deposit) → Agrees self.old dictionary list
            → Agrees self.new dictionary list }
        ensures room { IfOk result (HasRoom self.new) }
        ensures coming { IfOk result (IsComing self.new (deposit_from firm.now project.now embargo bytes.now)) }
        ensures file { IfOk result (λ coming. coming.known.file ≡ file) }
    {
        self.room.with(file.size).try_start(alloc)?;
        let head = KeptHead {
            firm: firm.clone()?,
            project: project.clone()?,
            embargo,
            withdrawn: false,
        };
        let digest = digest_of(firm, project, bytes);
        let number = self.count() + 1;
        let numbers = self.digests.make_room(alloc, &digest, number)?;
        self.known.reserve(1)?;
        Ok(Coming {
            known: Known { head, file },
            digest,
            numbers,
        })
    }

    /// Takes the deposit that was to come.
    pub(crate) fn push(&mut self, coming: Coming)
        requires few { length self.old.known.items < 999999 }
        requires room { HasRoom self.old coming }
        ensures agrees { (dictionary : Entries) (list : List Deposit) (d : Sent) → IsComing self.old d coming
            → KnowsFile dictionary d coming.known.file → Agrees self.old dictionary list
            → Agrees self.new dictionary (list ++ new_deposit d ∷ []) }
        ensures long { length self.new.known.items ≡ length self.old.known.items + 1 }
    {
        let Coming {
            known,
            digest,
            numbers,
        } = coming;
        self.room = self.room.with(known.file.size);
        self.known.push_reserved(known);
        self.digests.note(digest, numbers);
    }

    /// Marks deposit n, if one has that number.
    pub(crate) fn mark(&mut self, n: u32)
        ensures same { length self.new.known.items ≡ length self.old.known.items }
        ensures agrees { (dictionary : Entries) (list : List Deposit) → Agrees self.old dictionary list
            → Agrees self.new dictionary (with_withdrawn n list) }
    {
        if self.is_known(n) {
            self.known[n as usize - 1].head.withdrawn = true;
        }
    }
}

/// What is known of a deposit.
#[derive(Drop)]
pub(crate) struct Known {
    pub(crate) head: KeptHead,
    pub(crate) file: KnownFile,
}

/// What is found of a register as it is examined.
#[derive(Drop)]
pub(crate) struct Found {
    /// What is known of each deposit so far, in the order of their numbers. The marks are read later.
    pub(crate) known: Vec<Known>,
    /// The numbers of these deposits, under their digests.
    pub(crate) digests: Digests,
    pub(crate) dictionary_bytes: usize,
}

impl Found {
    /// Nothing is found yet.
    pub(crate) fn new(alloc: Global) -> Found
        ensures known { result.known.items ≡ [] }
        ensures digests { (digest : List ℕ) → numbers_under result.digests digest ≡ [] }
    {
        Found {
            known: Vec::new(alloc),
            digests: Digests::new(alloc),
            dictionary_bytes: 0,
        }
    }
}

/// A deposit to come, for which there is room.
#[derive(Drop)]
pub(crate) struct Coming {
    known: Known,
    digest: [u8; 32],
    /// The numbers of its digest, its own the last of them.
    numbers: Vec<u32>,
}

/// The rows, once more.
fn copied_rows(alloc: Global, rows: &[HeadedRow]) -> Result<Vec<HeadedRow>, AllocError>
    ensures { IfOk result (λ copied. copied.items ≡ rows.now) }
{
    let mut copied = Vec::with_capacity(alloc, rows.len())?;
    for row in rows {
        copied.push(row.clone()?)?;
    }
    Ok(copied)
}
