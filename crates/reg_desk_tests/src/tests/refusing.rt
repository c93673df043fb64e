//! A store in memory that fails.

ghost use Rattle.std.specs.Prelude.{◌≡◌, [], false, ⊤, refl};

use ags_check::Checked;
use ags_dict::Dictionary;
use ags_links::Graph;
use reg_policy::{Day, Name};
use reg_store::{HeadedRow, Keep, KeepError, Kept, KeptHead, KeptRow, PlainKeep};

/// A store in memory that answers `Store` where its body is asked for, and at the call after so many other calls.
#[derive(Drop)]
pub struct Refusing {
    keep: PlainKeep,
    answered: u32,
    failed: bool,
}

impl Refusing {
    /// Over this store, with so many calls that are answered.
    pub fn new(keep: PlainKeep, answered: u32) -> Refusing
        ensures { result.failed ≡ false }
    {
        Refusing {
            keep,
            answered,
            failed: false,
        }
    }

    /// Counts a call. It fails where no call is left that is answered.
    fn fails(&mut self) -> bool
        ensures keep { self.new.keep ≡ self.old.keep }
        ensures failed { self.new.failed ≡ result }
    {
        self.failed = self.answered == 0;
        self.answered = self.answered.saturating_sub(1);
        self.failed
    }
}

impl Keep for Refusing {
    ghost use Rattle.reg_store.specs.Deposit.{sents};
    ghost use Rattle.reg_store.specs.Plain.{deposits_of, dictionary_of, limit_of};
    ghost use Rattle.reg_store.specs.PlainLaws.{few_of, fit_of};

    ghost deposits = { λ k. deposits_of k.keep };

    ghost dictionary = { λ k. dictionary_of k.keep };

    ghost text = { λ _. [] };

    ghost limit = { λ k. limit_of k.keep };

    ghost has_failed = { λ k. k.failed };

    ghost may_leave = { λ k bytes list. (bytes ≡ []) × (list ≡ deposits_of k.keep) };

    ghost may_break = { λ _. ⊥ };

    ghost is_sound = { λ _. ⊤ };

    fn find(
        &mut self,
        firm: &Name,
        project: &Name,
        bytes: &[u8],
    ) -> Result<Option<u32>, KeepError> {
        if self.fails() {
            return Err(KeepError::Store);
        }
        self.keep.find(firm, project, bytes)
    }

    fn add(
        &mut self,
        firm: &Name,
        project: &Name,
        embargo: Day,
        checked: &Checked<'_>,
    ) -> Result<u32, KeepError> {
        if self.fails() {
            return Err(KeepError::Store);
        }
        self.keep.add(firm, project, embargo, checked)
    }

    fn withdraw(&mut self, n: u32) -> Result<(), KeepError> {
        if self.fails() {
            return Err(KeepError::Store);
        }
        self.keep.withdraw(n)
    }

    fn deposit(&mut self, _n: u32) -> Result<Kept, KeepError> {
        self.failed = true;
        Err(KeepError::Store)
    }

    fn numbers(&mut self, project: &Name) -> Result<Vec<u32>, KeepError> {
        if self.fails() {
            return Err(KeepError::Store);
        }
        self.keep.numbers(project)
    }

    fn head(&mut self, n: u32) -> Result<KeptHead, KeepError> {
        if self.fails() {
            return Err(KeepError::Store);
        }
        self.keep.head(n)
    }

    fn rows(&mut self, n: u32) -> Result<Vec<KeptRow>, KeepError> {
        if self.fails() {
            return Err(KeepError::Store);
        }
        self.keep.rows(n)
    }

    fn steps(&mut self, n: u32) -> Result<Graph, KeepError> {
        if self.fails() {
            return Err(KeepError::Store);
        }
        self.keep.steps(n)
    }

    fn project_rows(&mut self, n: u32) -> Result<Vec<HeadedRow>, KeepError> {
        if self.fails() {
            return Err(KeepError::Store);
        }
        self.keep.project_rows(n)
    }

    fn count(&self) -> u32 {
        self.keep.count()
    }

    fn limit(&self) -> u32 {
        self.keep.limit()
    }

    fn dictionary(&self) -> &Dictionary {
        self.keep.dictionary()
    }

    ghost settled = { λ _ _ _ _ _ same. same };

    ghost stays = { λ _ _ _. ∣ (refl, refl) ∣₁ };

    ghost unbroken = { λ _ _ _ none. none };

    ghost remains = { λ k _ _ none. none [] (deposits_of k.keep) (refl, refl) };

    ghost fit = { λ k _ _. fit_of (dictionary_of k.keep) (sents (deposits_of k.keep)) k.keep.fit };

    ghost few = { λ k _ _. few_of k.keep.kept.items k.keep.limit k.keep.within k.keep.few };
}
