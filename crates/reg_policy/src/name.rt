//! Names of firms, roles and projects.
ghost use Rattle.std.specs.Prelude.{◌≡◌, ◌↔◌, ℕ, List, Err, IsTrue, IsFalse, IfOk};
ghost use Rattle.std.specs.List.{list_all};
ghost use Rattle.std.specs.Cmp.{partial_order_from_own_ties};
ghost use Rattle.std.specs.Cmp.Lexicographic.{slice_cmp};
ghost use Rattle.std.specs.Cmp.Rules.{comparing};
ghost use Rattle.std.specs.Ordering.{as_partial_cmp, nat_cmp};
ghost use Rattle.std.specs.Str.{bytes_eq};
ghost use Rattle.std.proofs.Common.{rules};
ghost use Rattle.reg_policy.specs.Names.{is_name, is_name_byte};

use crate::error::NameError;
use ags_text::is_within;
use arrayvec::ArrayString;
use std::alloc::{AllocError, Global};
use std::cmp::Ordering;
use std::marker::Model;

/// The name of a firm, a role or a project: 1 to 32 letters, digits, `-` and `_`. Names compare by their bytes.
#[derive(Drop)]
pub struct Name {
    text: ArrayString<32>,
}

impl Model for Name {
    ghost Value = { List ℕ };

    ghost view = { λ n. n.text.bytes };

    ghost invariant = { λ n. IsTrue (is_name n.text.bytes) };
}

impl Name {
    /// The name that the text is.
    pub fn read(_alloc: Global, text: &str) -> Result<Name, NameError>
        ensures name { IfOk result (λ n. n ≡ text.now) }
        ensures is_name { IfOk result (λ n. IsTrue (is_name n)) }
        ensures bad_name { (result ≡ Err NameError.BadName) ↔ IsFalse (is_name text.now) }
    {
        if !is_name(text.as_bytes()) {
            return Err(NameError::BadName);
        }
        let mut copy = ArrayString::new();
        copy.push_str(text);
        Ok(Name { text: copy })
    }

    /// The text that it was read from.
    pub fn text(&self) -> &str
        ensures text { result.now ≡ self.now }
        ensures is_name { IsTrue (is_name self.now) }
    {
        self.text.as_str()
    }
}

impl Clone for Name {
    ghost is_clone = { λ name copy. copy ≡ name };

    fn clone(&self) -> Result<Name, AllocError>
        ensures { IfOk result (λ copy. copy ≡ self.now) }
    {
        Ok(Name { text: self.text })
    }
}

impl PartialEq for Name {
    ghost eq = { bytes_eq };

    ghost laws = { Prim.search (comparing, rules) };

    fn eq(&self, other: &Name) -> bool {
        self.text() == other.text()
    }
}

impl Eq for Name {
    ghost laws = { Prim.search (comparing, rules) };
}

impl PartialOrd for Name {
    ghost partial_cmp = { as_partial_cmp (slice_cmp nat_cmp) };

    ghost laws = { partial_order_from_own_ties (Prim.search (comparing, rules)) (Prim.search (comparing, rules)) };

    fn partial_cmp(&self, other: &Name) -> Option<Ordering> {
        Some(self.cmp(other))
    }
}

impl Ord for Name {
    ghost cmp = { slice_cmp nat_cmp };

    ghost total = { Prim.search (comparing, rules) };

    ghost matches_partial_cmp = { Prim.search (comparing, rules) };

    ghost matches_eq = { Prim.search (comparing, rules) };

    fn cmp(&self, other: &Name) -> Ordering {
        self.text().cmp(other.text())
    }
}

fn is_name(text: &[u8]) -> bool
    ensures { result ≡ is_name text.now }
{
    is_within(text, 32) && has_name_bytes(text)
}

fn has_name_bytes(text: &[u8]) -> bool
    ensures { result ≡ list_all is_name_byte text.now }
{
    text.iter().all(|b| is_name_byte(*b))
}

fn is_name_byte(b: u8) -> bool
    ensures { result ≡ is_name_byte b }
{
    b.is_ascii_alphanumeric() || b == b'-' || b == b'_'
}
