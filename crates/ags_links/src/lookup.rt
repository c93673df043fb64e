//! The index: from a text to the rows that have it.

ghost use Rattle.std.specs.Prelude.{◌≡◌, ◌<◌, ◌≤◌, ℕ, List, Contains, IfOk, IsTrue, length, map};
ghost use Rattle.ags_links.specs.Lookups.{found, pairs_of, comes_before, rows_between, AreInOrder, HasOneText, AreFirstWith, IsEnd, IsBegin, IsBoundary, IsWithin, IsSpanOf};

use std::alloc::{AllocError, Global};
use std::marker::Model;

/// Rows by a text that they have. Contracts see each text with its row.
#[derive(Drop)]
pub(crate) struct Lookup {
    // in the order of the texts
    pairs: Vec<(Vec<u8>, u32)>,
    // the rows of the pairs alone, so that those of one text are a slice
    rows: Vec<u32>,
}

impl Model for Lookup {
    ghost use Rattle.std.specs.Prelude.{ℕ, List};
    ghost use Rattle.ags_links.specs.Lookups.{pairs_of, AreByText};

    ghost Value = { List (List ℕ × ℕ) };

    ghost view = { λ l. pairs_of l.pairs.items };

    ghost invariant = { λ l. AreByText l.pairs.items l.rows.items };
}

/// Where the pairs of a text begin, and where they end.
#[derive(Clone, Copy)]
pub(crate) struct Span {
    pub(crate) first: usize,
    pub(crate) end: usize,
}

/// The rows of these pairs by their texts; rows of one text in the order of the pairs.
pub(crate) fn rows_by_text(alloc: Global, pairs: Vec<(Vec<u8>, u32)>) -> Result<Lookup, AllocError>
    ensures { IfOk result (λ lookup. (text : List ℕ) → found lookup text ≡ found (pairs_of pairs.items) text) }
{
    let mut sorted = pairs;
    sorted.sort_by(|first, second| first.0.cmp(&second.0))?;
    let rows = sorted.iter().map(|pair| pair.1).collect(alloc)?;
    Ok(Lookup {
        pairs: sorted,
        rows,
    })
}

/// The rows that have the text.
pub(crate) fn rows_with<'l>(lookup: &'l Lookup, text: &[u8]) -> &'l [u32]
    ensures { result.now ≡ found lookup.now text.now }
{
    rows_of_span(lookup, span_of(lookup, 0, text))
}

/// The rows of a span.
pub(crate) fn rows_of_span(lookup: &Lookup, span: Span) -> &[u32]
    requires { IsWithin lookup.now span }
    ensures { result.now ≡ rows_between lookup.now span.first span.end }
{
    &lookup.rows[span.first..span.end]
}

/// Where the pairs of the text are. They are found at once where they begin at the place that is tried first.
pub(crate) fn span_of(lookup: &Lookup, near: usize, text: &[u8]) -> Span
    ensures { IsSpanOf lookup.now text.now result }
{
    let pairs = lookup.pairs.as_slice();
    let first = boundary(pairs, near, text, false);
    let end = boundary(pairs, first.saturating_add(1), text, true);
    Span { first, end }
}

/// The end of the pairs that `comes_before` holds of. A place that is near is tried first.
fn boundary(pairs: &[(Vec<u8>, u32)], near: usize, text: &[u8], upto: bool) -> usize
    requires { AreInOrder pairs.now }
    ensures { IsBoundary upto text.now pairs.now result }
{
    if near <= pairs.len()
        && may_end(pairs, near, text, upto)
        && may_begin(pairs, near, text, upto)
    {
        near
    } else {
        pairs.partition_point(|pair| comes_before(pair, text, upto))
    }
}

/// Whether `comes_before` holds of the last pair below the place, if there is one.
fn may_end(pairs: &[(Vec<u8>, u32)], place: usize, text: &[u8], upto: bool) -> bool
    requires { place ≤ length pairs.now }
    ensures { IsTrue result → IsEnd upto text.now pairs.now place }
{
    place == 0 || comes_before(&pairs[place - 1], text, upto)
}

/// Whether `comes_before` does not hold of the pair at the place, if there is one.
fn may_begin(pairs: &[(Vec<u8>, u32)], place: usize, text: &[u8], upto: bool) -> bool
    requires { place ≤ length pairs.now }
    ensures { IsTrue result → IsBegin upto text.now pairs.now place }
{
    place == pairs.len() || !comes_before(&pairs[place], text, upto)
}

/// Whether the pair is before those of the text, or, up to these, not after them.
fn comes_before(pair: &(Vec<u8>, u32), text: &[u8], upto: bool) -> bool
    ensures { result ≡ comes_before upto text.now pair.now }
{
    let order = pair.0.as_slice().cmp(text);
    if upto { order.is_le() } else { order.is_lt() }
}

/// The rows of all pairs, in their order.
pub(crate) fn all_rows(lookup: &Lookup) -> &[u32]
    ensures { result.now ≡ map (λ p. p.1) lookup.now }
{
    &lookup.rows
}

/// For each row that has a text the first row that has it, at the row's place among so many.
pub(crate) fn first_rows(
    alloc: Global,
    lookup: &Lookup,
    count: usize,
) -> Result<Vec<u32>, AllocError>
    requires few { (text : List ℕ) (n : ℕ) → Contains (found lookup.now text) n → n < count }
    requires once { HasOneText lookup.now }
    ensures count { IfOk result (λ firsts. length firsts.items ≡ count) }
    ensures firsts { IfOk result (λ firsts. AreFirstWith lookup.now firsts.items) }
{
    let mut firsts = vec![in alloc; 0; count]?;
    let pairs = lookup.pairs.as_slice();
    let mut first = 0;
    for (place, pair) in pairs.iter().enumerate() {
        if pairs[first].0 != pair.0 {
            first = place;
        }
        firsts[pair.1 as usize] = pairs[first].1;
    }
    Ok(firsts)
}
