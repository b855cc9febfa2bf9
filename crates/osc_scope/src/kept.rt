//! Entries as a scope keeps them: in two blocks of memory, however many they are.

ghost use Rattle.std.specs.Prelude.{◌≡◌, ◌≤◌, [], ◌∷◌, ◌++◌, length, drop, OnOk, OnErr};
ghost use Rattle.std.specs.Iterator.{YieldsFirstBy, item_count};
ghost use Rattle.std.specs.List.{insert};
ghost use Rattle.osc_scope.specs.Inner.Kept.{AreInOrder, IsPlaceOf, is_before, pair_at};

use std::alloc::{AllocError, Global};
use std::marker::Model;

/// Where the text of an entry's path is among all texts, and its set of methods.
#[derive(Clone, Copy, Debug)]
struct EntryPlace {
    start: usize,
    end: usize,
    mask: u64,
}

/// Entries, each the text of a path and a set of methods. Contracts see these pairs.
#[derive(Debug, Drop)]
pub(crate) struct Entries {
    // One after the other.
    texts: Vec<u8>,
    places: Vec<EntryPlace>,
}

impl Model for Entries {
    ghost use Rattle.std.specs.Prelude.{List, ℕ, length};
    ghost use Rattle.std.specs.Coded.{coded_list, coded_ℕ, coded×};
    ghost use Rattle.std.specs.List.{All};
    ghost use Rattle.osc_scope.specs.Inner.Kept.{pairs_at, IsWithin};

    ghost Value = { List (List ℕ × ℕ) };

    ghost coded = { coded_list (coded× (coded_list coded_ℕ) coded_ℕ) };

    ghost view = { λ e. pairs_at e.texts.items e.places.items };

    ghost invariant = { λ e. All (IsWithin (length e.texts.items)) e.places.items };
}

impl Entries {
    /// No entries; takes no memory.
    pub(crate) fn new(alloc: Global) -> Self
        ensures { result ≡ [] }
    {
        Entries {
            texts: Vec::new(alloc),
            places: Vec::new(alloc),
        }
    }

    /// Adds an entry; the text is copied. Without memory for it all stays as it was.
    pub(crate) fn push(&mut self, text: &[u8], mask: u64) -> Result<(), AllocError>
        ensures ok { OnOk result (self.new ≡ self.old ++ (text.now, mask) ∷ []) }
        ensures err { OnErr result (self.new ≡ self.old) }
    {
        let start = self.texts.len();
        self.texts.extend_from_slice(text)?;
        let end = self.texts.len();
        self.places.push(EntryPlace { start, end, mask })?;
        Ok(())
    }

    /// Adds an entry at this place, before those from there on; the text is copied. Without memory for it all stays as it was.
    pub(crate) fn insert(&mut self, index: usize, text: &[u8], mask: u64) -> Result<(), AllocError>
        requires { index ≤ length self.old }
        ensures ok { OnOk result (self.new ≡ insert self.old index (text.now, mask)) }
        ensures err { OnErr result (self.new ≡ self.old) }
    {
        let start = self.texts.len();
        self.texts.extend_from_slice(text)?;
        let end = self.texts.len();
        self.places.insert(index, EntryPlace { start, end, mask })?;
        Ok(())
    }

    /// How many entries there are.
    pub(crate) fn len(&self) -> usize
        ensures { result ≡ length self.now }
    {
        self.places.len()
    }

    /// The place after the entries whose path is before this one, where all are in order; found by bisection.
    pub(crate) fn place_of(&self, path: &[u8]) -> usize
        requires { AreInOrder self.now }
        ensures { IsPlaceOf path.now self.now result }
    {
        let texts = self.texts.as_slice();
        self.places
            .partition_point(|place| is_before_at(texts, place, path))
    }

    /// Gives back the memory that no entry takes.
    pub(crate) fn shrink_to_fit(&mut self)
        ensures { self.new ≡ self.old }
    {
        self.texts.shrink_to_fit();
        self.places.shrink_to_fit();
    }

    /// The entries from this place on, lent.
    pub(crate) fn iter_from(&self, index: usize) -> EntryRefs<'_>
        requires { index ≤ length self.now }
        ensures { result ≡ drop index self.now }
    {
        let (_, left) = self.places.split_at(index);
        EntryRefs {
            texts: &self.texts,
            left,
        }
    }

    /// The entries in order, lent.
    pub(crate) fn iter(&self) -> EntryRefs<'_>
        ensures { result ≡ self.now }
    {
        EntryRefs {
            texts: &self.texts,
            left: &self.places,
        }
    }
}

/// The text that is at this place; none of it lies past the end.
fn text_at<'a>(texts: &'a [u8], place: &EntryPlace) -> &'a [u8]
    ensures { result.now ≡ (pair_at texts.now place.now).0 }
{
    let (_, text) = texts.split_at(place.start.min(texts.len()));
    let size = place.end.saturating_sub(place.start);
    &text[..size.min(text.len())]
}

/// Whether the text that is there is before this path.
fn is_before_at(texts: &[u8], place: &EntryPlace, path: &[u8]) -> bool
    ensures { result ≡ is_before path.now (pair_at texts.now place.now) }
{
    text_at(texts, place).cmp(path).is_lt()
}

/// The entries that are left, in order.
#[derive(Drop)]
pub(crate) struct EntryRefs<'a> {
    texts: &'a [u8],
    left: &'a [EntryPlace],
}

impl<'a> Model for EntryRefs<'a> {
    ghost use Rattle.std.specs.Prelude.{List, ℕ, length};
    ghost use Rattle.std.specs.Coded.{coded_list, coded_ℕ, coded×};
    ghost use Rattle.std.specs.List.{All};
    ghost use Rattle.osc_scope.specs.Inner.Kept.{pairs_at, IsWithin};

    ghost Value = { List (List ℕ × ℕ) };

    ghost coded = { coded_list (coded× (coded_list coded_ℕ) coded_ℕ) };

    ghost view = { λ e. pairs_at e.texts.now e.left.now };

    ghost invariant = { λ e. All (IsWithin (length e.texts.now)) e.left.now };
}

impl<'a> Iterator for EntryRefs<'a> {
    type Item = (&'a [u8], u64);

    ghost next_gives = { YieldsFirstBy (λ entry. (entry.0.now, entry.1)) (λ entries. entries) };

    ghost remaining = { item_count (λ entries. entries) };

    fn next(&mut self) -> Option<(&'a [u8], u64)> {
        let (first, rest) = self.left.split_first()?;
        self.left = rest;
        Some((&self.texts[first.start..first.end], first.mask))
    }
}
