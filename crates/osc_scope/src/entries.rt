//! Scopes as bytes (RFC 9237): an array of pairs of a path and a set of methods.

ghost use Rattle.std.specs.Prelude.{◌≡◌, ◌⊎◌, List, IfOk, IfSome, IfNone, Ok, Err, option_map};
ghost use Rattle.std.specs.List.{All};
ghost use Rattle.osc_cbor.specs.{DataItem, array, text_string, unsigned, IsWhole, items_of};
ghost use Rattle.osc_scope.specs.Entries.{Entry, IsLawful, IsScope, scope_of, entry_items};
ghost use Rattle.osc_scope.specs.Reading.{entry_with, AreEntries};

use crate::error::ScopeError;
use crate::kept::Entries;
use crate::methods::{ALL_BITS, BELOW};
use crate::scope::Scope;
use osc_cbor::{ItemRef, ItemRefs};
use osc_model::Path;
use std::alloc::Global;

impl Scope {
    /// The scope that the bytes are, all of them: a CBOR array of arrays of two, the text of a path and the set of methods
    /// on it, as a number whose bits are 1 GET, 2 POST, 4 PUT and 8 DELETE, and 16 where they count on each path below it,
    /// too. Entries of one path are joined, apart with that bit and without it; no entries grant nothing.
    ///
    /// # Errors
    ///
    /// `BadScope` where the bytes are no scope: a text that is no path, or a set that has no method or another bit, too.
    /// `Memory` for lack of memory, where they are one CBOR item.
    pub fn from_cbor(alloc: Global, bytes: &[u8]) -> Result<Scope, ScopeError>
        // What is read is the scope of its entries ..
        ensures found { IfOk result (λ scope. (entries : List Entry) × IsScope bytes.now entries × (scope ≡ scope_of entries)) }
        // .. and each scope's bytes are read.
        ensures only { (entries : List Entry) → IsScope bytes.now entries
            → (result ≡ Ok (scope_of entries)) ⊎ (result ≡ Err ScopeError.Memory) }
        // Bytes that are no item take no memory.
        ensures needs_memory { result ≡ Err ScopeError.Memory → (item : DataItem) × IsWhole bytes.now item }
    {
        match ItemRef::whole(bytes) {
            Some(item) => scope_in(alloc, &item),
            None => Err(ScopeError::BadScope),
        }
    }
}

/// The scope of the entries that the item is an array of.
fn scope_in(alloc: Global, item: &ItemRef<'_>) -> Result<Scope, ScopeError>
    ensures found { IfOk result (λ scope. (entries : List Entry) × All IsLawful entries
        × (item.now ≡ array (entry_items entries)) × (scope ≡ scope_of entries)) }
    ensures bad { result ≡ Err ScopeError.BadScope
        → (entries : List Entry) → All IsLawful entries → ¬ (item.now ≡ array (entry_items entries)) }
{
    match item.as_array() {
        Some(items) => {
            let mut entries = entries(alloc, items)?;
            entries.shrink_to_fit();
            Ok(Scope::of_entries(entries))
        }
        None => Err(ScopeError::BadScope),
    }
}

/// The entries that the items are; each path's text is copied once.
fn entries(alloc: Global, items: ItemRefs<'_>) -> Result<Entries, ScopeError>
    ensures found { IfOk result (λ entries. AreEntries (items_of items.entry) entries) }
    ensures bad { result ≡ Err ScopeError.BadScope
        → (entries : List Entry) → All IsLawful entries → ¬ (items_of items.entry ≡ entry_items entries) }
{
    let mut entries = Entries::new(alloc);
    let mut left = items;
    while let Some((text, number)) = left.next_two() {
        let Some((text, mask)) = entry(&text, &number) else {
            return Err(ScopeError::BadScope);
        };
        entries.push(text, mask)?;
    }
    match left.next() {
        None => Ok(entries),
        Some(_) => Err(ScopeError::BadScope),
    }
}

/// The path's text and the set of methods of the entry that these two items are.
fn entry<'a>(text: &ItemRef<'a>, number: &ItemRef<'_>) -> Option<(&'a [u8], u64)>
    ensures lawful { IfSome result (λ found. IsLawful (entry_with (found.0.now, found.1))) }
    ensures found { IfSome result (λ found. (text.now ≡ text_string found.0.now) × (number.now ≡ unsigned found.1)) }
    ensures none { IfNone result ((entry : Entry) → IsLawful entry → text.now ≡ text_string entry.path → ¬ (number.now ≡ unsigned entry.mask)) }
{
    let path = text.as_text()?.as_bytes();
    let mask = number.as_unsigned()?;
    if mask % BELOW == 0 || mask > ALL_BITS {
        return None;
    }
    Path::is_text(path).then_some((path, mask))
}
