//! Scopes as text, as people write them: `/log:GET+POST,/t:GET+SUB`.

ghost use Rattle.std.specs.Prelude.{◌≡◌, ◌≢◌, ◌⊎◌, [], ◌∷◌, ◌++◌, ◌==◌, List, map, IfOk, IfSome, IfNone, OnOk, OnErr, Ok, Err, MatchOption, string_bytes};
ghost use Rattle.std.specs.List.{All, slice_split};
ghost use Rattle.osc_cbor.specs.{array, spelling, view, items_view};
ghost use Rattle.osc_model.specs.{IsPath};
ghost use Rattle.osc_model.specs.declared.code.Method.{Method as AnyMethod};
ghost use Rattle.osc_scope.specs.Entries.{entry_item, entry_items};
ghost use Rattle.osc_scope.specs.Text.{Written, IsScopeText, AreApart, name_of, words_of, entry_text, entry_of};
ghost use Rattle.osc_scope.specs.Reading.{IsEntry, Says, Names, Words};

use crate::error::ScopeError;
use crate::methods::{BELOW, bit_of, has};
use osc_cbor::{Item, write};
use osc_model::{Method, Path};
use std::alloc::Global;
use std::str;

/// Appends the bytes of the scope that the text says: one or more entries parted by `,`, each the text of a path without
/// `:` and `,`, then `:`, then one or more of the methods `GET`, `POST`, `PUT` and `DELETE` parted by `+`, none twice, and
/// a last `+SUB` where they count on each path below, too. Each entry is written in its place, a path that is named twice too.
///
/// # Errors
///
/// `BadScope` where the text says none; all stays as it was then, and for lack of memory.
pub fn text_to_cbor(alloc: Global, text: &[u8], out: &mut Vec<u8>) -> Result<(), ScopeError>
    // What is written is what the text says ..
    ensures ok { OnOk result ((entries : List Written) × IsScopeText text.now entries
        × (out.new.items ≡ out.old.items ++ spelling (array (entry_items (map entry_of entries))))) }
    // .. and what a text says is written.
    ensures only { (entries : List Written) → IsScopeText text.now entries
        → (result ≡ Err ScopeError.Memory)
        ⊎ ((result ≡ Ok tt) × (out.new.items ≡ out.old.items ++ spelling (array (entry_items (map entry_of entries))))) }
    ensures err { OnErr result (out.new.items ≡ out.old.items) }
{
    let entries = entries(alloc, text)?;
    write(&Item::Array(entries), out)?;
    Ok(())
}

/// The items of the entries that the text says.
fn entries(alloc: Global, text: &[u8]) -> Result<Vec<Item>, ScopeError>
    ensures found { IfOk result (λ items. Says (slice_split (λ byte. byte == 44) text.now) (items_view items.items)) }
    ensures bad { result ≡ Err ScopeError.BadScope
        → (entries : List Written) → All IsEntry entries → ¬ (slice_split (λ byte. byte == 44) text.now ≡ map entry_text entries) }
{
    let mut items = Vec::new(alloc);
    for part in text.split(|byte| *byte == b',') {
        items.push(entry(alloc, part)?)?;
    }
    Ok(items)
}

/// The item of the entry that the text says.
fn entry(alloc: Global, text: &[u8]) -> Result<Item, ScopeError>
    ensures found { IfOk result (λ item. (entry : Written) × IsEntry entry × (text.now ≡ entry_text entry) × (view item ≡ entry_item (entry_of entry))) }
    ensures bad { result ≡ Err ScopeError.BadScope
        → (entry : Written) → IsEntry entry → ¬ (text.now ≡ entry_text entry) }
{
    let Some((path, words)) = cut(text) else {
        return Err(ScopeError::BadScope);
    };
    let Some(mask) = mask(words) else {
        return Err(ScopeError::BadScope);
    };
    let path = path_text(alloc, path)?;
    Ok(Item::Array(vec![in alloc; Item::Text(path), Item::Unsigned(mask)]?))
}

/// What is before the first `:`, and what follows it.
fn cut(text: &[u8]) -> Option<(&[u8], &[u8])>
    ensures { MatchOption result
        (All (λ byte. byte ≢ 58) text.now)
        (λ cut. All (λ byte. byte ≢ 58) cut.0.now × (text.now ≡ cut.0.now ++ 58 ∷ cut.1.now)) }
{
    let colon = text.iter().position(|byte| *byte == b':')?;
    Some((&text[..colon], &text[colon + 1..]))
}

/// The path, where the text is that of one.
fn path_text(alloc: Global, text: &[u8]) -> Result<String, ScopeError>
    ensures found { IfOk result (λ path. string_bytes path ≡ text.now) }
    ensures path { IfOk result (λ path. IsPath text.now) }
    ensures bad { result ≡ Err ScopeError.BadScope → ¬ IsPath text.now }
{
    if !Path::is_text(text) {
        return Err(ScopeError::BadScope);
    }
    match str::from_utf8(text) {
        Ok(path) => Ok(String::from_str(alloc, path)?),
        Err(_) => Err(ScopeError::BadScope),
    }
}

/// The set that the words say: methods, none twice, on the path alone or, where `SUB` is the last, on those below, too.
fn mask(words: &[u8]) -> Option<u64>
    ensures found { IfSome result (λ mask. Words (slice_split (λ byte. byte == 43) words.now) mask) }
    ensures none { IfNone result ((entry : Written) → entry.methods ≢ [] → AreApart entry.methods
        → ¬ (slice_split (λ byte. byte == 43) words.now ≡ words_of entry)) }
{
    match words.strip_suffix(b"+SUB".as_slice()) {
        Some(names) => Some(methods(names)? + BELOW),
        None => methods(words),
    }
}

/// The set of the methods that are named, none twice.
fn methods(names: &[u8]) -> Option<u64>
    ensures found { IfSome result (λ mask. Names (slice_split (λ byte. byte == 43) names.now) mask) }
    ensures none { IfNone result ((methods : List AnyMethod) → AreApart methods
        → ¬ (slice_split (λ byte. byte == 43) names.now ≡ map name_of methods)) }
{
    let mut mask = 0;
    for name in names.split(|byte| *byte == b'+') {
        let method = named(name)?;
        if has(mask, method) {
            return None;
        }
        mask += bit_of(method);
    }
    Some(mask)
}

/// The method of this name.
fn named(name: &[u8]) -> Option<Method>
    ensures { MatchOption result ((method : AnyMethod) → name.now ≢ name_of method) (λ method. name.now ≡ name_of method) }
{
    if name == b"GET".as_slice() {
        Some(Method::Get)
    } else if name == b"POST".as_slice() {
        Some(Method::Post)
    } else if name == b"PUT".as_slice() {
        Some(Method::Put)
    } else if name == b"DELETE".as_slice() {
        Some(Method::Delete)
    } else {
        None
    }
}
