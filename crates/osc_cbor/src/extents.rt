//! Where items end, and the first fault where there is no item. No memory is taken.

ghost use Rattle.std.specs.Prelude.{◌≡◌, ◌↔◌, ◌≤◌, ◌++◌, List, ℕ, length, IfOk, Ok, Err};
ghost use Rattle.osc_cbor.specs.Data.{DataItem, nesting, most_nesting, no_items, no_pairs};
ghost use Rattle.osc_cbor.specs.Inner.Ends.{Ends};
ghost use Rattle.osc_cbor.specs.Faults.{Fails};
ghost use Rattle.osc_cbor.specs.Reading.{string_at, text_at, simple_at, items_from, pairs_from, content_at, item_at};
ghost use Rattle.osc_cbor.specs.Spelling.{Spells, Begins};
ghost use Rattle.osc_cbor.specs.declared.error.ReadError.{ReadError as AnyError};

use crate::error::ReadError;
use crate::heads::Major;
use crate::keys::{FEW_KEYS, KEYS_LIMIT, Keys, Stop};
use crate::pass::pass;
use crate::reader::{MOST_LEVELS, argument_of, major_of, simple_of, string_of, text_of};
use crate::tokens::{has_spelled_key, taken};
use arrayvec::ArrayVec;

/// The bytes after `count` items, each with `left` levels left.
#[cycle(extent)]
fn behind_items(left: u8, count: u64, bytes: &[u8]) -> Result<&[u8], ReadError>
    ensures { Ends (λ x. x.now) result (items_from (item_at left) no_items count bytes.now) }
{
    let mut rest = bytes;
    for _ in 0..count {
        rest = behind(left, rest)?;
    }
    Ok(rest)
}

/// The bytes after `count` keys, each with its value. No key comes twice.
#[cycle(extent)]
fn behind_pairs(left: u8, count: u64, bytes: &[u8]) -> Result<&[u8], ReadError>
    ensures { Ends (λ x. x.now) result (pairs_from (item_at left) no_pairs count bytes.now) }
{
    let mut rest = bytes;
    for index in 0..count {
        let behind_key = behind(left, rest)?;
        if has_spelled_key(taken(rest, behind_key), index, bytes) {
            return Err(ReadError::DuplicateKey);
        }
        rest = behind(left, behind_key)?;
    }
    Ok(rest)
}

/// The bytes after the first `size`.
fn behind_bytes(size: u64, bytes: &[u8]) -> Result<&[u8], ReadError>
    ensures { Ends (λ x. x.now) result (string_at size bytes.now) }
{
    let (_, rest) = string_of(size, bytes)?;
    Ok(rest)
}

/// The bytes after `size` bytes of text.
fn behind_text(size: u64, bytes: &[u8]) -> Result<&[u8], ReadError>
    ensures { Ends (λ x. x.now) result (text_at size bytes.now) }
{
    let (_, rest) = text_of(size, bytes)?;
    Ok(rest)
}

/// The bytes after false, true or null.
fn behind_simple(bits: u8, bytes: &[u8]) -> Result<&[u8], ReadError>
    ensures { Ends (λ x. x.now) result (simple_at bits bytes.now) }
{
    let (_, rest) = simple_of(bits, bytes)?;
    Ok(rest)
}

/// The bytes after what follows a head. Items inside have `left` levels left.
#[cycle(extent)]
#[tactic(auto, unfolding(crate::specs::Reading::content_at))]
fn behind_content(left: u8, major: Major, argument: u64, bytes: &[u8]) -> Result<&[u8], ReadError>
    ensures { Ends (λ x. x.now) result (content_at (item_at left) major argument bytes.now) }
{
    match major {
        Major::Unsigned => Ok(bytes),
        Major::Negative => Ok(bytes),
        Major::Bytes => behind_bytes(argument, bytes),
        Major::Text => behind_text(argument, bytes),
        Major::Array => behind_items(left, argument, bytes),
        Major::Map => behind_pairs(left, argument, bytes),
        Major::Tag => behind(left, bytes),
    }
}

/// The bytes after the item at their beginning, with `left` levels left.
#[cycle(extent)]
#[tactic(auto, unfolding(crate::specs::Reading::item_at))]
fn behind(left: u8, bytes: &[u8]) -> Result<&[u8], ReadError>
    ensures { Ends (λ x. x.now) result (item_at left bytes.now) }
{
    let Some((first, rest)) = bytes.split_first() else {
        return Err(ReadError::Truncated);
    };
    if left == 0 {
        return Err(ReadError::TooDeep);
    }
    match major_of(*first / 32) {
        None => behind_simple(*first % 32, rest),
        Some(major) => {
            let (argument, rest) = argument_of(*first % 32, rest)?;
            behind_content(left - 1, major, argument, rest)
        }
    }
}

/// The bytes after the item at their beginning, with all levels left.
///
/// One pass finds them, with room for the keys of most items; where there are more keys, another one.
pub(crate) fn behind_first(bytes: &[u8]) -> Result<&[u8], ReadError>
    ensures { Ends (λ x. x.now) result (item_at 9 bytes.now) }
{
    let mut spelled = ArrayVec::new();
    let mut keys: Keys<FEW_KEYS> = ArrayVec::new();
    match pass(MOST_LEVELS, bytes, &mut spelled, &mut keys) {
        Ok(rest) => Ok(rest),
        Err(Stop::Fault(fault)) => Err(fault),
        Err(Stop::Unsure) => behind_many(bytes),
    }
}

/// The same with room for the keys of a datagram. Where this can't tell, of items longer than a datagram, each key of a map is compared with
/// those before it.
#[inline(never)]
fn behind_many(bytes: &[u8]) -> Result<&[u8], ReadError>
    ensures { Ends (λ x. x.now) result (item_at 9 bytes.now) }
{
    let mut spelled = ArrayVec::new();
    let mut keys: Keys<KEYS_LIMIT> = ArrayVec::new();
    match pass(MOST_LEVELS, bytes, &mut spelled, &mut keys) {
        Ok(rest) => Ok(rest),
        Err(Stop::Fault(fault)) => Err(fault),
        Err(Stop::Unsure) => behind(MOST_LEVELS, bytes),
    }
}

/// How many bytes the item at the beginning of the bytes takes; none of it is kept. The time is near linear: the bytes, and sorting
/// each map's keys. Of items of more than 1,152 bytes each key of a map is compared with those before it.
///
/// # Errors
///
/// The first fault in the order of the bytes.
pub fn extent(bytes: &[u8]) -> Result<usize, ReadError>
    // Where an item ends, one begins ..
    ensures found { IfOk result (λ count. (d : DataItem) × Begins bytes.now d count) }
    // .. and what is spelled so has this end, whatever follows.
    ensures only { (d : DataItem) (front rest : List ℕ)
        → Spells front d → nesting d ≤ most_nesting → bytes.now ≡ front ++ rest → result ≡ Ok (length front) }
    // A fault is the first one, and the first one is answered.
    ensures fault { (fault : AnyError) → (result ≡ Err fault) ↔ Fails 9 bytes.now fault }
{
    let rest = behind_first(bytes)?;
    Ok(bytes.len() - rest.len())
}
