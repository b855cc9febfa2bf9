//! Reading items.

ghost use Rattle.std.specs.Int.{w8, w16, w32, w64};
ghost use Rattle.std.specs.Prelude.{◌≡◌, ◌≢◌, ◌↔◌, ◌≤◌, List, ℕ, ◌++◌, length, IfOk, Err};
ghost use Rattle.osc_cbor.specs.Data.{DataItem, nesting, most_nesting, no_items, no_pairs};
ghost use Rattle.osc_cbor.specs.Spelling.{Spells, Begins};
ghost use Rattle.osc_cbor.specs.Faults.{Fails};
ghost use Rattle.osc_cbor.specs.Errors.{GivesItem};
ghost use Rattle.osc_cbor.specs.Reading as spec;
ghost use Rattle.osc_cbor.specs.Reading.{Gives, Reads, number_at, argument_at, simple_at, string_at, text_at, items_from, any_pairs_from, any_content_at, any_item_at};
ghost use Rattle.osc_cbor.specs.View.{view, items_view, pairs_view};
ghost use Rattle.osc_cbor.specs.declared.error.ReadError.{ReadError as AnyError};

use crate::error::ReadError;
use crate::extents::behind_first;
use crate::heads::Major;
use crate::item::Item;
use std::alloc::Global;

/// How many levels there are: an item is in at most 8 arrays, maps and tags.
pub(crate) const MOST_LEVELS: u8 = 9;

fn one_byte_at(bytes: &[u8]) -> Result<(u64, &[u8]), ReadError>
    ensures { Reads (λ x. (x.0, x.1.now)) result (number_at w8 bytes.now) }
{
    let [first, rest @ ..] = bytes else {
        return Err(ReadError::Truncated);
    };
    Ok((*first as u64, rest))
}

fn two_bytes_at(bytes: &[u8]) -> Result<(u64, &[u8]), ReadError>
    ensures { Reads (λ x. (x.0, x.1.now)) result (number_at w16 bytes.now) }
{
    if bytes.len() < 2 {
        return Err(ReadError::Truncated);
    }
    let (front, rest) = bytes.split_at(2);
    let number = u16::from_be_bytes([front[0], front[1]]);
    Ok((number as u64, rest))
}

fn four_bytes_at(bytes: &[u8]) -> Result<(u64, &[u8]), ReadError>
    ensures { Reads (λ x. (x.0, x.1.now)) result (number_at w32 bytes.now) }
{
    if bytes.len() < 4 {
        return Err(ReadError::Truncated);
    }
    let (front, rest) = bytes.split_at(4);
    let number = u32::from_be_bytes([front[0], front[1], front[2], front[3]]);
    Ok((number as u64, rest))
}

fn eight_bytes_at(bytes: &[u8]) -> Result<(u64, &[u8]), ReadError>
    ensures { Reads (λ x. (x.0, x.1.now)) result (number_at w64 bytes.now) }
{
    if bytes.len() < 8 {
        return Err(ReadError::Truncated);
    }
    let (front, rest) = bytes.split_at(8);
    let number = u64::from_be_bytes([
        front[0], front[1], front[2], front[3], front[4], front[5], front[6], front[7],
    ]);
    Ok((number, rest))
}

/// The argument that the low five bits of a first byte stand for, and the bytes after it.
#[tactic(auto, unfolding(crate::specs::Reading::argument_at))]
pub(crate) fn argument_of(bits: u8, bytes: &[u8]) -> Result<(u64, &[u8]), ReadError>
    ensures { Reads (λ x. (x.0, x.1.now)) result (argument_at bits bytes.now) }
{
    match bits {
        0..=23 => Ok((bits as u64, bytes)),
        24 => one_byte_at(bytes),
        25 => two_bytes_at(bytes),
        26 => four_bytes_at(bytes),
        27 => eight_bytes_at(bytes),
        _ => Err(ReadError::Unsupported),
    }
}

/// The major type that the high three bits of a first byte stand for; 7 is that of simple values.
pub(crate) fn major_of(bits: u8) -> Option<Major>
    ensures { result ≡ spec.major_of bits }
{
    match bits {
        0 => Some(Major::Unsigned),
        1 => Some(Major::Negative),
        2 => Some(Major::Bytes),
        3 => Some(Major::Text),
        4 => Some(Major::Array),
        5 => Some(Major::Map),
        6 => Some(Major::Tag),
        _ => None,
    }
}

/// False, true or null.
#[tactic(auto, unfolding(crate::specs::Reading::simple_at))]
pub(crate) fn simple_of(bits: u8, bytes: &[u8]) -> Result<(Item, &[u8]), ReadError>
    ensures { Reads (λ x. (view x.0, x.1.now)) result (simple_at bits bytes.now) }
{
    match bits {
        20 => Ok((Item::Bool(false), bytes)),
        21 => Ok((Item::Bool(true), bytes)),
        22 => Ok((Item::Null, bytes)),
        _ => Err(ReadError::Unsupported),
    }
}

/// The first `size` bytes, and those after them.
#[tactic(auto, unfolding(crate::specs::Reading::string_at))]
pub(crate) fn string_of(size: u64, bytes: &[u8]) -> Result<(&[u8], &[u8]), ReadError>
    ensures { Reads (λ x. (x.0.now, x.1.now)) result (string_at size bytes.now) }
{
    if (bytes.len() as u64) < size {
        return Err(ReadError::Truncated);
    }
    Ok(bytes.split_at(size as usize))
}

/// The first `size` bytes as text, and those after them.
#[tactic(auto, unfolding(crate::specs::Reading::text_at))]
pub(crate) fn text_of(size: u64, bytes: &[u8]) -> Result<(&str, &[u8]), ReadError>
    ensures { Reads (λ x. (x.0.now, x.1.now)) result (text_at size bytes.now) }
{
    let (content, rest) = string_of(size, bytes)?;
    match std::str::from_utf8(content) {
        Ok(text) => Ok((text, rest)),
        Err(_) => Err(ReadError::Unsupported),
    }
}

/// The first `count` items, each with `left` levels left.
#[cycle(read)]
fn items_of(
    alloc: Global,
    left: u8,
    count: u64,
    bytes: &[u8],
) -> Result<(Vec<Item>, &[u8]), ReadError>
    ensures { Gives (λ x. (items_view x.0.items, x.1.now)) result (items_from (any_item_at left) no_items count bytes.now) }
{
    // Each takes a byte at least.
    let mut items = Vec::with_capacity(alloc, count.min(bytes.len() as u64) as usize)?;
    let mut rest = bytes;
    for _ in 0..count {
        let (item, after) = item_of(alloc, left, rest)?;
        items.push(item)?;
        rest = after;
    }
    Ok((items, rest))
}

/// The first `count` keys, each with its value.
#[cycle(read)]
fn pairs_of(
    alloc: Global,
    left: u8,
    count: u64,
    bytes: &[u8],
) -> Result<(Vec<(Item, Item)>, &[u8]), ReadError>
    ensures { Gives (λ x. (pairs_view x.0.items, x.1.now)) result (any_pairs_from (any_item_at left) no_pairs count bytes.now) }
{
    // Each takes two bytes at least.
    let mut pairs = Vec::with_capacity(alloc, count.min(bytes.len() as u64 / 2) as usize)?;
    let mut rest = bytes;
    for _ in 0..count {
        let (key, behind_key) = item_of(alloc, left, rest)?;
        let (value, after) = item_of(alloc, left, behind_key)?;
        pairs.push((key, value))?;
        rest = after;
    }
    Ok((pairs, rest))
}

/// What follows a head. Items inside have `left` levels left.
#[cycle(read)]
#[tactic(auto, unfolding(crate::specs::Reading::any_content_at))]
fn content_of(
    alloc: Global,
    left: u8,
    major: Major,
    argument: u64,
    bytes: &[u8],
) -> Result<(Item, &[u8]), ReadError>
    ensures { Gives (λ x. (view x.0, x.1.now)) result (any_content_at (any_item_at left) major argument bytes.now) }
{
    match major {
        Major::Unsigned => Ok((Item::Unsigned(argument), bytes)),
        Major::Negative => Ok((Item::Negative(argument), bytes)),
        Major::Bytes => {
            let (content, rest) = string_of(argument, bytes)?;
            Ok((Item::Bytes(Vec::from_slice(alloc, content)?), rest))
        }
        Major::Text => {
            let (content, rest) = text_of(argument, bytes)?;
            Ok((Item::Text(String::from_str(alloc, content)?), rest))
        }
        Major::Array => {
            let (items, rest) = items_of(alloc, left, argument, bytes)?;
            Ok((Item::Array(items), rest))
        }
        Major::Map => {
            let (pairs, rest) = pairs_of(alloc, left, argument, bytes)?;
            Ok((Item::Map(pairs), rest))
        }
        Major::Tag => {
            let (inner, rest) = item_of(alloc, left, bytes)?;
            Ok((Item::Tag(argument, Box::new(alloc, inner)?), rest))
        }
    }
}

/// The item at the beginning of the bytes, with `left` levels left, and the bytes after it. The keys of maps aren't compared.
#[cycle(read)]
#[tactic(auto, unfolding(crate::specs::Reading::any_item_at))]
pub(crate) fn item_of(alloc: Global, left: u8, bytes: &[u8]) -> Result<(Item, &[u8]), ReadError>
    ensures { Gives (λ x. (view x.0, x.1.now)) result (any_item_at left bytes.now) }
{
    let Some((first, rest)) = bytes.split_first() else {
        return Err(ReadError::Truncated);
    };
    if left == 0 {
        return Err(ReadError::TooDeep);
    }
    match major_of(*first / 32) {
        None => simple_of(*first % 32, rest),
        Some(major) => {
            let (argument, rest) = argument_of(*first % 32, rest)?;
            content_of(alloc, left - 1, major, argument, rest)
        }
    }
}

/// Reads the item at the beginning of the bytes, and answers it with the number of bytes that it takes. Bytes may follow.
///
/// Its end is found first, so that nothing is allocated for bytes that are no item. The item holds at most 192 bytes of
/// memory for each byte that it takes, whatever lengths its heads claim. The time is near linear, as that of [`crate::extent`]:
/// the bytes, and sorting each map's keys.
///
/// # Errors
///
/// The first fault in the order of the bytes. `Memory` only where an item is there.
pub fn read(alloc: Global, bytes: &[u8]) -> Result<(Item, usize), ReadError>
    // What is read is spelled so.
    ensures found { IfOk result (λ found. Begins bytes.now (view found.0) found.1) }
    // What is spelled so is read, whatever follows.
    ensures only { (d : DataItem) (front rest : List ℕ)
        → Spells front d → nesting d ≤ most_nesting → bytes.now ≡ front ++ rest → GivesItem result d (length front) }
    // A fault is the first one, and the first one is answered ..
    ensures fault { (fault : AnyError) → fault ≢ AnyError.Memory → ((result ≡ Err fault) ↔ Fails 9 bytes.now fault) }
    // .. for lack of memory too: that is told only where an item is.
    ensures memory { result ≡ Err ReadError.Memory → (d : DataItem) × (count : ℕ) × Begins bytes.now d count }
{
    behind_first(bytes)?;
    let (item, rest) = item_of(alloc, MOST_LEVELS, bytes)?;
    Ok((item, bytes.len() - rest.len()))
}
