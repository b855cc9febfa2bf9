//! One pass over the bytes of an item: where it ends, or its first fault. No memory is taken.
//!
//! The pass notes the shortest spelling of all that it goes by. So the spelling of each key is one part of it, and the keys of
//! a map are sorted and compared when the map ends, or when a fault in it ends the pass.

ghost use Rattle.std.specs.Prelude.{◌≡◌, ◌∷◌, ◌++◌, [], ℕ, suc, take, drop, IfSome, IfNone, Ok};
ghost use Rattle.arrayvec.specs.ArrayVec.{array_vec_len};
ghost use Rattle.osc_cbor.specs.Data.{no_items, no_pairs};
ghost use Rattle.osc_cbor.specs.Head as head_spec;
ghost use Rattle.osc_cbor.specs.Major.{major_number};
ghost use Rattle.osc_cbor.specs.Inner.Notes.{Grows, Passes, PassesBehind, PassesPairs, pieces};
ghost use Rattle.osc_cbor.specs.Reading.{string_at, text_at, simple_at, items_from, pairs_from, content_at, item_at};
ghost use Rattle.osc_cbor.specs.Spelling.{spelling, items_spelling, pairs_spelling};

use crate::error::ReadError;
use crate::heads::Major;
use crate::keys::{KeyOrder, Keys, Spelled, Stop, judge, note, note_head, note_key};
use crate::reader::{argument_of, major_of, string_of, text_of};

/// Passes `size` bytes.
fn pass_bytes<'a>(size: u64, bytes: &'a [u8], spelled: &mut Spelled) -> Result<&'a [u8], Stop>
    ensures passed { Passes (λ content. content) (λ x. x.now) spelled.old.items spelled.new.items result (string_at size bytes.now) }
    ensures grown { Grows spelled.old.items spelled.new.items }
{
    match string_of(size, bytes) {
        Ok((content, rest)) => {
            note(content, spelled)?;
            Ok(rest)
        }
        Err(fault) => Err(Stop::Fault(fault)),
    }
}

/// Passes `size` bytes of text.
fn pass_text<'a>(size: u64, bytes: &'a [u8], spelled: &mut Spelled) -> Result<&'a [u8], Stop>
    ensures passed { Passes (λ content. content) (λ x. x.now) spelled.old.items spelled.new.items result (text_at size bytes.now) }
    ensures grown { Grows spelled.old.items spelled.new.items }
{
    match text_of(size, bytes) {
        Ok((content, rest)) => {
            note(content.as_bytes(), spelled)?;
            Ok(rest)
        }
        Err(fault) => Err(Stop::Fault(fault)),
    }
}

/// Passes false, true or null.
fn pass_simple<'a>(bits: u8, bytes: &'a [u8], spelled: &mut Spelled) -> Result<&'a [u8], Stop>
    ensures passed { Passes spelling (λ x. x.now) spelled.old.items spelled.new.items result (simple_at bits bytes.now) }
    ensures grown { Grows spelled.old.items spelled.new.items }
{
    if bits != 20 && bits != 21 && bits != 22 {
        return Err(Stop::Fault(ReadError::Unsupported));
    }
    note(&[224 + bits], spelled)?;
    Ok(bytes)
}

/// Passes a number that begins with this byte, where its head is the shortest, takes at most two bytes, and there is room for it.
fn pass_number<'a>(first: u8, rest: &'a [u8], spelled: &mut Spelled) -> Option<&'a [u8]>
    ensures passed { (left : ℕ) → IfSome result (λ after. Passes spelling (λ x. x.now) spelled.old.items spelled.new.items (Ok after) (item_at (suc left) (first ∷ rest.now))) }
    ensures none { IfNone result (spelled.new.items ≡ spelled.old.items) }
{
    if first >= 64 {
        return None;
    }
    if first % 32 < 24 {
        return match spelled.try_push(first) {
            Ok(()) => Some(rest),
            Err(_) => None,
        };
    }
    let (argument, after) = rest.split_first()?;
    if first % 32 > 24 || *argument < 24 {
        return None;
    }
    match spelled.try_extend_from_slice(&[first, *argument]) {
        Ok(()) => Some(after),
        Err(_) => None,
    }
}

/// Passes `count` items.
#[cycle(pass)]
fn pass_items<'a, const MOST: usize>(
    left: u8,
    count: u64,
    bytes: &'a [u8],
    spelled: &mut Spelled,
    keys: &mut Keys<MOST>,
) -> Result<&'a [u8], Stop>
    ensures passed { Passes items_spelling (λ x. x.now) spelled.old.items spelled.new.items result (items_from (item_at left) no_items count bytes.now) }
    ensures grown { Grows spelled.old.items spelled.new.items }
    ensures keys { keys.new.items ≡ keys.old.items }
{
    let mut rest = bytes;
    for _ in 0..count {
        rest = pass(left, rest, spelled, keys)?;
    }
    Ok(rest)
}

/// Passes `count` keys, each with its value, and notes the keys. They aren't compared.
#[cycle(pass)]
fn pass_each_pair<'a, const MOST: usize>(
    left: u8,
    count: u64,
    bytes: &'a [u8],
    spelled: &mut Spelled,
    keys: &mut Keys<MOST>,
) -> Result<&'a [u8], Stop>
    ensures passed { PassesPairs (pieces spelled.new.items (drop (array_vec_len keys.old) keys.new.items)) (λ x. x.now) spelled.old.items spelled.new.items result (pairs_from (item_at left) no_pairs count bytes.now) }
    ensures grown { Grows spelled.old.items spelled.new.items }
    ensures keys { take (array_vec_len keys.old) keys.new.items ≡ keys.old.items }
{
    let mut rest = bytes;
    for _ in 0..count {
        let start = spelled.len();
        let behind_key = pass(left, rest, spelled, keys)?;
        note_key(start, spelled.as_slice(), keys)?;
        rest = pass(left, behind_key, spelled, keys)?;
    }
    Ok(rest)
}

/// Passes `count` keys, each with its value. No key comes twice.
#[cycle(pass)]
fn pass_pairs<'a, const MOST: usize>(
    left: u8,
    count: u64,
    bytes: &'a [u8],
    spelled: &mut Spelled,
    keys: &mut Keys<MOST>,
) -> Result<&'a [u8], Stop>
    ensures passed { Passes pairs_spelling (λ x. x.now) spelled.old.items spelled.new.items result (pairs_from (item_at left) no_pairs count bytes.now) }
    ensures grown { Grows spelled.old.items spelled.new.items }
    ensures keys { keys.new.items ≡ keys.old.items }
{
    let first = keys.len();
    let end = pass_each_pair(left, count, bytes, spelled, keys);
    match judge(first, spelled.as_slice(), keys) {
        KeyOrder::Apart => end,
        KeyOrder::Repeated => Err(Stop::Fault(ReadError::DuplicateKey)),
        KeyOrder::Unordered => Err(Stop::Unsure),
    }
}

/// Passes what follows a head. Items inside have `left` levels left.
#[cycle(pass)]
#[tactic(auto, unfolding(crate::specs::Reading::content_at))]
fn pass_content<'a, const MOST: usize>(
    left: u8,
    major: Major,
    argument: u64,
    bytes: &'a [u8],
    spelled: &mut Spelled,
    keys: &mut Keys<MOST>,
) -> Result<&'a [u8], Stop>
    ensures passed { PassesBehind (head_spec.head (major_number major) argument) (λ x. x.now) spelled.old.items spelled.new.items result (content_at (item_at left) major argument bytes.now) }
    ensures grown { Grows spelled.old.items spelled.new.items }
    ensures keys { keys.new.items ≡ keys.old.items }
{
    match major {
        Major::Unsigned => Ok(bytes),
        Major::Negative => Ok(bytes),
        Major::Bytes => pass_bytes(argument, bytes, spelled),
        Major::Text => pass_text(argument, bytes, spelled),
        Major::Array => pass_items(left, argument, bytes, spelled, keys),
        Major::Map => pass_pairs(left, argument, bytes, spelled, keys),
        Major::Tag => pass(left, bytes, spelled, keys),
    }
}

/// Passes the item that begins with this byte. Items inside have `left` levels left.
#[inline(never)]
#[cycle(pass)]
#[tactic(auto, unfolding(crate::specs::Reading::item_at))]
fn pass_behind<'a, const MOST: usize>(
    left: u8,
    first: u8,
    rest: &'a [u8],
    spelled: &mut Spelled,
    keys: &mut Keys<MOST>,
) -> Result<&'a [u8], Stop>
    ensures passed { Passes spelling (λ x. x.now) spelled.old.items spelled.new.items result (item_at (suc left) (first ∷ rest.now)) }
    ensures grown { Grows spelled.old.items spelled.new.items }
    ensures keys { keys.new.items ≡ keys.old.items }
{
    let Some(major) = major_of(first / 32) else {
        return pass_simple(first % 32, rest, spelled);
    };
    match argument_of(first % 32, rest) {
        Ok((argument, rest)) => {
            note_head(major, argument, spelled)?;
            pass_content(left, major, argument, rest, spelled, keys)
        }
        Err(fault) => Err(Stop::Fault(fault)),
    }
}

/// Passes the item at the beginning of the bytes, with `left` levels left. Numbers are passed in place.
#[inline(always)]
#[cycle(pass)]
#[tactic(auto, unfolding(crate::specs::Reading::item_at))]
pub(crate) fn pass<'a, const MOST: usize>(
    left: u8,
    bytes: &'a [u8],
    spelled: &mut Spelled,
    keys: &mut Keys<MOST>,
) -> Result<&'a [u8], Stop>
    ensures passed { Passes spelling (λ x. x.now) spelled.old.items spelled.new.items result (item_at left bytes.now) }
    ensures grown { Grows spelled.old.items spelled.new.items }
    ensures keys { keys.new.items ≡ keys.old.items }
{
    let Some((first, rest)) = bytes.split_first() else {
        return Err(Stop::Fault(ReadError::Truncated));
    };
    if left == 0 {
        return Err(Stop::Fault(ReadError::TooDeep));
    }
    if let Some(rest) = pass_number(*first, rest, spelled) {
        return Ok(rest);
    }
    pass_behind(left - 1, *first, rest, spelled, keys)
}
