//! Items skipped and compared in their bytes, by their heads and strings. No memory is taken.

ghost use Rattle.std.specs.Prelude.{◌≡◌, ◌⊎◌, ◌↔◌, ◌^◌, ◌/◌, ◌%◌, ◌<◌, ◌-◌, ◌∷◌, ◌++◌, [], List, ℕ, length, min, IsTrue, IfSome, Ok};
ghost use Rattle.osc_cbor.specs.Data.{DataItem, Pairs, pair_count, map as spelled_map};
ghost use Rattle.osc_cbor.specs.Reading.{Reads};
ghost use Rattle.osc_cbor.specs.Same as equality;
ghost use Rattle.osc_cbor.specs.Spelling.{Spells, SpellsPairs};
ghost use Rattle.osc_cbor.specs.Inner.Tokens as spec;
ghost use Rattle.osc_cbor.specs.Inner.Tokens.{token_at, token_behind};

use crate::error::ReadError;
use crate::heads::Major;
use crate::reader::{argument_of, string_of};

/// A head with the string after it: major type, argument and string. Of a simple value the argument is its five bits.
pub(crate) type Token<'a> = (u8, u64, &'a [u8]);

/// What follows a head.
#[tactic(auto, unfolding(crate::specs::Inner::Tokens::token_behind))]
fn behind_head(major: u8, argument: u64, bytes: &[u8]) -> Result<(Token, &[u8]), ReadError>
    ensures { Reads (λ x. ((x.0.0, x.0.1, x.0.2.now), x.1.now)) result (token_behind major argument bytes.now) }
{
    if major == 2 || major == 3 {
        let (content, rest) = string_of(argument, bytes)?;
        return Ok(((major, argument, content), rest));
    }
    Ok(((major, argument, &[]), bytes))
}

/// The string whose head is this byte alone, and the bytes after it.
#[inline(always)]
#[tactic(auto, unfolding(crate::specs::Inner::Tokens::token_at, crate::specs::Inner::Tokens::token_behind, crate::specs::Reading::argument_at, crate::specs::Reading::string_at))]
fn short_string_of(first: u8, rest: &[u8]) -> Option<(&[u8], &[u8])>
    requires string { (first / 32 ≡ 2) ⊎ (first / 32 ≡ 3) }
    requires short { first % 32 < 24 }
    ensures { IfSome result (λ x. token_at (first ∷ rest.now) ≡ Ok ((first / 32, first % 32, x.0.now), x.1.now)) }
{
    let size = (first % 32) as usize;
    if rest.len() < size {
        return None;
    }
    Some(rest.split_at(size))
}

/// The argument of the head that begins with this byte and is that of a number, and the bytes after it, where it takes one byte or two.
#[inline(always)]
#[tactic(auto, unfolding(crate::specs::Inner::Tokens::token_at, crate::specs::Inner::Tokens::token_behind, crate::specs::Reading::argument_at))]
fn short_number_of(first: u8, rest: &[u8]) -> Option<(u64, &[u8])>
    requires { first < 64 }
    ensures { IfSome result (λ x. token_at (first ∷ rest.now) ≡ Ok ((first / 32, x.0, []), x.1.now)) }
{
    if first % 32 < 24 {
        return Some(((first % 32) as u64, rest));
    }
    if first % 32 > 24 {
        return None;
    }
    let (argument, after) = rest.split_first()?;
    Some((*argument as u64, after))
}

/// The head that begins with this byte, with its string, and the bytes after them, where the head takes one byte, or two and is that of a number.
#[inline(always)]
#[tactic(auto, unfolding(crate::specs::Inner::Tokens::token_at, crate::specs::Inner::Tokens::token_behind, crate::specs::Reading::argument_at))]
fn short_token_of(first: u8, rest: &[u8]) -> Option<(Token, &[u8])>
    ensures { IfSome result (λ x. token_at (first ∷ rest.now) ≡ Ok ((x.0.0, x.0.1, x.0.2.now), x.1.now)) }
{
    if first < 64 {
        let (argument, after) = short_number_of(first, rest)?;
        return Some(((first / 32, argument, &[]), after));
    }
    if first % 32 >= 24 {
        return None;
    }
    match first / 32 {
        2 | 3 => {
            let (content, after) = short_string_of(first, rest)?;
            Some(((first / 32, (first % 32) as u64, content), after))
        }
        7 => None,
        major => Some(((major, (first % 32) as u64, &[]), rest)),
    }
}

/// The head that begins with this byte, with its string, and the bytes after them.
#[inline(never)]
#[tactic(auto, unfolding(crate::specs::Inner::Tokens::token_at))]
fn token_behind_byte(first: u8, rest: &[u8]) -> Result<(Token, &[u8]), ReadError>
    ensures { Reads (λ x. ((x.0.0, x.0.1, x.0.2.now), x.1.now)) result (token_at (first ∷ rest.now)) }
{
    if first / 32 == 7 {
        return Ok(((7, (first % 32) as u64, &[]), rest));
    }
    let (argument, rest) = argument_of(first % 32, rest)?;
    behind_head(first / 32, argument, rest)
}

/// The first head of the bytes with its string, and the bytes after them.
#[inline(always)]
#[tactic(auto, unfolding(crate::specs::Inner::Tokens::token_at))]
pub(crate) fn token_of(bytes: &[u8]) -> Result<(Token, &[u8]), ReadError>
    ensures { Reads (λ x. ((x.0.0, x.0.1, x.0.2.now), x.1.now)) result (token_at bytes.now) }
{
    let Some((first, rest)) = bytes.split_first() else {
        return Err(ReadError::Truncated);
    };
    match short_token_of(*first, rest) {
        Some(found) => Ok(found),
        None => token_behind_byte(*first, rest),
    }
}

/// Whether two tokens are equal.
fn is_same(one: Token, other: Token) -> bool
    ensures { IsTrue result ↔ ◌≡◌ {A = spec.Token} (one.entry.0, one.entry.1, one.entry.2.now) (other.entry.0, other.entry.1, other.entry.2.now) }
{
    one.0 == other.0 && one.1 == other.1 && one.2 == other.2
}

/// Whether two spelled items are equal.
pub(crate) fn same_spelled(a: &[u8], b: &[u8]) -> bool
    ensures { (d e : DataItem) → Spells a.now d → Spells b.now e → result ≡ equality.same d e }
{
    let mut left = a;
    let mut right = b;
    while !left.is_empty() {
        let Ok((one, behind_one)) = token_of(left) else {
            return false;
        };
        let Ok((other, behind_other)) = token_of(right) else {
            return false;
        };
        if !is_same(one, other) {
            return false;
        }
        left = behind_one;
        right = behind_other;
    }
    right.is_empty()
}

/// How many items are inside one with this head; the greatest number where they are more than that.
#[inline(always)]
#[tactic(auto, unfolding(crate::specs::Inner::Tokens::inside))]
fn inside(major: u8, argument: u64) -> u64
    ensures { result ≡ min (spec.inside major argument) (2 ^ 64 - 1) }
{
    match major {
        4 => argument,
        5 => argument.saturating_mul(2),
        6 => 1,
        _ => 0,
    }
}

/// How many bytes there are.
fn size_of(bytes: &[u8]) -> u64
    ensures { result ≡ length bytes.now }
{
    bytes.len() as u64
}

/// The bytes after the first head with its string, where no item is inside it, and the head takes one byte, or two and is that of a number.
#[inline(always)]
fn behind_leaf(bytes: &[u8]) -> Option<&[u8]>
    ensures { IfSome result (λ after. (t : spec.Token) × (token_at bytes.now ≡ Ok (t, after.now)) × (spec.inside t.0 t.1 ≡ 0)) }
{
    let (first, rest) = bytes.split_first()?;
    if *first < 64 {
        let (_, after) = short_number_of(*first, rest)?;
        return Some(after);
    }
    if *first >= 128 || *first % 32 >= 24 {
        return None;
    }
    let (_, after) = short_string_of(*first, rest)?;
    Some(after)
}

/// The bytes after the item that is at their beginning.
#[inline(never)]
pub(crate) fn behind_item(bytes: &[u8]) -> &[u8]
    ensures { (d : DataItem) (front rest : List ℕ) → Spells front d → bytes.now ≡ front ++ rest → result.now ≡ rest }
{
    let mut todo: u64 = 1;
    let mut rest = bytes;
    while todo > 0 {
        if let Some(after) = behind_leaf(rest) {
            todo -= 1;
            rest = after;
            continue;
        }
        let Ok((token, after)) = token_of(rest) else {
            return rest;
        };
        todo = (todo - 1).saturating_add(inside(token.0, token.1));
        if todo > size_of(after) {
            return rest;
        }
        rest = after;
    }
    rest
}

/// The bytes after the item that is at their beginning, told at once where its head is short and no other is inside.
#[inline(always)]
pub(crate) fn after_item(bytes: &[u8]) -> &[u8]
    ensures { (d : DataItem) (front rest : List ℕ) → Spells front d → bytes.now ≡ front ++ rest → result.now ≡ rest }
{
    match behind_leaf(bytes) {
        Some(after) => after,
        None => behind_item(bytes),
    }
}

/// What is before the rest.
#[inline(always)]
pub(crate) fn taken<'a>(bytes: &'a [u8], rest: &[u8]) -> &'a [u8]
    ensures { (front : List ℕ) → bytes.now ≡ front ++ rest.now → result.now ≡ front }
{
    if bytes.len() < rest.len() {
        return bytes;
    }
    &bytes[..bytes.len() - rest.len()]
}

/// Whether one of the `count` pairs at the beginning of the bytes has this key.
pub(crate) fn has_spelled_key(key: &[u8], count: u64, bytes: &[u8]) -> bool
    ensures { (k : DataItem) (ps : Pairs) (front rest : List ℕ) → Spells key.now k → SpellsPairs front ps → pair_count ps ≡ count
        → bytes.now ≡ front ++ rest → result ≡ equality.has_key k ps }
{
    let mut rest = bytes;
    for _ in 0..count {
        let behind_key = behind_item(rest);
        if same_spelled(key, taken(rest, behind_key)) {
            return true;
        }
        rest = behind_item(behind_key);
    }
    false
}

/// Whether a spelled item is a map.
pub(crate) fn is_spelled_map(bytes: &[u8]) -> bool
    ensures map { (d : DataItem) → Spells bytes.now d → IsTrue result → (pairs : Pairs) × (d ≡ spelled_map pairs) }
    ensures only { (pairs : Pairs) → Spells bytes.now (spelled_map pairs) → IsTrue result }
{
    match token_of(bytes) {
        Ok((token, _)) => token.0 == Major::Map.number(),
        Err(_) => false,
    }
}
