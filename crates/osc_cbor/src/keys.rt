//! Keys of maps by their shortest spellings, and whether two of them are equal. No memory is taken.
//!
//! Two items are equal where their shortest spellings are. So the keys of a map are sorted by these, and neighbours compared.

ghost use Rattle.std.specs.Prelude.{◌≡◌, ◌<◌, ◌≤◌, ◌∷◌, ◌++◌, [], ℕ, get_or, length, take, drop, IsPermutation};
ghost use Rattle.std.specs.Ordering.{nat_cmp};
ghost use Rattle.std.specs.Cmp.Lexicographic.{slice_cmp};
ghost use Rattle.arrayvec.specs.ArrayVec.{array_vec_len};
ghost use Rattle.osc_cbor.specs.Head as head_spec;
ghost use Rattle.osc_cbor.specs.Major.{major_number};
ghost use Rattle.osc_cbor.specs.Inner.Notes as spec;
ghost use Rattle.osc_cbor.specs.Inner.Notes.{Noted, KeyNoted, Says};

use crate::error::ReadError;
use crate::heads::{Major, head};
use arrayvec::ArrayVec;
use osc_model::limits::DATAGRAM_LIMIT;
use std::cmp::Ordering;

/// The most keys of a datagram's maps: a key and its value take two bytes.
pub(crate) const KEYS_LIMIT: usize = 576;

/// More keys than maps mostly have.
pub(crate) const FEW_KEYS: usize = 32;

/// Spellings with the shortest heads, one after the other: there is room for those of a datagram.
pub(crate) type Spelled = ArrayVec<u8, DATAGRAM_LIMIT>;

/// The keys of the maps that are open, at most `MOST`: those of an inner map after those of an outer one.
pub(crate) type Keys<const MOST: usize> = ArrayVec<Key, MOST>;

/// A key of a map: where its spelling begins and ends, and its first four bytes as a number.
#[derive(Clone, Copy, Default)]
pub(crate) struct Key {
    prefix: u32,
    start: u16,
    end: u16,
}

/// Why a pass ends before an item does.
#[derive(Clone, Copy)]
pub(crate) enum Stop {
    /// The bytes have this fault.
    Fault(ReadError),
    /// The pass can't tell: there is no room for a spelling or a key, or keys weren't in order.
    Unsure,
}

/// What the keys of a map are.
#[derive(Clone, Copy)]
pub(crate) enum KeyOrder {
    /// No two are equal.
    Apart,
    /// Two are equal.
    Repeated,
    /// They aren't in order, and it isn't told whether two are equal.
    Unordered,
}

/// Notes bytes of a spelling.
pub(crate) fn note(bytes: &[u8], spelled: &mut Spelled) -> Result<(), Stop>
    ensures { Noted spelled.old.items bytes.now spelled.new.items result }
{
    match spelled.try_extend_from_slice(bytes) {
        Ok(()) => Ok(()),
        Err(_) => Err(Stop::Unsure),
    }
}

/// Notes the shortest head of this major type and argument.
#[tactic(auto, unfolding(crate::specs::Head::head))]
pub(crate) fn note_head(major: Major, argument: u64, spelled: &mut Spelled) -> Result<(), Stop>
    ensures { Noted spelled.old.items (head_spec.head (major_number major) argument) spelled.new.items result }
{
    if argument < 24 {
        return match spelled.try_push(32 * major.number() + argument as u8) {
            Ok(()) => Ok(()),
            Err(_) => Err(Stop::Unsure),
        };
    }
    note(head(major, argument).as_slice(), spelled)
}

/// The first four bytes, or as many as there are, as a number.
fn prefix_of(bytes: &[u8]) -> u32
    ensures value { result ≡ spec.first_four bytes.now }
    ensures fits { (i : ℕ) → get_or bytes.now i 0 < 256 }
{
    match bytes {
        [] => 0,
        [a] => u32::from_be_bytes([*a, 0, 0, 0]),
        [a, b] => u32::from_be_bytes([*a, *b, 0, 0]),
        [a, b, c] => u32::from_be_bytes([*a, *b, *c, 0]),
        [a, b, c, d, ..] => u32::from_be_bytes([*a, *b, *c, *d]),
    }
}

/// The bytes from one index to another, as far as there are any.
fn part(start: usize, end: usize, bytes: &[u8]) -> &[u8]
    ensures { result.now ≡ drop start (take end bytes.now) }
{
    let front = &bytes[..end.min(bytes.len())];
    &front[start.min(front.len())..]
}

/// The spelling of a key.
fn piece<'a>(key: &Key, spelled: &'a [u8]) -> &'a [u8]
    ensures { result.now ≡ spec.piece spelled.now key.now }
{
    part(key.start as usize, key.end as usize, spelled)
}

/// Notes the key whose spelling begins here and ends with what is spelled.
pub(crate) fn note_key<const MOST: usize>(
    start: usize,
    spelled: &[u8],
    keys: &mut Keys<MOST>,
) -> Result<(), Stop>
    ensures { KeyNoted start spelled.now keys.old.items keys.new.items result }
{
    let end = spelled.len();
    if start > DATAGRAM_LIMIT || end > DATAGRAM_LIMIT {
        return Err(Stop::Unsure);
    }
    let key = Key {
        prefix: prefix_of(part(start, end, spelled)),
        start: start as u16,
        end: end as u16,
    };
    match keys.try_push(key) {
        Ok(()) => Ok(()),
        Err(_) => Err(Stop::Unsure),
    }
}

/// The bytes after the first `count`, if there are any.
fn bytes_after(count: usize, bytes: &[u8]) -> &[u8] {
    &bytes[count.min(bytes.len())..]
}

/// Which of two keys with equal prefixes comes first in the order of their spellings. The next four bytes are compared as numbers.
fn order(a: &Key, b: &Key, spelled: &[u8]) -> Ordering {
    let a = bytes_after(4, piece(a, spelled));
    let b = bytes_after(4, piece(b, spelled));
    let (next_of_a, next_of_b) = (prefix_of(a), prefix_of(b));
    if next_of_a != next_of_b {
        return next_of_a.cmp(&next_of_b);
    }
    bytes_after(4, a).cmp(&bytes_after(4, b))
}

/// Sorts the keys from one index to another, which have equal prefixes, by their spellings.
fn sort_part(start: usize, end: usize, spelled: &[u8], keys: &mut [Key])
    requires { (start ≤ end) × (end ≤ length keys.old) }
    ensures permutation { IsPermutation keys.old keys.new }
    ensures len { length keys.new ≡ length keys.old }
{
    keys[start..end].sort_unstable_by(|a, b| order(a, b, spelled));
}

/// Sorts keys that are in the order of their prefixes by their spellings: only neighbours with equal prefixes may have to be exchanged.
fn sort_neighbours(keys: &mut [Key], spelled: &[u8])
    ensures { IsPermutation keys.old keys.new }
{
    let mut start = 0;
    for end in 1..keys.len() {
        if keys[end].prefix != keys[start].prefix {
            if start + 1 < end {
                sort_part(start, end, spelled, keys);
            }
            start = end;
        }
    }
    sort_part(start, keys.len(), spelled, keys);
}

/// Sorts keys by their spellings.
fn sort(keys: &mut [Key], spelled: &[u8])
    ensures { IsPermutation keys.old keys.new }
{
    keys.sort_unstable_by_key(|key| key.prefix);
    sort_neighbours(keys, spelled);
}

/// Which of two spellings comes first. Their first four bytes are compared as numbers, which mostly tells.
fn compare(a: &[u8], b: &[u8]) -> Ordering
    ensures { result ≡ slice_cmp nat_cmp a.now b.now }
{
    if prefix_of(a) < prefix_of(b) {
        return Ordering::Less;
    }
    a.cmp(&b)
}

/// Whether keys in the order of their spellings are apart.
fn neighbours_say(keys: &[Key], spelled: &[u8]) -> KeyOrder
    ensures { Says result (spec.pieces spelled.now keys.now) }
{
    let Some((first, others)) = keys.split_first() else {
        return KeyOrder::Apart;
    };
    let mut last = piece(first, spelled);
    for key in others {
        let this = piece(key, spelled);
        match compare(last, this) {
            Ordering::Less => last = this,
            Ordering::Equal => return KeyOrder::Repeated,
            Ordering::Greater => return KeyOrder::Unordered,
        }
    }
    KeyOrder::Apart
}

/// Whether the keys from an index on are apart. Their order may change.
fn judge_from(first: usize, spelled: &[u8], keys: &mut [Key]) -> KeyOrder
    ensures says { Says result (spec.pieces spelled.now (drop first keys.old)) }
    ensures front { take first keys.new ≡ take first keys.old }
{
    if keys.len() < first {
        return KeyOrder::Unordered;
    }
    let own = &mut keys[first..];
    sort(own, spelled);
    neighbours_say(own, spelled)
}

/// Takes away the keys from an index on, and tells whether they were apart.
pub(crate) fn judge<const MOST: usize>(
    first: usize,
    spelled: &[u8],
    keys: &mut Keys<MOST>,
) -> KeyOrder
    ensures says { Says result (spec.pieces spelled.now (drop first keys.old.items)) }
    ensures front { keys.new.items ≡ take first keys.old.items }
{
    let verdict = judge_from(first, spelled, keys.as_mut_slice());
    keys.truncate(first);
    verdict
}
