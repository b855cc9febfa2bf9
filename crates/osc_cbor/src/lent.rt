//! Items lent as the bytes that spell them. No memory is taken.

ghost use Rattle.std.specs.Prelude.{◌≡◌, ◌≢◌, List, ℕ, MatchOption, IfSome, IfNone, Ok, option_copied, option_map};
ghost use Rattle.std.specs.Option.{option_or};
ghost use Rattle.osc_cbor.specs.Data.{DataItem, Pairs, array, item, no_items, pair, unsigned, value_under};
ghost use Rattle.osc_cbor.specs.Lent.{Stands, Opens};
ghost use Rattle.osc_cbor.specs.Parts as part;
ghost use Rattle.osc_cbor.specs.Reading.{item_at};
ghost use Rattle.osc_cbor.specs.Spelling.{IsWhole, Spells};
ghost use Rattle.osc_cbor.specs.View.{items_of, pairs_of};

use crate::heads::Major;
use crate::lent_lists::{ItemRefs, PairRefs};
use crate::tokens::{Token, after_item, taken, token_of};
use crate::whole::is_whole;
use std::fmt;
use std::marker::Model;

/// A data item (RFC 8949 section 2) of the subset, lent as the bytes that spell it. Contracts see the item.
#[derive(Drop)]
pub struct ItemRef<'a> {
    bytes: &'a [u8],
}

// It may be part of a plaintext, and isn't printed.
impl<'a> fmt::Debug for ItemRef<'a> {
    fn fmt<W: fmt::Write>(&self, f: &mut fmt::Formatter<W>) -> fmt::Result {
        f.write_str("ItemRef")
    }
}

impl<'a> Model for ItemRef<'a> {
    ghost use Rattle.osc_cbor.specs.Inner.Code.{coded_item};
    ghost use Rattle.osc_cbor.specs.Data.{DataItem};
    ghost use Rattle.osc_cbor.specs.Lent.{item_in};
    ghost use Rattle.osc_cbor.specs.Spelling.{IsWhole};

    ghost Value = { DataItem };

    ghost coded = { coded_item };

    ghost view = { λ item. item_in item.bytes.now };

    ghost invariant = { λ item. IsWhole item.bytes.now (item_in item.bytes.now) };
}

/// The head of a spelled item with its string, and the bytes after them.
#[inline(always)]
fn opened<'a>(bytes: &'a [u8]) -> (Token<'a>, &'a [u8])
    requires { (d : DataItem) × Spells bytes.now d }
    ensures { (d : DataItem) → Spells bytes.now d → Opens d result.0.0 result.0.1 result.0.2.now result.1.now }
{
    match token_of(bytes) {
        Ok(found) => found,
        Err(_) => unreachable!(),
    }
}

/// The item at the beginning of the bytes, and the bytes after it.
#[inline(always)]
pub(crate) fn first_item<'a>(bytes: &'a [u8]) -> (ItemRef<'a>, &'a [u8])
    requires { Stands bytes.now }
    ensures { item_at 9 bytes.now ≡ Ok (result.0, result.1.now) }
{
    let rest = after_item(bytes);
    let item = ItemRef {
        bytes: taken(bytes, rest),
    };
    (item, rest)
}

/// The two items inside the one at the beginning of the bytes, where that is an array of two, and the bytes after them.
#[inline(always)]
pub(crate) fn two_inside<'a>(bytes: &'a [u8]) -> Option<(ItemRef<'a>, ItemRef<'a>, &'a [u8])>
    requires { Stands bytes.now }
    ensures two { IfSome result (λ x. item_at 9 bytes.now ≡ Ok (array (item x.0 (item x.1 no_items)), x.2.now)) }
    ensures none { IfNone result ((a b : DataItem) (rest : List ℕ) → item_at 9 bytes.now ≢ Ok (array (item a (item b no_items)), rest)) }
{
    let Ok((token, inner)) = token_of(bytes) else {
        return None;
    };
    if token.0 != Major::Array.number() || token.1 != 2 {
        return None;
    }
    let (first, behind_first) = first_item(inner);
    let (second, rest) = first_item(behind_first);
    Some((first, second, rest))
}

/// What is under the wanted number in the first pair that has it as its key: `known`, where one of the pairs before had
/// it, and else the value of this pair, where the wanted number is its label. So one pass over a map's pairs, by
/// [`PairRefs::next_labelled`], finds all that is wanted of it.
#[inline(always)]
pub fn first_value<'a>(
    known: Option<ItemRef<'a>>,
    wanted: u64,
    label: u64,
    value: &ItemRef<'a>,
) -> Option<ItemRef<'a>>
    ensures { (rest : Pairs) → option_or result (value_under wanted rest) ≡ option_or known.entry (value_under wanted (pair (unsigned label) value.now rest)) }
{
    if known.is_some() || label != wanted {
        return known;
    }
    Some(ItemRef { bytes: value.bytes })
}

/// The value under this unsigned number, in the first pair that has it as its key.
fn value_in<'a>(pairs: PairRefs<'a>, label: u64) -> Option<ItemRef<'a>>
    ensures { result ≡ value_under label (pairs_of pairs.entry) }
{
    let mut pairs = pairs;
    match pairs.next_labelled(label, label) {
        Some((_, value)) => Some(value),
        None => None,
    }
}

impl<'a> ItemRef<'a> {
    /// The item that the bytes are, all of them, where they are one. The time is that of [`crate::extent`].
    pub fn whole(bytes: &'a [u8]) -> Option<ItemRef<'a>>
        ensures { MatchOption result
            ((d : DataItem) → ¬ IsWhole bytes.now d)
            (λ item. IsWhole bytes.now item × ((d : DataItem) → IsWhole bytes.now d → item ≡ d)) }
    {
        if !is_whole(bytes) {
            return None;
        }
        Some(ItemRef { bytes })
    }

    /// The same item, lent once more.
    pub fn reborrow(&self) -> ItemRef<'a>
        ensures { result ≡ self.now }
    {
        ItemRef { bytes: self.bytes }
    }

    /// The number, if this is an unsigned one.
    #[inline(always)]
    pub fn as_unsigned(&self) -> Option<u64>
        ensures { result ≡ part.as_unsigned self.now }
    {
        let (token, _) = opened(self.bytes);
        if token.0 != Major::Unsigned.number() {
            return None;
        }
        Some(token.1)
    }

    /// The argument n, if this is the number -1 - n.
    pub fn as_negative(&self) -> Option<u64>
        ensures { result ≡ part.as_negative self.now }
    {
        let (token, _) = opened(self.bytes);
        if token.0 != Major::Negative.number() {
            return None;
        }
        Some(token.1)
    }

    /// The bytes, if this is a byte string.
    #[inline(always)]
    pub fn as_bytes(&self) -> Option<&'a [u8]>
        ensures { option_copied result ≡ part.as_bytes self.now }
    {
        let (token, _) = opened(self.bytes);
        if token.0 != Major::Bytes.number() {
            return None;
        }
        Some(token.2)
    }

    /// The text, if this is one.
    pub fn as_text(&self) -> Option<&'a str>
        ensures { option_copied result ≡ part.as_text self.now }
    {
        let (token, _) = opened(self.bytes);
        if token.0 != Major::Text.number() {
            return None;
        }
        // It was judged when the item was.
        Some(unsafe { std::str::from_utf8_unchecked(token.2) })
    }

    /// The items, if this is an array.
    #[inline(always)]
    pub fn as_array(&self) -> Option<ItemRefs<'a>>
        ensures { option_map items_of result ≡ part.as_array self.now }
    {
        let (token, inner) = opened(self.bytes);
        if token.0 != Major::Array.number() {
            return None;
        }
        Some(ItemRefs::new(token.1, inner))
    }

    /// The pairs, if this is a map.
    pub fn as_map(&self) -> Option<PairRefs<'a>>
        ensures { option_map pairs_of result ≡ part.as_map self.now }
    {
        let (token, inner) = opened(self.bytes);
        if token.0 != Major::Map.number() {
            return None;
        }
        Some(PairRefs::new(token.1, inner))
    }

    /// The tag's number and the item under it, if this is an item under a tag.
    pub fn as_tag(&self) -> Option<(u64, ItemRef<'a>)>
        ensures { result ≡ part.as_tag self.now }
    {
        let (token, inner) = opened(self.bytes);
        if token.0 != Major::Tag.number() {
            return None;
        }
        Some((token.1, ItemRef { bytes: inner }))
    }

    /// The value under this unsigned number in a map.
    pub fn value(&self, label: u64) -> Option<ItemRef<'a>>
        ensures { result ≡ part.value label self.now }
    {
        value_in(self.as_map()?, label)
    }
}
