//! What is in arrays and maps, lent item by item. No memory is taken.

ghost use Rattle.std.specs.Prelude.{◌≡◌, ◌≢◌, ◌≤◌, ◌<◌, ◌∷◌, List, ℕ, None, IfSome, IfNone, length};
ghost use Rattle.std.specs.Iterator.{YieldsFirstBy, item_count};
ghost use Rattle.osc_cbor.specs.Data.{DataItem, unsigned, array, item, no_items, pair, value_under};
ghost use Rattle.osc_cbor.specs.Lent.{items_in, pairs_in, AreItems, ArePairs};
ghost use Rattle.osc_cbor.specs.View.{pairs_of};

use crate::lent::{ItemRef, first_item, two_inside};
use std::marker::Model;

/// The items of an array that are left, in order.
#[derive(Drop)]
pub struct ItemRefs<'a> {
    left: u64,
    rest: &'a [u8],
}

impl<'a> Model for ItemRefs<'a> {
    ghost use Rattle.std.specs.Prelude.{List};
    ghost use Rattle.std.specs.Coded.{coded_list};
    ghost use Rattle.osc_cbor.specs.Inner.Code.{coded_item};
    ghost use Rattle.osc_cbor.specs.Data.{DataItem};
    ghost use Rattle.osc_cbor.specs.Lent.{items_in, AreItems};

    ghost Value = { List DataItem };

    ghost coded = { coded_list coded_item };

    ghost view = { λ items. items_in items.left items.rest.now };

    ghost invariant = { λ items. AreItems items.left items.rest.now };
}

impl<'a> ItemRefs<'a> {
    /// The `count` items of the bytes, one after the other.
    pub(crate) fn new(count: u64, bytes: &'a [u8]) -> ItemRefs<'a>
        requires { AreItems count bytes.now }
        ensures { result ≡ items_in count bytes.now }
    {
        ItemRefs {
            left: count,
            rest: bytes,
        }
    }

    /// The two items of the next one, where it is an array of two: so its end needn't be found. Else all stays as it was.
    #[inline(always)]
    pub fn next_two(&mut self) -> Option<(ItemRef<'a>, ItemRef<'a>)>
        ensures two { IfSome result (λ two. self.old ≡ array (item two.0 (item two.1 no_items)) ∷ self.new) }
        ensures none { IfNone result ((a b : DataItem) (others : List DataItem) → self.old ≢ array (item a (item b no_items)) ∷ others) }
        ensures unchanged { IfNone result (self.new ≡ self.old) }
    {
        if self.left == 0 {
            return None;
        }
        let Some((first, second, rest)) = two_inside(self.rest) else {
            return None;
        };
        self.left -= 1;
        self.rest = rest;
        Some((first, second))
    }
}

impl<'a> Iterator for ItemRefs<'a> {
    type Item = ItemRef<'a>;

    ghost next_gives = { YieldsFirstBy (λ item. item) (λ items. items) };

    ghost remaining = { item_count (λ items. items) };

    #[inline(always)]
    fn next(&mut self) -> Option<ItemRef<'a>> {
        if self.left == 0 {
            return None;
        }
        let (item, rest) = first_item(self.rest);
        self.left -= 1;
        self.rest = rest;
        Some(item)
    }
}

/// The pairs of a map that are left, in order: key and value.
#[derive(Drop)]
pub struct PairRefs<'a> {
    left: u64,
    rest: &'a [u8],
}

impl<'a> Model for PairRefs<'a> {
    ghost use Rattle.std.specs.Prelude.{List};
    ghost use Rattle.std.specs.Coded.{coded_list, coded×};
    ghost use Rattle.osc_cbor.specs.Inner.Code.{coded_item};
    ghost use Rattle.osc_cbor.specs.Data.{DataItem};
    ghost use Rattle.osc_cbor.specs.Lent.{pairs_in, ArePairs};

    ghost Value = { List (DataItem × DataItem) };

    ghost coded = { coded_list (coded× coded_item coded_item) };

    ghost view = { λ pairs. pairs_in pairs.left pairs.rest.now };

    ghost invariant = { λ pairs. ArePairs pairs.left pairs.rest.now };
}

impl<'a> PairRefs<'a> {
    /// The `count` pairs of the bytes, one after the other.
    pub(crate) fn new(count: u64, bytes: &'a [u8]) -> PairRefs<'a>
        requires { ArePairs count bytes.now }
        ensures { result ≡ pairs_in count bytes.now }
    {
        PairRefs {
            left: count,
            rest: bytes,
        }
    }

    /// The label and the value of the next pair whose key is an unsigned number from `least` to `most`, its label; the pairs before it are passed. So one pass
    /// over a map's pairs finds what it has under some labels that are near one another, and the others take little time.
    #[inline(always)]
    pub fn next_labelled(&mut self, least: u64, most: u64) -> Option<(u64, ItemRef<'a>)>
        ensures found { IfSome result (λ x. (label : ℕ) → least ≤ label → label ≤ most
            → value_under label (pairs_of self.old) ≡ value_under label (pair (unsigned x.0) x.1 (pairs_of self.new))) }
        ensures between { IfSome result (λ x. (least ≤ x.0) × (x.0 ≤ most)) }
        ensures none { IfNone result ((label : ℕ) → least ≤ label → label ≤ most → value_under label (pairs_of self.old) ≡ None) }
        ensures fewer { IfSome result (λ x. length self.new < length self.old) }
    {
        while let Some((key, value)) = self.next() {
            if let Some(label) = key.as_unsigned()
                && least <= label
                && label <= most
            {
                return Some((label, value));
            }
        }
        None
    }
}

impl<'a> Iterator for PairRefs<'a> {
    type Item = (ItemRef<'a>, ItemRef<'a>);

    ghost next_gives = { YieldsFirstBy (λ pair. pair) (λ pairs. pairs) };

    ghost remaining = { item_count (λ pairs. pairs) };

    #[inline(always)]
    fn next(&mut self) -> Option<(ItemRef<'a>, ItemRef<'a>)> {
        if self.left == 0 {
            return None;
        }
        let (key, behind_key) = first_item(self.rest);
        let (value, rest) = first_item(behind_key);
        self.left -= 1;
        self.rest = rest;
        Some((key, value))
    }
}
