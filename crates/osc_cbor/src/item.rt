//! Data items.

ghost use Rattle.std.specs.Prelude.{◌≡◌, ◌↔◌, None, IsTrue, option_map, option_copied, string_bytes};
ghost use Rattle.osc_cbor.specs.Data.{value_under};
ghost use Rattle.osc_cbor.specs.View.{view, items_view, pairs_view};
ghost use Rattle.osc_cbor.specs.Parts as part;

use crate::same::same;

/// A data item (RFC 8949 section 2) of the subset, with parts of its own. An `ItemRef` is one that is read in its bytes.
#[derive(Debug, Drop)]
pub enum Item {
    /// A number from 0.
    Unsigned(u64),
    /// Of an argument n, the number -1 - n.
    Negative(u64),
    /// Bytes.
    Bytes(Vec<u8>),
    /// Text.
    Text(String),
    /// Items in order.
    Array(Vec<Item>),
    /// Keys and values in order.
    Map(Vec<(Item, Item)>),
    /// An item under a tag's number.
    Tag(u64, Box<Item>),
    /// False or true.
    Bool(bool),
    /// Null.
    Null,
}

/// The value under this unsigned number, in the first pair that has it as its key.
fn value_in(pairs: &[(Item, Item)], label: u64) -> Option<&Item>
    ensures { option_map (λ item. view item.now) result ≡ value_under label (pairs_view pairs.now) }
{
    for (key, value) in pairs {
        if let Item::Unsigned(number) = key
            && *number == label
        {
            return Some(value);
        }
    }
    None
}

impl Item {
    /// The number, if this is an unsigned one.
    pub fn as_unsigned(&self) -> Option<u64>
        ensures { result ≡ part.as_unsigned (view self.now) }
    {
        match self {
            Item::Unsigned(number) => Some(*number),
            _ => None,
        }
    }

    /// The bytes, if this is a byte string.
    pub fn as_bytes(&self) -> Option<&[u8]>
        ensures { option_copied result ≡ part.as_bytes (view self.now) }
    {
        match self {
            Item::Bytes(content) => Some(content),
            _ => None,
        }
    }

    /// The text, if this is one.
    pub fn as_text(&self) -> Option<&str>
        ensures { option_copied result ≡ part.as_text (view self.now) }
    {
        match self {
            Item::Text(content) => Some(content.as_str()),
            _ => None,
        }
    }

    /// The items, if this is an array.
    pub fn as_array(&self) -> Option<&[Item]>
        ensures { option_map (λ items. items_view items.now) result ≡ part.as_array (view self.now) }
    {
        match self {
            Item::Array(items) => Some(items),
            _ => None,
        }
    }

    /// The pairs, if this is a map.
    pub fn as_map(&self) -> Option<&[(Item, Item)]>
        ensures { option_map (λ pairs. pairs_view pairs.now) result ≡ part.as_map (view self.now) }
    {
        match self {
            Item::Map(pairs) => Some(pairs),
            _ => None,
        }
    }

    /// Whether this and another item are equal; the pairs of maps in their order.
    pub fn is(&self, other: &Item) -> bool
        ensures { IsTrue result ↔ view self.now ≡ view other.now }
    {
        same(self, other)
    }

    /// The value under this unsigned number in a map.
    pub fn value(&self, label: u64) -> Option<&Item>
        ensures { option_map (λ item. view item.now) result ≡ part.value label (view self.now) }
    {
        value_in(self.as_map()?, label)
    }
}
