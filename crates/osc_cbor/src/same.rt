//! Whether two items are equal.

ghost use Rattle.std.specs.Prelude.{◌≡◌};
ghost use Rattle.osc_cbor.specs.Same as spec;
ghost use Rattle.osc_cbor.specs.View.{view, items_view, pairs_view};

use crate::item::Item;

/// Whether two items are equal; the pairs of maps in their order.
#[cycle(same)]
pub(crate) fn same(a: &Item, b: &Item) -> bool
    ensures { result ≡ spec.same (view a.now) (view b.now) }
{
    match (a, b) {
        (Item::Unsigned(a), Item::Unsigned(b)) => *a == *b,
        (Item::Negative(a), Item::Negative(b)) => *a == *b,
        (Item::Bytes(a), Item::Bytes(b)) => a.as_slice() == b.as_slice(),
        (Item::Text(a), Item::Text(b)) => a.as_str() == b.as_str(),
        (Item::Array(a), Item::Array(b)) => same_items(a, b),
        (Item::Map(a), Item::Map(b)) => same_pairs(a, b),
        (Item::Tag(a, inside_a), Item::Tag(b, inside_b)) => *a == *b && same(inside_a, inside_b),
        (Item::Bool(a), Item::Bool(b)) => *a == *b,
        (Item::Null, Item::Null) => true,
        _ => false,
    }
}

#[cycle(same)]
fn same_items(a: &[Item], b: &[Item]) -> bool
    ensures { result ≡ spec.same_items (items_view a.now) (items_view b.now) }
{
    if a.len() != b.len() {
        return false;
    }
    for i in 0..a.len() {
        if !same(&a[i], &b[i]) {
            return false;
        }
    }
    true
}

#[cycle(same)]
fn same_pairs(a: &[(Item, Item)], b: &[(Item, Item)]) -> bool
    ensures { result ≡ spec.same_pairs (pairs_view a.now) (pairs_view b.now) }
{
    if a.len() != b.len() {
        return false;
    }
    for i in 0..a.len() {
        if !same(&a[i].0, &b[i].0) || !same(&a[i].1, &b[i].1) {
            return false;
        }
    }
    true
}
