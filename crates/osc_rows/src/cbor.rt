//! Data items (RFC 8949).

use crate::line::Line;
use crate::words::Word;
use osc_cbor::{Item, ItemRef, Major, PairRefs, extent, head, is_whole, is_whole_map, read, write};
use std::alloc::Global;
use std::mem::size_of;

/// `item BYTES`: the item at their beginning, how many of them are its own, and whether it is written as these; or why there is none. How many
/// are its own, or why there is none, without memory; and whether all are one item, and one map.
pub fn item(alloc: Global, words: &[Word<'_>], line: &mut Line) -> Option<()> {
    let [bytes] = words else {
        return None;
    };
    let bytes = bytes.bytes()?;
    match read(alloc, bytes) {
        Ok((item, taken)) => write_item(alloc, &item, bytes.get(..taken), line),
        Err(error) => line.value(&error),
    }
    match extent(bytes) {
        Ok(count) => line.number(count as u64),
        Err(error) => line.value(&error),
    }
    line.test(is_whole(bytes));
    line.test(is_whole_map(bytes));
    Some(())
}

fn write_item(alloc: Global, item: &Item, taken: Option<&[u8]>, line: &mut Line) {
    let taken = taken.unwrap_or(&[]);
    let mut out = Vec::new(alloc);
    let is_written = write(item, &mut out).is_ok();
    line.value(item);
    line.number(taken.len() as u64);
    line.test(is_written && out.as_slice() == taken);
}

/// `memory BYTES`: how many of them are the item's own, and whether it holds at most 192 bytes of memory for each.
pub fn memory(alloc: Global, words: &[Word<'_>], line: &mut Line) -> Option<()> {
    let [bytes] = words else {
        return None;
    };
    let (item, taken) = read(alloc, bytes.bytes()?).ok()?;
    line.number(taken as u64);
    line.test(held(&item) <= taken.saturating_mul(192));
    Some(())
}

/// How many bytes of memory an item holds beside itself.
fn held(item: &Item) -> usize {
    match item {
        Item::Bytes(content) => content.capacity(),
        Item::Text(content) => content.capacity(),
        Item::Array(items) => {
            let mut sum = items.capacity().saturating_mul(size_of::<Item>());
            for item in items {
                sum = sum.saturating_add(held(item));
            }
            sum
        }
        Item::Map(pairs) => {
            let mut sum = pairs.capacity().saturating_mul(size_of::<(Item, Item)>());
            for (key, value) in pairs {
                sum = sum.saturating_add(held(key)).saturating_add(held(value));
            }
            sum
        }
        Item::Tag(_, inner) => held(inner).saturating_add(size_of::<Item>()),
        _ => 0,
    }
}

/// `value BYTES LABEL`: what the map has under this number, by what it can be: a number, bytes, a text, how many items, how many pairs; and
/// whether it is the map itself.
pub fn value(alloc: Global, words: &[Word<'_>], line: &mut Line) -> Option<()> {
    let [bytes, label] = words else {
        return None;
    };
    let (bytes, label) = (bytes.bytes()?, label.number()?);
    let (map, _) = read(alloc, bytes).ok()?;
    match map.value(label) {
        Some(item) => {
            write_parts(item, line);
            line.test(item.is(&map));
        }
        None => line.text("none"),
    }
    Some(())
}

fn write_parts(item: &Item, line: &mut Line) {
    line.some_number(item.as_unsigned());
    line.some_bytes(item.as_bytes());
    line.text(item.as_text().unwrap_or("none"));
    match item.as_array() {
        Some(items) => line.number(items.len() as u64),
        None => line.text("none"),
    }
    match item.as_map() {
        Some(pairs) => line.number(pairs.len() as u64),
        None => line.text("none"),
    }
}

/// `same_item BYTES BYTES`: whether both are the same item.
pub fn same(alloc: Global, words: &[Word<'_>], line: &mut Line) -> Option<()> {
    let [one, other] = words else {
        return None;
    };
    let (one, other) = (one.bytes()?, other.bytes()?);
    let (item, _) = read(alloc, one).ok()?;
    line.test(is_read(alloc, other, &item));
    Some(())
}

fn is_read(alloc: Global, bytes: &[u8], item: &Item) -> bool {
    match read(alloc, bytes) {
        Ok((other, _)) => other.is(item),
        Err(_) => false,
    }
}

/// `inside BYTES`: the bytes under 4 in the map under 8, which are lent.
pub fn inside(words: &[Word<'_>], line: &mut Line) -> Option<()> {
    let [bytes] = words else {
        return None;
    };
    line.some_bytes(bytes_inside(bytes.bytes()?));
    Some(())
}

fn bytes_inside(bytes: &[u8]) -> Option<&[u8]> {
    ItemRef::whole(bytes)?.value(8)?.value(4)?.as_bytes()
}

/// `lent BYTES`: the number of the tag round an array, and of each item what it can be: a number from 0, the argument of a negative one, a
/// text; and whether it is a map without pairs. All are lent.
pub fn lent(words: &[Word<'_>], line: &mut Line) -> Option<()> {
    let [bytes] = words else {
        return None;
    };
    let (number, inner) = ItemRef::whole(bytes.bytes()?)?.as_tag()?;
    line.number(number);
    for item in inner.as_array()? {
        line.some_number(item.as_unsigned());
        line.some_number(item.as_negative());
        line.text(item.as_text().unwrap_or("none"));
        line.test(is_empty_map(&item));
    }
    Some(())
}

fn is_empty_map(item: &ItemRef<'_>) -> bool {
    match item.as_map() {
        Some(pairs) => has_no_pair(pairs),
        None => false,
    }
}

fn has_no_pair(pairs: PairRefs<'_>) -> bool {
    let mut pairs = pairs;
    pairs.next().is_none()
}

/// `head MAJOR ARGUMENT`: the head of this major type, by its number.
pub fn head_of(words: &[Word<'_>], line: &mut Line) -> Option<()> {
    let [major, argument] = words else {
        return None;
    };
    let major = match major.number()? {
        0 => Major::Unsigned,
        1 => Major::Negative,
        2 => Major::Bytes,
        3 => Major::Text,
        4 => Major::Array,
        5 => Major::Map,
        6 => Major::Tag,
        _ => return None,
    };
    line.bytes(head(major, argument.number()?).as_slice());
    Some(())
}
