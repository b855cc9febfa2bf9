//! Writing items.

ghost use Rattle.std.specs.Prelude.{◌≡◌, ◌+◌, ◌≤◌, ◌++◌, length, take, IsOk, OnOk, OnErr};
ghost use Rattle.std.specs.Vec.{vec_len, vec_capacity};
ghost use Rattle.osc_cbor.specs.Data.{item_count, pair_count};
ghost use Rattle.osc_cbor.specs.Head as spec;
ghost use Rattle.osc_cbor.specs.Major.{major_number};
ghost use Rattle.osc_cbor.specs.Spelling.{spelling, items_spelling, pairs_spelling};
ghost use Rattle.osc_cbor.specs.View.{view, items_view, pairs_view};

use crate::heads::{Major, head};
use crate::item::Item;
use std::alloc::AllocError;

fn write_head(major: Major, argument: u64, out: &mut Vec<u8>) -> Result<(), AllocError>
    ensures ok { OnOk result (out.new.items ≡ out.old.items ++ spec.head (major_number major) argument) }
    ensures kept { take (vec_len out.old) out.new.items ≡ out.old.items }
    ensures longer { vec_len out.old ≤ vec_len out.new }
{
    out.extend_from_slice(head(major, argument).as_slice())
}

/// A head with the length of a string, and the string.
fn write_string(major: Major, content: &[u8], out: &mut Vec<u8>) -> Result<(), AllocError>
    ensures ok { OnOk result (out.new.items ≡ out.old.items ++ (spec.head (major_number major) (length content.now) ++ content.now)) }
    ensures kept { take (vec_len out.old) out.new.items ≡ out.old.items }
    ensures longer { vec_len out.old ≤ vec_len out.new }
{
    write_head(major, content.len() as u64, out)?;
    out.extend_from_slice(content)
}

#[cycle(write)]
fn write_item(item: &Item, out: &mut Vec<u8>) -> Result<(), AllocError>
    ensures ok { OnOk result (out.new.items ≡ out.old.items ++ spelling (view item.now)) }
    ensures kept { take (vec_len out.old) out.new.items ≡ out.old.items }
    ensures longer { vec_len out.old ≤ vec_len out.new }
{
    match item {
        Item::Unsigned(number) => write_head(Major::Unsigned, *number, out),
        Item::Negative(number) => write_head(Major::Negative, *number, out),
        Item::Bytes(content) => write_string(Major::Bytes, content, out),
        Item::Text(content) => write_string(Major::Text, content.as_bytes(), out),
        Item::Array(items) => write_items(items, out),
        Item::Map(pairs) => write_pairs(pairs, out),
        Item::Tag(number, inner) => {
            write_head(Major::Tag, *number, out)?;
            write_item(inner, out)
        }
        Item::Bool(true) => Ok(out.push(0xf5)?),
        Item::Bool(false) => Ok(out.push(0xf4)?),
        Item::Null => Ok(out.push(0xf6)?),
    }
}

#[cycle(write)]
fn write_items(items: &[Item], out: &mut Vec<u8>) -> Result<(), AllocError>
    ensures ok { OnOk result (out.new.items ≡ out.old.items ++ (spec.head 4 (item_count (items_view items.now)) ++ items_spelling (items_view items.now))) }
    ensures kept { take (vec_len out.old) out.new.items ≡ out.old.items }
    ensures longer { vec_len out.old ≤ vec_len out.new }
{
    write_head(Major::Array, items.len() as u64, out)?;
    for item in items {
        write_item(item, out)?;
    }
    Ok(())
}

#[cycle(write)]
fn write_pairs(pairs: &[(Item, Item)], out: &mut Vec<u8>) -> Result<(), AllocError>
    ensures ok { OnOk result (out.new.items ≡ out.old.items ++ (spec.head 5 (pair_count (pairs_view pairs.now)) ++ pairs_spelling (pairs_view pairs.now))) }
    ensures kept { take (vec_len out.old) out.new.items ≡ out.old.items }
    ensures longer { vec_len out.old ≤ vec_len out.new }
{
    write_head(Major::Map, pairs.len() as u64, out)?;
    for (key, value) in pairs {
        write_item(key, out)?;
        write_item(value, out)?;
    }
    Ok(())
}

/// Appends the spelling of an item with the shortest heads. Without memory all stays as it was.
///
/// What is written can be read again where no map of the item has equal keys and it isn't nested too deep.
pub fn write(item: &Item, out: &mut Vec<u8>) -> Result<(), AllocError>
    ensures ok { OnOk result (out.new.items ≡ out.old.items ++ spelling (view item.now)) }
    ensures err { OnErr result (out.new.items ≡ out.old.items) }
{
    let length = out.len();
    let result = write_item(item, out);
    if result.is_err() {
        out.truncate(length);
    }
    result
}
