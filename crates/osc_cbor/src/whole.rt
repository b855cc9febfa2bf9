//! Bytes that are one whole item.

ghost use Rattle.std.specs.Prelude.{◌≡◌, ◌↔◌, IsTrue};
ghost use Rattle.osc_cbor.specs.Data.{DataItem, Pairs, map as whole_map};
ghost use Rattle.osc_cbor.specs.Spelling.{IsWhole};

use crate::extents::extent;
use crate::tokens::is_spelled_map;

/// Whether the bytes are one item, all of them; takes no memory. The time is that of [`extent`].
pub fn is_whole(bytes: &[u8]) -> bool
    ensures { IsTrue result ↔ ((d : DataItem) × IsWhole bytes.now d) }
{
    match extent(bytes) {
        Ok(count) => count == bytes.len(),
        Err(_) => false,
    }
}

/// Whether the bytes are one map, all of them; takes no memory. The time is that of [`extent`].
pub fn is_whole_map(bytes: &[u8]) -> bool
    ensures { IsTrue result ↔ ((pairs : Pairs) × IsWhole bytes.now (whole_map pairs)) }
{
    is_whole(bytes) && is_spelled_map(bytes)
}
