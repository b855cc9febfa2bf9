//! Trees with one place left, and with none.

use osc_fixtures::put;
use osc_tree::Tree;
use std::alloc::{AllocError, Global};

/// 1,023 resources under `/r`: one fewer than a tree may have.
pub(crate) fn crowded(alloc: Global) -> Result<Tree, AllocError> {
    let mut tree = Tree::new(alloc);
    for number in 0..1023u16 {
        let high = (number / 32 % 32) as u8;
        let low = (number % 32) as u8;
        put(
            alloc,
            &mut tree,
            &[b'/', b'r', b'/', 64 + high, 64 + low],
            b"",
        )?;
    }
    Ok(tree)
}

/// The same, and this one besides.
pub(crate) fn full(alloc: Global, path: &[u8]) -> Result<Tree, AllocError> {
    let mut tree = crowded(alloc)?;
    put(alloc, &mut tree, path, b"")?;
    Ok(tree)
}
