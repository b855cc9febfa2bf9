//! Resources, and scopes on them.

use osc_model::{Bytes, Path, Resource};
use osc_scope::Scope;
use osc_tree::{LONGEST_PAYLOAD, Tree};
use std::alloc::{AllocError, Global};

/// The scope of every method on `/e`, `/f` and `/n`.
pub const EVERY_METHOD: &[u8] = b"\x83\x82\x62/e\x0f\x82\x62/f\x0f\x82\x62/n\x0f";

/// Puts a resource of these bytes, without a format, where the path is one, they aren't too many, and there is room for it.
pub fn put(alloc: Global, tree: &mut Tree, path: &[u8], bytes: &[u8]) -> Result<(), AllocError> {
    if tree.is_full() {
        return Ok(());
    }
    if bytes.len() > LONGEST_PAYLOAD {
        return Ok(());
    }
    match Path::from_text(alloc, path)? {
        Some(path) => {
            let payload = Bytes::from_slice(alloc, bytes)?;
            tree.put(
                alloc,
                path,
                Resource {
                    format: None,
                    payload,
                },
            )
        }
        None => Ok(()),
    }
}

/// The scope that these bytes spell.
pub fn scope_of(alloc: Global, bytes: &[u8]) -> Result<Scope, AllocError> {
    match Scope::from_cbor(alloc, bytes) {
        Ok(scope) => Ok(scope),
        Err(_) => Err(AllocError),
    }
}
