//! The value of a resource.
use crate::bytes::Bytes;

/// What a path has in the tree.
#[derive(Clone, Debug, PartialEq, Eq, Drop)]
pub struct Resource {
    /// The Content-Format, if it has one (RFC 7252 section 12.3).
    pub format: Option<u16>,
    /// The bytes, at most 512 in a tree.
    pub payload: Bytes,
}
