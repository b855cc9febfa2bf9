//! What stays from row to row.

use osc_authz::ServerDesk;
use osc_message::{Endpoint, MOST_OPEN};
use osc_token::Audience;
use std::alloc::{AllocError, Global};

/// The key that a server shares with the issuer of its tokens.
pub const KEY: [u8; 16] = *b"@ABCDEFGHIJKLMNO";

/// The message layer of a node, and the desk at authz-info of a server.
pub struct Nodes {
    pub endpoint: Endpoint<MOST_OPEN>,
    pub desk: ServerDesk,
}

impl Drop for Nodes {
    fn drop(self) {
        let Nodes {
            endpoint: _,
            desk: _,
        } = self;
    }
}

impl Nodes {
    /// Nothing was heard yet, and no token was posted.
    pub fn new(alloc: Global) -> Result<Nodes, AllocError> {
        let audience = Audience::new(alloc, "s")?;
        Ok(Nodes {
            endpoint: Endpoint::new(alloc)?,
            desk: ServerDesk::new(alloc, KEY, audience),
        })
    }
}
