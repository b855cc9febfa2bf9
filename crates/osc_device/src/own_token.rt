//! What a device is made of.

use osc_model::{Bytes, Path};
use osc_scope::Scope;
use osc_token::Audience;
use osc_tree::Tree;
use std::fmt;

/// What a device's server is made of.
#[derive(Drop)]
pub struct ServerParts {
    /// The resources at first.
    pub tree: Tree,
    /// What needs no protection, of which GETs alone count.
    pub open_scope: Scope,
    /// The key that the server shares with who issues tokens for it.
    pub key: [u8; 16],
    /// Its former key, at a change of key, while tokens under that are about: a token that doesn't open under the key is opened under this one.
    pub old_key: Option<[u8; 16]>,
    /// For whom tokens are that the server takes.
    pub audience: Audience,
    /// The path below which a resource revokes a token, by the hexadecimal digits of the token's id ([`DeviceCalls::revoke`]); none where no token
    /// can be revoked.
    ///
    /// [`DeviceCalls::revoke`]: crate::DeviceCalls::revoke
    pub revoked: Option<Path>,
    /// How many seconds after the post that made it a context counts no more: what was held back on its way for longer is refused. Without a
    /// number a context counts as long as its token.
    pub context_seconds: Option<u32>,
    /// Whether a token's scope may reach what is below its paths: bit 16 of an entry's methods. RFC 9237 has FETCH there, so where an issuer
    /// may mean that, this is `false`: then a post of such a token is refused, and the device's own token has none.
    pub subtrees: bool,
}

/// The device's own token, which no other has: it is minted under the server's key, for its audience, and counts at all times.
#[derive(Drop)]
pub struct OwnToken {
    /// By what it is named: 0 to 64 bytes, which no other token has. Its place among those that may have a context at once is kept for it.
    pub id: Bytes,
    /// The master secret: 1 to 64 bytes of a generator that nobody can guess, which no other token has.
    pub secret: Bytes,
    /// What the device may do, as the bytes of a scope (`osc_scope::text_to_cbor` writes them).
    pub scope: Bytes,
    /// The IV under which the token is sealed: under a key, one is used for one token alone, so that a new secret wants a new one.
    pub iv: [u8; 13],
}

// The key isn't printed.
impl fmt::Debug for ServerParts {
    fn fmt<W: fmt::Write>(&self, f: &mut fmt::Formatter<W>) -> fmt::Result {
        f.write_str("ServerParts")
    }
}

// The secret isn't printed.
impl fmt::Debug for OwnToken {
    fn fmt<W: fmt::Write>(&self, f: &mut fmt::Formatter<W>) -> fmt::Result {
        f.write_str("OwnToken")
    }
}
