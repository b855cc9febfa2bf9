//! Names of security contexts (RFC 8613 section 3).

use crate::algorithm::Algorithm;
use crate::bytes::Bytes;
use std::fmt;

/// What a security context is derived from. Two contexts are the same exactly where their names are equal.
#[derive(PartialEq, Eq, Clone)]
pub struct ContextName {
    /// The master secret.
    pub secret: Bytes,
    /// The master salt: salt and both nonces, each as a CBOR byte string (RFC 9203 section 4.3).
    pub salt: Bytes,
    /// The id context, which a client may name in its requests (RFC 8613 section 3.1).
    pub id_context: Option<Bytes>,
    /// The client's sender ID, 0 to 7 bytes.
    pub client_id: Bytes,
    /// The server's sender ID, 0 to 7 bytes.
    pub server_id: Bytes,
    /// The AEAD algorithm.
    pub alg: Algorithm,
}

impl Drop for ContextName {
    fn drop(self) {
        let ContextName {
            secret: _,
            salt: _,
            id_context: _,
            client_id: _,
            server_id: _,
            alg: _,
        } = self;
    }
}

// The secret isn't printed.
impl fmt::Debug for ContextName {
    fn fmt<W: fmt::Write>(&self, f: &mut fmt::Formatter<W>) -> fmt::Result {
        f.write_str("ContextName")
    }
}

/// One of the two ends of a security context.
#[derive(Clone, Copy, Debug, PartialEq, Eq)]
pub enum Side {
    /// Who sends requests.
    Client,
    /// Who answers them.
    Server,
}
