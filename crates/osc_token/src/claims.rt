//! Claims.

use crate::audience::Audience;
use osc_model::{Algorithm, Bytes};
use std::fmt;

/// What the security contexts of a token's holder are derived from (OSCORE_Input_Material, RFC 9203 section 3.2.1).
#[derive(Clone, PartialEq, Eq, Drop)]
pub struct InputMaterial {
    /// The id of the material, by which the token is named: 0 to 64 bytes.
    pub id: Bytes,
    /// The master secret: 1 to 64 bytes.
    pub secret: Bytes,
    /// The salt that master salts begin with: 0 to 64 bytes; empty where the token has none.
    pub salt: Bytes,
    /// The id context: 0 to 64 bytes, where there is one.
    pub id_context: Option<Bytes>,
    /// The AEAD algorithm of the contexts.
    pub alg: Algorithm,
}

// The secret isn't printed.
impl fmt::Debug for InputMaterial {
    fn fmt<W: fmt::Write>(&self, f: &mut fmt::Formatter<W>) -> fmt::Result {
        f.write_str("InputMaterial")
    }
}

/// What a token claims (RFC 8392 section 3.1).
#[derive(Clone, PartialEq, Eq, Drop)]
pub struct Claims {
    /// For whom the token is.
    pub audience: Audience,
    /// From when on it counts, in whole seconds; from ever where there is none.
    pub not_before: Option<u64>,
    /// From when on it counts no more, in whole seconds; never where there is none.
    pub expires: Option<u64>,
    /// What the holder's contexts are derived from (the claim cnf, RFC 8747).
    pub material: InputMaterial,
    /// What the holder may do, as the bytes of a scope (RFC 9200 section 5.8.1).
    pub scope: Bytes,
}

// Claims are a token's plaintext, and aren't printed.
impl fmt::Debug for Claims {
    fn fmt<W: fmt::Write>(&self, f: &mut fmt::Formatter<W>) -> fmt::Result {
        f.write_str("Claims")
    }
}
