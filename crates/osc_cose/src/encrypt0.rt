//! COSE_Encrypt0 objects.

use osc_model::Bytes;

/// A COSE_Encrypt0 object (RFC 9052 section 5.2), as far as it is used.
#[derive(Debug, Clone, PartialEq, Eq, Drop)]
pub struct Encrypt0 {
    /// The protected header as its bytes: empty, or the CBOR of a map.
    pub protected: Bytes,
    /// The key identifier, of the unprotected header.
    pub kid: Option<Bytes>,
    /// The initialisation vector, of the unprotected header.
    pub iv: Option<Bytes>,
    /// The ciphertext with its tag.
    pub ciphertext: Bytes,
}
