//! Protected headers.

ghost use Rattle.std.specs.Prelude.{◌≡◌, ◌↔◌, Some, IsTrue};
ghost use Rattle.osc_cbor.specs.{unsigned};
ghost use Rattle.osc_cbor.specs.Parts as part;
ghost use Rattle.osc_cose.specs.Encrypt0.{IsProtected, NamesAlgorithm};

use osc_cbor::{ItemRef, is_whole_map};

/// The algorithm AES-CCM-16-64-128 (RFC 9053 section 4.2).
const ALGORITHM: u64 = 10;

/// The label of the algorithm in a header (RFC 9052 section 3.1).
const ALGORITHM_LABEL: u64 = 1;

/// Whether the bytes are a protected header: empty, or one whole map. No memory is taken.
pub(crate) fn is_protected(bytes: &[u8]) -> bool
    ensures { IsTrue result ↔ IsProtected bytes.now }
{
    bytes.is_empty() || is_whole_map(bytes)
}

/// Whether the bytes are a protected header that names no other algorithm than AES-CCM-16-64-128. No memory is taken.
pub fn names_algorithm(bytes: &[u8]) -> bool
    ensures { IsTrue result ↔ NamesAlgorithm bytes.now }
{
    if bytes.is_empty() {
        return true;
    }
    match ItemRef::whole(bytes) {
        Some(item) => has_algorithm(&item),
        None => false,
    }
}

/// Whether the item is a map with the algorithm's number under its label.
fn has_algorithm(item: &ItemRef<'_>) -> bool
    ensures { IsTrue result ↔ (part.value 1 item.now ≡ Some (unsigned 10)) }
{
    match item.value(ALGORITHM_LABEL) {
        Some(value) => value.as_unsigned() == Some(ALGORITHM),
        None => false,
    }
}
