//! Reading COSE_Encrypt0 objects.

ghost use Rattle.std.specs.Prelude.{◌≡◌, ◌⊎◌, ℕ, List, Option, option_map, option_copied, IfOk, IfSome, Ok, Err, Some};
ghost use Rattle.osc_cbor.specs.{DataItem, byte_string, value_under, pairs_of, IsWhole};
ghost use Rattle.osc_cose.specs.Encrypt0.{IsObject};
ghost use Rattle.osc_cose.specs.Inner.Parts.{object_of_parts};
ghost use Rattle.osc_cose.specs.declared.encrypt0.Encrypt0.{Encrypt0 as AnyObject};

use crate::encrypt0::Encrypt0;
use crate::error::ParseEncrypt0Error;
use crate::parts::parts;
use crate::protected::is_protected;
use osc_cbor::{ItemRef, PairRefs, first_value};
use osc_model::Bytes;
use std::alloc::{AllocError, Global};

/// The label of the key identifier in a header (RFC 9052 section 3.1).
pub(crate) const KID: u64 = 4;

/// The label of the initialisation vector in a header (RFC 9052 section 3.1).
pub(crate) const IV: u64 = 5;

/// The object that the bytes are, all of them, as [`object_of`] finds it in their item.
///
/// # Errors
///
/// `Shape` where the bytes are no object, `Memory` for lack of memory, which comes only where they are one whole item.
pub fn parse0(alloc: Global, bytes: &[u8]) -> Result<Encrypt0, ParseEncrypt0Error>
    // What is read is such an object ..
    ensures found { IfOk result (λ object. (d : DataItem) × IsWhole bytes.now d × IsObject d object) }
    // .. and each such object is read.
    ensures only { (d : DataItem) (object : AnyObject) → IsWhole bytes.now d → IsObject d object
        → (result ≡ Ok object) ⊎ (result ≡ Err ParseEncrypt0Error.Memory) }
    ensures memory { result ≡ Err ParseEncrypt0Error.Memory → (d : DataItem) × IsWhole bytes.now d }
{
    match ItemRef::whole(bytes) {
        Some(item) => object_of(alloc, &item),
        None => Err(ParseEncrypt0Error::Shape),
    }
}

/// The object that the item is: `[protected, unprotected, ciphertext]`, with or without the tag 16. The protected header is a
/// byte string that is empty or holds a map, the unprotected one a map; kid and IV are byte strings where they are there;
/// other header parameters are ignored.
///
/// # Errors
///
/// `Shape` where the item is no object, `Memory` for lack of memory, which comes only where it is one.
pub fn object_of(alloc: Global, item: &ItemRef<'_>) -> Result<Encrypt0, ParseEncrypt0Error>
    // What is found is such an object ..
    ensures found { IfOk result (λ object. IsObject item.now object) }
    // .. and each such object is found.
    ensures only { (object : AnyObject) → IsObject item.now object
        → (result ≡ Ok object) ⊎ (result ≡ Err ParseEncrypt0Error.Memory) }
    ensures memory { result ≡ Err ParseEncrypt0Error.Memory → (object : AnyObject) × IsObject item.now object }
{
    let Some(parts) = parts(item) else {
        return Err(ParseEncrypt0Error::Shape);
    };
    if !is_protected(parts.protected) {
        return Err(ParseEncrypt0Error::Shape);
    }
    let (kid, iv) = labelled(parts.unprotected);
    let Some(kid) = parameter(kid) else {
        return Err(ParseEncrypt0Error::Shape);
    };
    let Some(iv) = parameter(iv) else {
        return Err(ParseEncrypt0Error::Shape);
    };
    Ok(object_with(alloc, parts.protected, kid, iv, parts.ciphertext)?)
}

/// The object of these parts.
fn object_with(
    alloc: Global,
    protected: &[u8],
    kid: Option<&[u8]>,
    iv: Option<&[u8]>,
    ciphertext: &[u8],
) -> Result<Encrypt0, AllocError>
    ensures { IfOk result (λ object. object ≡ object_of_parts protected.now (option_copied kid.entry) (option_copied iv.entry) ciphertext.now) }
{
    Ok(Encrypt0 {
        protected: Bytes::from_slice(alloc, protected)?,
        kid: copied(alloc, kid)?,
        iv: copied(alloc, iv)?,
        ciphertext: Bytes::from_slice(alloc, ciphertext)?,
    })
}

/// A copy of the bytes, where there are some.
fn copied(alloc: Global, bytes: Option<&[u8]>) -> Result<Option<Bytes>, AllocError>
    ensures { IfOk result (λ copy. copy ≡ option_copied bytes.entry) }
{
    match bytes {
        Some(bytes) => Ok(Some(Bytes::from_slice(alloc, bytes)?)),
        None => Ok(None),
    }
}

/// The items under the labels of kid and IV, in one pass over a header's pairs.
fn labelled<'a>(header: PairRefs<'a>) -> (Option<ItemRef<'a>>, Option<ItemRef<'a>>)
    ensures kid { result.0 ≡ value_under 4 (pairs_of header.entry) }
    ensures iv { result.1 ≡ value_under 5 (pairs_of header.entry) }
{
    let mut kid = None;
    let mut iv = None;
    let mut pairs = header;
    while let Some((label, value)) = pairs.next_labelled(KID, IV) {
        kid = first_value(kid, KID, label, &value);
        iv = first_value(iv, IV, label, &value);
    }
    (kid, iv)
}

/// The bytes of a header's parameter, where it is there; `None` where it is something else.
fn parameter<'a>(value: Option<ItemRef<'a>>) -> Option<Option<&'a [u8]>>
    ensures found { IfSome result (λ bytes. value.entry ≡ option_map byte_string (option_copied bytes)) }
    ensures only { (bytes : Option (List ℕ)) → value.entry ≡ option_map byte_string bytes
        → option_map (λ found. option_copied found) result ≡ Some bytes }
{
    match value {
        Some(value) => match value.as_bytes() {
            Some(bytes) => Some(Some(bytes)),
            None => None,
        },
        None => Some(None),
    }
}
