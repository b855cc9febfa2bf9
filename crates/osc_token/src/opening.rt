//! Opening tokens.

ghost use Rattle.std.specs.Prelude.{◌≡◌, ◌≢◌, ◌⊎◌, ◌↔◌, ℕ, List, [], length, IfOk, IfSome, IsErr, Ok, Err, Some, None};
ghost use Rattle.osc_cbor.specs.{DataItem, IsWhole};
ghost use Rattle.osc_cose.specs.{IsObject, NamesAlgorithm, enc_structure as structure};
ghost use Rattle.osc_cose.specs.declared.encrypt0.Encrypt0.{Encrypt0 as AnyObject};
ghost use Rattle.osc_token.specs.Inner.Opening.{HoldsText, answer_of, has_tag as is_tagged};
ghost use Rattle.osc_token.specs.Token.{IsToken, token_name, token_note, without_cwt_tag as unwrapped};

use osc_cbor::ItemRef;
use osc_ccm::Aead;
use osc_cose::{Encrypt0, OpenEncrypt0Error, ParseEncrypt0Error, enc_structure, object_of, open0};
use osc_model::{Algorithm, AssociatedData, Bytes, ContextName, Note, SharedName, Side};
use std::alloc::{AllocError, Global};

/// The tag of a CWT (RFC 8392 section 6).
const CWT_TAG: u64 = 61;

/// The tag of COSE_Encrypt0 (RFC 9052 section 2).
const ENCRYPT0_TAG: u64 = 16;

/// Opens a token under the key that its issuer and the server share, and answers the note of the opening, whose plaintext
/// is the text of the claims; none where the token isn't genuine. A token is a COSE_Encrypt0 object, with or without the
/// tag 16, and that with or without the tag 61 round it, whose protected header has the algorithm AES-CCM-16-64-128 and
/// whose IV has 13 bytes, and whose ciphertext is the sealing of a text. Other header parameters are ignored. An error is
/// lack of memory, and comes only where the bytes are one whole item of CBOR.
pub fn open_token<A: Aead>(
    alloc: Global,
    bytes: &[u8],
    key: &[u8; 16],
) -> Result<Option<Note>, AllocError>
    // What opens is a token of the text ..
    ensures opened { IfOk result (λ found. IfSome found (λ note. (protected iv text : List ℕ)
        × IsToken A.is_sealing key.now bytes.now protected iv text × (note ≡ token_note key.now protected iv text))) }
    // .. and each token opens.
    ensures only { (protected iv text : List ℕ) → IsToken A.is_sealing key.now bytes.now protected iv text
        → IfOk result (λ found. found ≡ Some (token_note key.now protected iv text)) }
    ensures memory { IsErr result → (d : DataItem) × IsWhole bytes.now d }
{
    match object_in(alloc, bytes)? {
        Some(object) => open_object::<A>(alloc, &object, key),
        None => Ok(None),
    }
}

/// The object that the bytes are, with or without the tag of a CWT.
fn object_in(alloc: Global, bytes: &[u8]) -> Result<Option<Encrypt0>, AllocError>
    ensures found { IfOk result (λ found. IfSome found (λ object.
        (d : DataItem) × IsWhole bytes.now d × IsObject (unwrapped d) object)) }
    ensures only { (d : DataItem) (object : AnyObject) → IsWhole bytes.now d → IsObject (unwrapped d) object
        → IfOk result (λ found. found ≡ Some object) }
    ensures memory { IsErr result → (d : DataItem) × IsWhole bytes.now d }
{
    match ItemRef::whole(bytes) {
        Some(item) => object_found(object_of(alloc, &without_cwt_tag(&item))),
        None => Ok(None),
    }
}

/// The object, where one was found. An error is lack of memory, which is the answer there alone.
fn object_found(found: Result<Encrypt0, ParseEncrypt0Error>) -> Result<Option<Encrypt0>, AllocError>
    ensures answer { IfOk result (λ object. object ≡ answer_of found) }
    ensures memory { IsErr result ↔ (found ≡ Err ParseEncrypt0Error.Memory) }
{
    match found {
        Ok(object) => Ok(Some(object)),
        Err(ParseEncrypt0Error::Shape) => Ok(None),
        Err(ParseEncrypt0Error::Memory) => Err(AllocError),
    }
}

/// The item without the tag of a CWT, where that is round the tag of COSE_Encrypt0.
fn without_cwt_tag<'a>(item: &ItemRef<'a>) -> ItemRef<'a>
    ensures { result ≡ unwrapped item.now }
{
    match item.as_tag() {
        Some((number, inner)) if number == CWT_TAG && has_tag(&inner, ENCRYPT0_TAG) => inner,
        _ => item.reborrow(),
    }
}

/// Whether the item is one under this tag.
fn has_tag(item: &ItemRef<'_>, tag: u64) -> bool
    ensures { result ≡ is_tagged tag item.now }
{
    match item.as_tag() {
        Some((number, _)) => number == tag,
        None => false,
    }
}

/// The note of the opening of a token's object.
fn open_object<A: Aead>(
    alloc: Global,
    object: &Encrypt0,
    key: &[u8; 16],
) -> Result<Option<Note>, AllocError>
    ensures opened { IfOk result (λ found. IfSome found (λ note. (iv text : List ℕ)
        × HoldsText A.is_sealing key.now object.now iv text × (note ≡ token_note key.now object.now.protected iv text))) }
    ensures only { (iv text : List ℕ) → HoldsText A.is_sealing key.now object.now iv text
        → IfOk result (λ found. found ≡ Some (token_note key.now object.now.protected iv text)) }
    // Where header or IV are others, no memory is taken.
    ensures plain { (object.now.protected ≡ []) ⊎ ((iv : List ℕ) → object.now.iv ≡ Some iv → length iv ≢ 13) → result ≡ Ok None }
{
    if object.protected.is_empty() {
        return Ok(None);
    }
    let Some(iv) = iv_of(object) else {
        return Ok(None);
    };
    match open_text::<A>(alloc, object, key, iv)? {
        Some(text) => Ok(Some(note(alloc, key, object.protected.as_slice(), iv, text)?)),
        None => Ok(None),
    }
}

/// The object's IV, where it has one of 13 bytes.
fn iv_of(object: &Encrypt0) -> Option<&[u8; 13]>
    ensures found { IfSome result (λ iv. (object.now.iv ≡ Some iv.now) × (length iv.now ≡ 13)) }
    ensures only { (iv : List ℕ) → object.now.iv ≡ Some iv → length iv ≡ 13 → result ≢ None }
{
    object.iv.as_ref()?.as_slice().try_into().ok()
}

/// The text of the object's ciphertext, where it is the sealing of one.
fn open_text<A: Aead>(
    alloc: Global,
    object: &Encrypt0,
    key: &[u8; 16],
    iv: &[u8; 13],
) -> Result<Option<Bytes>, AllocError>
    ensures opened { IfOk result (λ found. IfSome found (λ text. NamesAlgorithm object.now.protected
        × A.is_sealing key.now iv.now (structure object.now.protected []) text object.now.ciphertext)) }
    ensures only { (text : List ℕ) → NamesAlgorithm object.now.protected
        → A.is_sealing key.now iv.now (structure object.now.protected []) text object.now.ciphertext
        → IfOk result (λ found. found ≡ Some text) }
{
    text_opened(open0::<A>(alloc, object, key, iv, b""))
}

/// The text, where one was opened. An error is lack of memory, which is the answer there alone.
fn text_opened(opened: Result<Bytes, OpenEncrypt0Error>) -> Result<Option<Bytes>, AllocError>
    ensures answer { IfOk result (λ text. text ≡ answer_of opened) }
    ensures memory { IsErr result ↔ (opened ≡ Err OpenEncrypt0Error.Memory) }
{
    match opened {
        Ok(text) => Ok(Some(text)),
        Err(
            OpenEncrypt0Error::Algorithm
            | OpenEncrypt0Error::TooLong
            | OpenEncrypt0Error::NotGenuine,
        ) => Ok(None),
        Err(OpenEncrypt0Error::Memory) => Err(AllocError),
    }
}

/// The note of an opening.
fn note(
    alloc: Global,
    key: &[u8; 16],
    protected: &[u8],
    iv: &[u8; 13],
    text: Bytes,
) -> Result<Note, AllocError>
    ensures { IfOk result (λ note. note ≡ token_note key.now protected.now iv.now text) }
{
    let mut aad = Vec::new(alloc);
    enc_structure(protected, b"", &mut aad)?;
    Ok(Note {
        context: name_of(alloc, key)?,
        side: Side::Server,
        number: 0,
        nonce: *iv,
        aad: AssociatedData::from_bytes(Bytes::from_vec(aad)),
        plaintext: text,
    })
}

/// The name under which a token is opened, which has the key as its secret, the algorithm of tokens and nothing else.
fn name_of(alloc: Global, key: &[u8; 16]) -> Result<SharedName, AllocError>
    ensures { IfOk result (λ name. name ≡ token_name key.now) }
{
    let name = ContextName {
        secret: Bytes::from_slice(alloc, key)?,
        salt: Bytes::new(alloc),
        id_context: None,
        client_id: Bytes::new(alloc),
        server_id: Bytes::new(alloc),
        alg: Algorithm::EightByteTag,
    };
    SharedName::new(alloc, name)
}
