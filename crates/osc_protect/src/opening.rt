//! The opening of a payload: no memory is taken before it is known to be genuine.

ghost use Rattle.std.specs.Prelude.{◌≡◌, ◌↔◌, ◌≤◌, ◌<◌, ◌⊎◌, ℕ, List, length, take, IsErr, IsNone, IfOk, IfSome, IfNone};
ghost use Rattle.osc_context.specs.{algorithm_of, longest_id, greatest_number};
ghost use Rattle.osc_protect.specs.Aad.{aad_of};
ghost use Rattle.osc_protect.specs.Protection.{longest_message, note_of, IsGenuine};

use crate::aad::associated_data;
use osc_ccm::Ciphers;
use osc_coap::DATAGRAM_LIMIT;
use osc_model::{Algorithm, Bytes, Note, SharedName, Side};
use std::alloc::{AllocError, Global};

/// One use of a key, to open.
#[derive(Clone, Copy)]
pub(crate) struct KeyUse {
    /// The end that opens.
    pub(crate) side: Side,
    /// The request's number.
    pub(crate) number: u64,
    pub(crate) nonce: [u8; 13],
}

/// Writes the text of which these bytes are the sealing to the beginning of `out`, and answers how long it is; `None` exactly
/// where they are the sealing of none.
fn open_text<A: Ciphers>(
    algorithm: Algorithm,
    key: &[u8; 16],
    nonce: &[u8; 13],
    aad: &[u8],
    sealed: &[u8],
    out: &mut [u8],
) -> Option<usize>
    requires room { length sealed.now ≤ length out.old }
    ensures opened { IfSome result (λ count. A.is_sealing algorithm key.now nonce.now aad.now (take count out.new) sealed.now) }
    ensures count { IfSome result (λ count. count ≤ length out.new) }
    ensures not_genuine { IfNone result ((text : List ℕ) → ¬ A.is_sealing algorithm key.now nonce.now aad.now text sealed.now) }
{
    A::open(algorithm, key, nonce, aad, sealed, out).ok()
}

/// The text of which these bytes are the sealing, if they are one of a message's length: opened on the stack, and copied.
fn text_of_message<A: Ciphers>(
    alloc: Global,
    algorithm: Algorithm,
    key: &[u8; 16],
    nonce: &[u8; 13],
    aad: &[u8],
    sealed: &[u8],
) -> Result<Option<Bytes>, AllocError>
    requires { length sealed.now ≤ longest_message }
    ensures opened { IfOk result (λ found. IfSome found (λ text. A.is_sealing algorithm key.now nonce.now aad.now text sealed.now)) }
    ensures not_genuine { IfOk result (λ found. IfNone found ((text : List ℕ) → ¬ A.is_sealing algorithm key.now nonce.now aad.now text sealed.now)) }
    ensures memory { IsErr result → IsGenuine (A.is_sealing algorithm) key.now nonce.now aad.now sealed.now }
{
    let mut text = [0; DATAGRAM_LIMIT];
    match open_text::<A>(algorithm, key, nonce, aad, sealed, &mut text) {
        Some(count) => Ok(Some(Bytes::from_slice(alloc, &text[..count])?)),
        None => Ok(None),
    }
}

/// The same of more bytes than a message can hold: opened where there is room for all of them.
fn longer_text<A: Ciphers>(
    alloc: Global,
    algorithm: Algorithm,
    key: &[u8; 16],
    nonce: &[u8; 13],
    aad: &[u8],
    sealed: &[u8],
) -> Result<Option<Bytes>, AllocError>
    ensures opened { IfOk result (λ found. IfSome found (λ text. A.is_sealing algorithm key.now nonce.now aad.now text sealed.now)) }
    ensures not_genuine { IfOk result (λ found. IfNone found ((text : List ℕ) → ¬ A.is_sealing algorithm key.now nonce.now aad.now text sealed.now)) }
{
    let mut text = Vec::from_slice(alloc, sealed)?;
    match open_text::<A>(algorithm, key, nonce, aad, sealed, text.as_mut_slice()) {
        Some(count) => {
            text.truncate(count);
            Ok(Some(Bytes::from_vec(text)))
        }
        None => Ok(None),
    }
}

/// The text of which these bytes are the sealing, if they are one.
fn text_of<A: Ciphers>(
    alloc: Global,
    algorithm: Algorithm,
    key: &[u8; 16],
    nonce: &[u8; 13],
    aad: &[u8],
    sealed: &[u8],
) -> Result<Option<Bytes>, AllocError>
    ensures opened { IfOk result (λ found. IfSome found (λ text. A.is_sealing algorithm key.now nonce.now aad.now text sealed.now)) }
    ensures not_genuine { IfOk result (λ found. IfNone found ((text : List ℕ) → ¬ A.is_sealing algorithm key.now nonce.now aad.now text sealed.now)) }
    ensures memory { IsErr result → IsGenuine (A.is_sealing algorithm) key.now nonce.now aad.now sealed.now ⊎ (longest_message < length sealed.now) }
{
    if sealed.len() <= DATAGRAM_LIMIT {
        text_of_message::<A>(alloc, algorithm, key, nonce, aad, sealed)
    } else {
        longer_text::<A>(alloc, algorithm, key, nonce, aad, sealed)
    }
}

/// The note of the opening of a payload; `None` exactly where it is the sealing of no text.
pub(crate) fn open<A: Ciphers>(
    alloc: Global,
    name: &SharedName,
    key: &[u8; 16],
    used: KeyUse,
    sealed: &[u8],
) -> Result<Option<Note>, AllocError>
    requires id { length name.now.client_id ≤ longest_id }
    requires number { used.number ≤ greatest_number }
    ensures opened { IfOk result (λ opened. IfSome opened (λ note.
        A.is_sealing (algorithm_of name.now) key.now used.nonce (aad_of name.now used.number) note.plaintext sealed.now)) }
    ensures noted { IfOk result (λ opened. IfSome opened (λ note.
        note ≡ note_of name.now used.side used.number used.nonce note.plaintext)) }
    ensures not_genuine { IfOk result (λ opened. IfNone opened
        ((text : List ℕ) → ¬ A.is_sealing (algorithm_of name.now) key.now used.nonce (aad_of name.now used.number) text sealed.now)) }
    ensures memory { IsErr result
        → IsGenuine (A.is_sealing (algorithm_of name.now)) key.now used.nonce (aad_of name.now used.number) sealed.now ⊎ (longest_message < length sealed.now) }
{
    let algorithm = osc_context::algorithm_of(name);
    let aad = associated_data(name, used.number);
    match text_of::<A>(alloc, algorithm, key, &used.nonce, aad.as_slice(), sealed)? {
        Some(plaintext) => Ok(Some(Note {
            context: name.clone()?,
            side: used.side,
            number: used.number,
            nonce: used.nonce,
            aad,
            plaintext,
        })),
        None => Ok(None),
    }
}
