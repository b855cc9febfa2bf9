//! Opening.

ghost use Rattle.std.specs.Prelude.{◌≡◌, ◌≢◌, ◌⊎◌, ◌↔◌, ◌+◌, ◌-◌, ◌≤◌, ℕ, List, length, take, IfOk, OnErr, Ok, Err};
ghost use Rattle.osc_ccm.specs.{IsInRange, IsTooLong};
ghost use Rattle.osc_cose.specs.Encrypt0.{IsProtected, NamesAlgorithm, enc_structure as structure};

use crate::encrypt0::Encrypt0;
use crate::error::OpenEncrypt0Error;
use crate::protected::names_algorithm;
use crate::structure::enc_structure;
use osc_ccm::Aead;
use osc_model::Bytes;
use std::alloc::Global;

/// The text of which the object's ciphertext is the sealing, under this key and nonce and with this external associated
/// data.
///
/// # Errors
///
/// The first of these that applies, but for `Memory`: `Algorithm` where the protected header isn't empty and is no map with
/// 10 under label 1; `TooLong` where the ciphertext or the associated data is longer than the cipher takes; `NotGenuine`
/// where the ciphertext is the sealing of no text. `Memory` only where the protected header is one: all room is taken before
/// the ciphertext is opened, by [`open0_into`].
pub fn open0<A: Aead>(
    alloc: Global,
    object: &Encrypt0,
    key: &[u8; 16],
    nonce: &[u8; 13],
    external_aad: &[u8],
) -> Result<Bytes, OpenEncrypt0Error>
    // What is opened was sealed so ..
    ensures opened { IfOk result (λ text.
        A.is_sealing key.now nonce.now (structure object.now.protected external_aad.now) text object.now.ciphertext) }
    ensures named { IfOk result (λ text. NamesAlgorithm object.now.protected) }
    // .. and what was sealed so is opened: this text and no other.
    ensures only { (text : List ℕ) → NamesAlgorithm object.now.protected
        → A.is_sealing key.now nonce.now (structure object.now.protected external_aad.now) text object.now.ciphertext
        → (result ≡ Ok text) ⊎ (result ≡ Err OpenEncrypt0Error.Memory) }
    ensures algorithm { result ≡ Err OpenEncrypt0Error.Algorithm → ¬ NamesAlgorithm object.now.protected }
    ensures too_long { result ≡ Err OpenEncrypt0Error.TooLong
        → NamesAlgorithm object.now.protected
        × IsTooLong (length object.now.ciphertext - A.TAG) (length (structure object.now.protected external_aad.now)) }
    ensures not_genuine { result ≡ Err OpenEncrypt0Error.NotGenuine
        → NamesAlgorithm object.now.protected
        × IsInRange (length object.now.ciphertext - A.TAG) (length (structure object.now.protected external_aad.now))
        × ((text : List ℕ) → ¬ A.is_sealing key.now nonce.now (structure object.now.protected external_aad.now) text object.now.ciphertext) }
    ensures memory { result ≡ Err OpenEncrypt0Error.Memory → IsProtected object.now.protected }
{
    let protected = object.protected.as_slice();
    if !names_algorithm(protected) {
        return Err(OpenEncrypt0Error::Algorithm);
    }
    let mut aad = Vec::new(alloc);
    enc_structure(protected, external_aad, &mut aad)?;
    open_text::<A>(alloc, object, key, nonce, &aad)
}

/// The text of an object's ciphertext, with this Enc_structure.
fn open_text<A: Aead>(
    alloc: Global,
    object: &Encrypt0,
    key: &[u8; 16],
    nonce: &[u8; 13],
    aad: &[u8],
) -> Result<Bytes, OpenEncrypt0Error>
    ensures opened { IfOk result (λ text. A.is_sealing key.now nonce.now aad.now text object.now.ciphertext) }
    ensures algorithm { ¬ (result ≡ Err OpenEncrypt0Error.Algorithm) }
    ensures too_long { result ≡ Err OpenEncrypt0Error.TooLong → IsTooLong (length object.now.ciphertext - A.TAG) (length aad.now) }
    ensures not_genuine { result ≡ Err OpenEncrypt0Error.NotGenuine
        → IsInRange (length object.now.ciphertext - A.TAG) (length aad.now)
        × ((text : List ℕ) → ¬ A.is_sealing key.now nonce.now aad.now text object.now.ciphertext) }
{
    let mut text = vec![in alloc; 0; object.ciphertext.len().saturating_sub(A::TAG)]?;
    match open0_into::<A>(object, key, nonce, aad, &mut text) {
        Ok(_) => Ok(Bytes::from_vec(text)),
        Err(error) => Err(error),
    }
}

/// Opens an object's ciphertext into room that was taken before: writes its text to the beginning of `out`, and answers its number
/// of bytes. `aad` is the object's Enc_structure, as [`enc_structure`] writes it; which algorithm the protected header names is
/// not judged, [`names_algorithm`] does it. No memory is taken.
///
/// # Errors
///
/// The first of these that applies; `out` is then as before: `TooLong` where the ciphertext or the associated data is longer than
/// the cipher takes; `NotGenuine` where the ciphertext is the sealing of no text.
pub fn open0_into<A: Aead>(
    object: &Encrypt0,
    key: &[u8; 16],
    nonce: &[u8; 13],
    aad: &[u8],
    out: &mut [u8],
) -> Result<usize, OpenEncrypt0Error>
    requires { length object.now.ciphertext - A.TAG ≤ length out.old }
    ensures opened { IfOk result (λ n. A.is_sealing key.now nonce.now aad.now (take n out.new) object.now.ciphertext) }
    ensures count { IfOk result (λ n. (n + A.TAG ≡ length object.now.ciphertext) × (n ≤ length out.new)) }
    ensures too_long { (result ≡ Err OpenEncrypt0Error.TooLong)
        ↔ IsTooLong (length object.now.ciphertext - A.TAG) (length aad.now) }
    ensures not_genuine { (result ≡ Err OpenEncrypt0Error.NotGenuine)
        ↔ (IsInRange (length object.now.ciphertext - A.TAG) (length aad.now)
        × ((text : List ℕ) → ¬ A.is_sealing key.now nonce.now aad.now text object.now.ciphertext)) }
    ensures algorithm { result ≢ Err OpenEncrypt0Error.Algorithm }
    ensures memory { result ≢ Err OpenEncrypt0Error.Memory }
    ensures refused { OnErr result (out.new ≡ out.old) }
{
    match A::from_key(key).open(nonce, aad, object.ciphertext.as_slice(), out) {
        Ok(count) => Ok(count),
        Err(osc_ccm::OpenError::TooLong) => Err(OpenEncrypt0Error::TooLong),
        Err(osc_ccm::OpenError::NotGenuine) => Err(OpenEncrypt0Error::NotGenuine),
        Err(osc_ccm::OpenError::OutTooSmall) => unreachable!(),
    }
}
