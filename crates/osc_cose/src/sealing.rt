//! Sealing.

ghost use Rattle.std.specs.Prelude.{◌≡◌, length, IfOk, Ok, Err, None, Some};
ghost use Rattle.osc_ccm.specs.{IsTooLong};
ghost use Rattle.osc_cose.specs.Encrypt0.{enc_structure as structure};

use crate::encrypt0::Encrypt0;
use crate::error::SealEncrypt0Error;
use crate::structure::enc_structure;
use osc_ccm::Aead;
use osc_model::Bytes;
use std::alloc::Global;

/// The object of a text under key and nonce, with this protected header and external associated data. It has no kid, and
/// the nonce as its IV.
///
/// A nonce is used for one text alone under a key.
///
/// # Errors
///
/// `TooLong` where the text is longer than 65535 bytes or the associated data longer than 65279: no such text has a sealing.
/// `Memory` for lack of memory.
pub fn seal0<A: Aead>(
    alloc: Global,
    key: &[u8; 16],
    nonce: &[u8; 13],
    protected: &[u8],
    external_aad: &[u8],
    text: &[u8],
) -> Result<Encrypt0, SealEncrypt0Error>
    ensures sealed { IfOk result (λ object.
        A.is_sealing key.now nonce.now (structure protected.now external_aad.now) text.now object.ciphertext) }
    ensures header { IfOk result (λ object.
        (object.protected ≡ protected.now) × (object.kid ≡ None) × (object.iv ≡ Some nonce.now)) }
    ensures too_long { result ≡ Err SealEncrypt0Error.TooLong
        → IsTooLong (length text.now) (length (structure protected.now external_aad.now)) }
{
    let mut aad = Vec::new(alloc);
    enc_structure(protected, external_aad, &mut aad)?;
    let ciphertext = seal_text::<A>(alloc, key, nonce, &aad, text)?;
    Ok(Encrypt0 {
        protected: Bytes::from_slice(alloc, protected)?,
        kid: None,
        iv: Some(Bytes::from_slice(alloc, nonce)?),
        ciphertext,
    })
}

/// The sealing of a text with this associated data.
fn seal_text<A: Aead>(
    alloc: Global,
    key: &[u8; 16],
    nonce: &[u8; 13],
    aad: &[u8],
    text: &[u8],
) -> Result<Bytes, SealEncrypt0Error>
    ensures sealed { IfOk result (λ sealed. A.is_sealing key.now nonce.now aad.now text.now sealed) }
    ensures too_long { result ≡ Err SealEncrypt0Error.TooLong → IsTooLong (length text.now) (length aad.now) }
{
    let mut sealed = vec![in alloc; 0; text.len() + A::TAG]?;
    match A::from_key(key).seal(nonce, aad, text, &mut sealed) {
        Ok(_) => Ok(Bytes::from_vec(sealed)),
        Err(osc_ccm::SealError::TooLong) => Err(SealEncrypt0Error::TooLong),
        Err(osc_ccm::SealError::OutTooSmall) => unreachable!(),
    }
}
