//! COSE_Encrypt0 objects (RFC 9052 section 5.2).

use crate::line::Line;
use crate::words::Word;
use osc_ccm::Ccm;
use osc_cose::{Encrypt0, enc_structure, open0, parse0, seal0};
use osc_model::Bytes;
use std::alloc::Global;

/// `encrypt0 BYTES`: the object's parts, or the number of the refusal.
pub fn parsed(alloc: Global, words: &[Word<'_>], line: &mut Line) -> Option<()> {
    let [bytes] = words else {
        return None;
    };
    match parse0(alloc, bytes.bytes()?) {
        Ok(object) => write_object(&object, line),
        Err(error) => line.number(error.number().into()),
    }
    Some(())
}

/// Writes the protected header, the kid, the IV and the ciphertext.
fn write_object(object: &Encrypt0, line: &mut Line) {
    line.bytes(object.protected.as_slice());
    write_some(&object.kid, line);
    write_some(&object.iv, line);
    line.bytes(object.ciphertext.as_slice());
}

fn write_some(bytes: &Option<Bytes>, line: &mut Line) {
    match bytes {
        Some(bytes) => line.bytes(bytes.as_slice()),
        None => line.text("none"),
    }
}

/// `enc_structure PROTECTED EXTERNAL_AAD` (section 5.3).
pub fn structure(alloc: Global, words: &[Word<'_>], line: &mut Line) -> Option<()> {
    let [protected, external_aad] = words else {
        return None;
    };
    let (protected, external_aad) = (protected.bytes()?, external_aad.bytes()?);
    let mut out = Vec::new(alloc);
    enc_structure(protected, external_aad, &mut out).ok()?;
    line.bytes(&out);
    Some(())
}

/// `seal0 KEY NONCE PROTECTED EXTERNAL_AAD TEXT`: the parts of the object that is made.
pub fn sealed(alloc: Global, words: &[Word<'_>], line: &mut Line) -> Option<()> {
    let [key, nonce, protected, external_aad, text] = words else {
        return None;
    };
    let (key, nonce, protected) = (key.key()?, nonce.iv()?, protected.bytes()?);
    let (external_aad, text) = (external_aad.bytes()?, text.bytes()?);
    let object = seal0::<Ccm<8>>(alloc, &key, &nonce, protected, external_aad, text);
    write_object(&object.ok()?, line);
    Some(())
}

/// `open0 KEY NONCE PROTECTED EXTERNAL_AAD CIPHERTEXT`: the text, or the number of the refusal.
pub fn opened(alloc: Global, words: &[Word<'_>], line: &mut Line) -> Option<()> {
    let [key, nonce, protected, external_aad, ciphertext] = words else {
        return None;
    };
    let (key, nonce, external_aad) = (key.key()?, nonce.iv()?, external_aad.bytes()?);
    let object = object_of(alloc, protected, ciphertext)?;
    match open0::<Ccm<8>>(alloc, &object, &key, &nonce, external_aad) {
        Ok(text) => line.bytes(text.as_slice()),
        Err(error) => line.number(error.number().into()),
    }
    Some(())
}

/// An object with neither kid nor IV.
fn object_of(alloc: Global, protected: &Word<'_>, ciphertext: &Word<'_>) -> Option<Encrypt0> {
    Some(Encrypt0 {
        protected: protected.copied(alloc)?,
        kid: None,
        iv: None,
        ciphertext: ciphertext.copied(alloc)?,
    })
}
