//! AES-CCM with tags of 8 and of 16 bytes (RFC 3610). What is written goes to the beginning of bytes that the row gives.

use crate::line::Line;
use crate::words::Word;
use osc_ccm::{Aead, Ccm, OpenError, SealError};
use std::alloc::Global;

/// `ccm_seal TAG OUT KEY NONCE AAD TEXT`: the sealed bytes, or the number of the refusal; and whether the rest of OUT is as before.
pub fn sealed(alloc: Global, words: &[Word<'_>], line: &mut Line) -> Option<()> {
    let [tag, before, words @ ..] = words else {
        return None;
    };
    let (tag, before) = (tag.number()?, before.bytes()?);
    let mut out = Vec::from_slice(alloc, before).ok()?;
    let sealed = match tag {
        8 => seal_under::<Ccm<8>>(words, &mut out)?,
        16 => seal_under::<Ccm<16>>(words, &mut out)?,
        _ => return None,
    };
    match sealed {
        Ok(count) => write_out(count, before, &out, line),
        Err(error) => write_refusal(error.number(), before, &out, line),
    }
    Some(())
}

/// What comes of sealing with `KEY NONCE AAD TEXT`.
fn seal_under<A: Aead>(words: &[Word<'_>], out: &mut [u8]) -> Option<Result<usize, SealError>> {
    let [key, nonce, aad, text] = words else {
        return None;
    };
    let (key, nonce, aad, text) = (key.key()?, nonce.iv()?, aad.bytes()?, text.bytes()?);
    Some(A::from_key(&key).seal(&nonce, aad, text, out))
}

/// `ccm_open TAG OUT KEY NONCE AAD SEALED`: the text, or the number of the refusal; and whether the rest of OUT is as before.
pub fn opened(alloc: Global, words: &[Word<'_>], line: &mut Line) -> Option<()> {
    let [tag, before, words @ ..] = words else {
        return None;
    };
    let (tag, before) = (tag.number()?, before.bytes()?);
    let mut out = Vec::from_slice(alloc, before).ok()?;
    let opened = match tag {
        8 => open_under::<Ccm<8>>(words, &mut out)?,
        16 => open_under::<Ccm<16>>(words, &mut out)?,
        _ => return None,
    };
    match opened {
        Ok(count) => write_out(count, before, &out, line),
        Err(error) => write_refusal(error.number(), before, &out, line),
    }
    Some(())
}

/// What comes of opening with `KEY NONCE AAD SEALED`.
fn open_under<A: Aead>(words: &[Word<'_>], out: &mut [u8]) -> Option<Result<usize, OpenError>> {
    let [key, nonce, aad, sealed] = words else {
        return None;
    };
    let (key, nonce, aad, sealed) = (key.key()?, nonce.iv()?, aad.bytes()?, sealed.bytes()?);
    Some(A::from_key(&key).open(&nonce, aad, sealed, out))
}

/// `ccm_reopen OTHER OUT SPACE KEY NONCE AAD TEXT`: what the text is sealed to, in SPACE and with a tag of 8 bytes, is opened with other
/// associated data. The text, or the number of the refusal; and whether the rest of OUT is as before.
pub fn reopened(alloc: Global, words: &[Word<'_>], line: &mut Line) -> Option<()> {
    let [other, before, space, words @ ..] = words else {
        return None;
    };
    let (other, before) = (other.bytes()?, before.bytes()?);
    let mut sealed = Vec::from_slice(alloc, space.bytes()?).ok()?;
    let count = seal_under::<Ccm<8>>(words, &mut sealed)?.ok()?;
    let mut out = Vec::from_slice(alloc, before).ok()?;
    match open_again(other, sealed.get(..count)?, words, &mut out)? {
        Ok(count) => write_out(count, before, &out, line),
        Err(error) => write_refusal(error.number(), before, &out, line),
    }
    Some(())
}

/// What comes of opening with this associated data and `KEY NONCE ..`.
fn open_again(
    aad: &[u8],
    sealed: &[u8],
    words: &[Word<'_>],
    out: &mut [u8],
) -> Option<Result<usize, OpenError>> {
    let [key, nonce, ..] = words else {
        return None;
    };
    let (key, nonce) = (key.key()?, nonce.iv()?);
    Some(Ccm::<8>::from_key(&key).open(&nonce, aad, sealed, out))
}

/// Writes the first bytes, and whether the others are as before.
fn write_out(count: usize, before: &[u8], out: &[u8], line: &mut Line) {
    match out.get(..count) {
        Some(written) => line.short_bytes(written),
        None => line.text("none"),
    }
    line.test(out.get(count..) == before.get(count..));
}

/// Writes the number of a refusal, and whether all bytes are as before.
fn write_refusal(number: u8, before: &[u8], out: &[u8], line: &mut Line) {
    line.number(number.into());
    line.test(out == before);
}
