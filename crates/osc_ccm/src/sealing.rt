//! Sealing and opening with a tag of any lawful size (RFC 3610 sections 2.4 and 2.5).

ghost use Rattle.std.specs.Prelude.{◌≡◌, ◌↔◌, ℕ, ◌+◌, ◌-◌, ◌<◌, ◌≤◌, ◌++◌, IsTrue, IfOk, OnErr, List, length, take, drop};
ghost use Rattle.osc_model.specs.{datagram_limit};
ghost use Rattle.osc_ccm.specs.Limits.{IsInRange, IsTooLong};
ghost use Rattle.osc_ccm.specs.Ccm.{IsSealing, ciphered, sealing};

use crate::aead::{AAD_LIMIT, TEXT_LIMIT};
use crate::error::{OpenError, SealError};
use crate::{block, mac, pass, stream};
use osc_aes::Aes128;
use osc_model::limits::DATAGRAM_LIMIT;

/// Writes the bytes, encrypted or decrypted, to the beginning of `out`.
fn write_ciphered(cipher: &Aes128, nonce: &[u8; 13], bytes: &[u8], out: &mut [u8])
    requires short { length bytes.now ≤ 65535 }
    requires room { length bytes.now ≤ length out.old }
    ensures written { out.new ≡ ciphered cipher.now nonce.now bytes.now ++ drop (length bytes.now) out.old }
    ensures whole { length (ciphered cipher.now nonce.now bytes.now) ≡ length bytes.now }
{
    let part = &mut out[..bytes.len()];
    part.copy_from_slice(bytes);
    stream::cipher_in_place(cipher, nonce, part);
}

/// Writes a text's sealing to the beginning of `out`.
fn write_sealed(
    cipher: &Aes128,
    size: usize,
    nonce: &[u8; 13],
    aad: &[u8],
    text: &[u8],
    out: &mut [u8],
)
    requires low { 2 ≤ size }
    requires high { size ≤ 16 }
    requires range { IsInRange (length text.now) (length aad.now) }
    requires room { length text.now + size ≤ length out.old }
    ensures written { out.new
        ≡ sealing cipher.now size nonce.now aad.now text.now ++ drop (length text.now + size) out.old }
    ensures whole { length (sealing cipher.now size nonce.now aad.now text.now) ≡ length text.now + size }
{
    let part = &mut out[..text.len()];
    part.copy_from_slice(text);
    let block = pass::seal_in_place(cipher, size, nonce, aad, part);
    out[text.len()..text.len() + size].copy_from_slice(&block[..size]);
}

/// Seals a text.
pub fn seal(
    cipher: &Aes128,
    size: usize,
    nonce: &[u8; 13],
    aad: &[u8],
    text: &[u8],
    out: &mut [u8],
) -> Result<usize, SealError>
    requires low { 2 ≤ size }
    requires high { size ≤ 16 }
    ensures sealed { IfOk result (λ n. IsSealing cipher.now size nonce.now aad.now text.now (take n out.new)) }
    ensures count { IfOk result (λ n. (n ≡ length text.now + size) × (n ≤ length out.new)) }
    ensures rest { IfOk result (λ n. drop n out.new ≡ drop n out.old) }
    ensures too_long { (result ≡ Err SealError.TooLong) ↔ IsTooLong (length text.now) (length aad.now) }
    ensures out_too_small { (result ≡ Err SealError.OutTooSmall)
        ↔ (IsInRange (length text.now) (length aad.now)
        × (length out.old < length text.now + size)) }
    ensures refused { OnErr result (out.new ≡ out.old) }
{
    if text.len() > TEXT_LIMIT || aad.len() > AAD_LIMIT {
        return Err(SealError::TooLong);
    }
    let length = text.len() + size;
    if out.len() < length {
        return Err(SealError::OutTooSmall);
    }
    write_sealed(cipher, size, nonce, aad, text, out);
    Ok(length)
}

/// Whether the sealed bytes from `start` on are the beginning of a block, as a tag is.
fn ends_with(sealed: &[u8], start: usize, size: usize, block: &[u8; 16]) -> bool
    requires low { 2 ≤ size }
    requires high { size ≤ 16 }
    requires whole { start + size ≡ length sealed.now }
    ensures { IsTrue result ↔ (drop start sealed.now ≡ take size block.now) }
{
    block::is_same(&sealed[start..], &block[..size])
}

/// Whether the bytes are the sealing of the text that they decrypt to.
fn is_genuine(cipher: &Aes128, size: usize, nonce: &[u8; 13], aad: &[u8], sealed: &[u8]) -> bool
    requires low { 2 ≤ size }
    requires high { size ≤ 16 }
    requires long { size ≤ length sealed.now }
    requires range { IsInRange (length sealed.now - size) (length aad.now) }
    ensures { IsTrue result
        ↔ IsSealing cipher.now size nonce.now aad.now
        (ciphered cipher.now nonce.now (take (length sealed.now - size) sealed.now)) sealed.now }
{
    let length = sealed.len() - size;
    let block = mac::tag_of_ciphertext(cipher, size, nonce, aad, &sealed[..length]);
    ends_with(sealed, length, size, &block)
}

/// Writes the text of sealed bytes to the beginning of `out`, if they are the sealing of one: goes over them once to find
/// whether they are, and once more to decrypt them.
fn open_in_two_passes(
    cipher: &Aes128,
    size: usize,
    nonce: &[u8; 13],
    aad: &[u8],
    sealed: &[u8],
    out: &mut [u8],
) -> bool
    requires low { 2 ≤ size }
    requires high { size ≤ 16 }
    requires long { size ≤ length sealed.now }
    requires range { IsInRange (length sealed.now - size) (length aad.now) }
    requires room { length sealed.now - size ≤ length out.old }
    ensures genuine { IsTrue result
        ↔ IsSealing cipher.now size nonce.now aad.now
        (ciphered cipher.now nonce.now (take (length sealed.now - size) sealed.now)) sealed.now }
    ensures written { IsTrue result → out.new
        ≡ ciphered cipher.now nonce.now (take (length sealed.now - size) sealed.now)
        ++ drop (length sealed.now - size) out.old }
    ensures refused { ¬ IsTrue result → out.new ≡ out.old }
{
    let length = sealed.len() - size;
    if !is_genuine(cipher, size, nonce, aad, sealed) {
        return false;
    }
    write_ciphered(cipher, nonce, &sealed[..length], out);
    true
}

/// Writes the text of sealed bytes to the beginning of `out`, if they are the sealing of one. It is decrypted into a
/// buffer of this call's own, in one pass, and copied from there.
fn open_in_one_pass(
    cipher: &Aes128,
    size: usize,
    nonce: &[u8; 13],
    aad: &[u8],
    sealed: &[u8],
    out: &mut [u8],
) -> bool
    requires low { 2 ≤ size }
    requires high { size ≤ 16 }
    requires long { size ≤ length sealed.now }
    requires short { length sealed.now - size ≤ datagram_limit }
    requires range { IsInRange (length sealed.now - size) (length aad.now) }
    requires room { length sealed.now - size ≤ length out.old }
    ensures genuine { IsTrue result
        ↔ IsSealing cipher.now size nonce.now aad.now
        (ciphered cipher.now nonce.now (take (length sealed.now - size) sealed.now)) sealed.now }
    ensures written { IsTrue result → out.new
        ≡ ciphered cipher.now nonce.now (take (length sealed.now - size) sealed.now)
        ++ drop (length sealed.now - size) out.old }
    ensures refused { ¬ IsTrue result → out.new ≡ out.old }
{
    let length = sealed.len() - size;
    let mut buffer = [0; DATAGRAM_LIMIT];
    let text = &mut buffer[..length];
    text.copy_from_slice(&sealed[..length]);
    let block = pass::open_in_place(cipher, size, nonce, aad, text);
    if !ends_with(sealed, length, size, &block) {
        return false;
    }
    out[..length].copy_from_slice(text);
    true
}

/// Writes the text of sealed bytes to the beginning of `out`, if they are the sealing of one.
fn open_text(
    cipher: &Aes128,
    size: usize,
    nonce: &[u8; 13],
    aad: &[u8],
    sealed: &[u8],
    out: &mut [u8],
) -> bool
    requires low { 2 ≤ size }
    requires high { size ≤ 16 }
    requires range { IsInRange (length sealed.now - size) (length aad.now) }
    requires room { length sealed.now - size ≤ length out.old }
    ensures genuine { IsTrue result
        ↔ IsSealing cipher.now size nonce.now aad.now
        (ciphered cipher.now nonce.now (take (length sealed.now - size) sealed.now)) sealed.now }
    ensures written { IsTrue result → out.new
        ≡ ciphered cipher.now nonce.now (take (length sealed.now - size) sealed.now)
        ++ drop (length sealed.now - size) out.old }
    ensures refused { ¬ IsTrue result → out.new ≡ out.old }
{
    if sealed.len() < size {
        return false;
    }
    if sealed.len() - size > DATAGRAM_LIMIT {
        return open_in_two_passes(cipher, size, nonce, aad, sealed, out);
    }
    open_in_one_pass(cipher, size, nonce, aad, sealed, out)
}

/// Opens sealed bytes. Nothing is written to `out` before the tag is found right.
pub fn open(
    cipher: &Aes128,
    size: usize,
    nonce: &[u8; 13],
    aad: &[u8],
    sealed: &[u8],
    out: &mut [u8],
) -> Result<usize, OpenError>
    requires low { 2 ≤ size }
    requires high { size ≤ 16 }
    ensures opened { IfOk result (λ n. IsSealing cipher.now size nonce.now aad.now (take n out.new) sealed.now) }
    ensures count { IfOk result (λ n. (n + size ≡ length sealed.now) × (n ≤ length out.new)) }
    ensures rest { IfOk result (λ n. drop n out.new ≡ drop n out.old) }
    ensures too_long { (result ≡ Err OpenError.TooLong) ↔ IsTooLong (length sealed.now - size) (length aad.now) }
    ensures out_too_small { (result ≡ Err OpenError.OutTooSmall)
        ↔ (IsInRange (length sealed.now - size) (length aad.now)
        × (length out.old < length sealed.now - size)) }
    ensures not_genuine { (result ≡ Err OpenError.NotGenuine)
        ↔ (IsInRange (length sealed.now - size) (length aad.now)
        × (length sealed.now - size ≤ length out.old)
        × ((text : List ℕ) → ¬ IsSealing cipher.now size nonce.now aad.now text sealed.now)) }
    ensures refused { OnErr result (out.new ≡ out.old) }
{
    let length = sealed.len().saturating_sub(size);
    if length > TEXT_LIMIT || aad.len() > AAD_LIMIT {
        return Err(OpenError::TooLong);
    }
    if out.len() < length {
        return Err(OpenError::OutTooSmall);
    }
    if !open_text(cipher, size, nonce, aad, sealed, out) {
        return Err(OpenError::NotGenuine);
    }
    Ok(length)
}
