//! What `bench/run secrets` calls with keys and texts that valgrind holds for undefined: each function does one thing under a key that
//! its caller gives, so no compiler sees the bytes sooner.
#![tactic(auto)]

use osc_aes::Aes128;
use osc_ccm::{Aead, Ccm};
use osc_hkdf::{Prk, hmac};

/// Expands a key and encrypts a block in place.
#[unsafe(no_mangle)]
pub extern "C" fn osc_secrets_encrypt(key: &[u8; 16], block: &mut [u8; 16]) {
    *block = Aes128::new(key).encrypt(*block);
}

/// The same for two blocks at once.
#[unsafe(no_mangle)]
pub extern "C" fn osc_secrets_encrypt_two(
    key: &[u8; 16],
    one: &mut [u8; 16],
    other: &mut [u8; 16],
) {
    let (first, second) = Aes128::new(key).encrypt_two(*one, *other);
    *one = first;
    *other = second;
}

/// Seals a text with a tag of 8 bytes, and answers how many bytes it wrote: none where it is refused.
#[unsafe(no_mangle)]
pub extern "C" fn osc_secrets_seal(
    key: &[u8; 16],
    nonce: &[u8; 13],
    aad: &[u8],
    text: &[u8],
    out: &mut [u8],
) -> usize {
    match Ccm::<8>::from_key(key).seal(nonce, aad, text, out) {
        Ok(count) => count,
        Err(_) => 0,
    }
}

/// Opens sealed bytes, and answers how many bytes it wrote: none where it is refused.
#[unsafe(no_mangle)]
pub extern "C" fn osc_secrets_open(
    key: &[u8; 16],
    nonce: &[u8; 13],
    aad: &[u8],
    sealed: &[u8],
    out: &mut [u8],
) -> usize {
    match Ccm::<8>::from_key(key).open(nonce, aad, sealed, out) {
        Ok(count) => count,
        Err(_) => 0,
    }
}

/// The code of a text by HMAC-SHA-256.
#[unsafe(no_mangle)]
pub extern "C" fn osc_secrets_hmac(key: &[u8], text: &[u8], out: &mut [u8; 32]) {
    *out = hmac(key, text);
}

/// Extracts a pseudorandom key and expands it by HKDF. Answers 0 where too much is asked for, else 1.
#[unsafe(no_mangle)]
pub extern "C" fn osc_secrets_hkdf(salt: &[u8], ikm: &[u8], info: &[u8], out: &mut [u8]) -> u8 {
    match Prk::extract(salt, ikm).expand(info, out) {
        Ok(()) => 1,
        Err(_) => 0,
    }
}
