//! Ciphers: AES-128 of one block, and AES-CCM with a tag of 8 bytes.

use osc_aes::Aes128;
use osc_ccm::{Aead, Ccm};

const KEY: [u8; 16] = [7; 16];

const NONCE: [u8; 13] = [5; 13];

const AAD: [u8; 8] = [3; 8];

/// Encrypts a block `rounds` times, each time what came out last, and answers its first byte.
#[unsafe(no_mangle)]
pub extern "C" fn osc_bench_encrypt(rounds: u64) -> u8 {
    let cipher = Aes128::new(&KEY);
    let mut block = [0; 16];
    for _ in 0..rounds {
        block = cipher.encrypt(block);
    }
    block[0]
}

/// Seals the text `rounds` times into `out`, and answers how many bytes it sealed in all.
#[unsafe(no_mangle)]
pub extern "C" fn osc_bench_seal(text: &[u8], out: &mut [u8], rounds: u64) -> u64 {
    let cipher = Ccm::<8>::from_key(&KEY);
    let mut sealed = 0u64;
    for _ in 0..rounds {
        if let Ok(count) = cipher.seal(&NONCE, &AAD, text, out) {
            sealed = sealed.wrapping_add(count as u64);
        }
    }
    sealed
}

/// Opens the sealed bytes `rounds` times into `out`, and answers how many bytes it opened in all.
#[unsafe(no_mangle)]
pub extern "C" fn osc_bench_open(sealed: &[u8], out: &mut [u8], rounds: u64) -> u64 {
    let cipher = Ccm::<8>::from_key(&KEY);
    let mut opened = 0u64;
    for _ in 0..rounds {
        if let Ok(count) = cipher.open(&NONCE, &AAD, sealed, out) {
            opened = opened.wrapping_add(count as u64);
        }
    }
    opened
}
