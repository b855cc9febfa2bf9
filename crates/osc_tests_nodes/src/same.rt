//! The ciphers beside plain ones, at pseudo-random keys and bytes.

use crate::reference::Plain;
use osc_aes::Aes128;
use osc_ccm::{Aead, Ccm, lanes};
use std::process::Abort;
use std::test::Fail;

/// Pseudo-random bytes: the high bytes of a linear congruence.
fn fill(seed: u64, bytes: &mut [u8]) -> u64 {
    let mut state = seed;
    for byte in bytes {
        state = state
            .wrapping_mul(6_364_136_223_846_793_005)
            .wrapping_add(1_442_695_040_888_963_407);
        *byte = (state >> 56) as u8;
    }
    state
}

#[test]
fn blocks(rt: HostRuntime) {
    let mut seed = 1;
    let (mut key, mut one, mut other) = ([0; 16], [0; 16], [0; 16]);
    for _ in 0..1000 {
        seed = fill(seed, &mut key);
        seed = fill(seed, &mut one);
        seed = fill(seed, &mut other);
        let (cipher, plain) = (Aes128::new(&key), Plain::new(&key));
        assert!(rt; cipher.encrypt(one) == plain.encrypt(one));
        let (first, second) = cipher.encrypt_two(one, other);
        assert!(rt; first == plain.encrypt(one));
        assert!(rt; second == plain.encrypt(other));
    }
}

#[test]
fn xored_lanes(rt: HostRuntime) {
    let mut bytes = [3; 16];
    lanes::xor_into(&mut bytes, [5; 16]);
    assert!(rt; bytes == lanes::xor([3; 16], [5; 16]));
    assert!(rt; bytes == [6; 16]);
}

/// A text sealed and opened as by the plain cipher.
fn seals_as<A: Aead>(
    rt: &impl Abort,
    size: usize,
    key: &[u8; 16],
    nonce: &[u8; 13],
    aad: &[u8],
    text: &[u8],
) -> Result<(), Fail> {
    let (mut sealed, mut want, mut opened) = ([0xee; 1424], [0xee; 1424], [0xee; 1424]);
    assert!(rt; 2 <= size && size <= 16 && text.len() <= 1400);
    Plain::new(key).seal(size, nonce, aad, text, &mut want);
    let cipher = A::from_key(key);
    let count = cipher.seal(nonce, aad, text, &mut sealed)?;
    assert!(rt; count == text.len() + size);
    assert!(rt; sealed == want);
    let count = cipher.open(nonce, aad, &sealed[..count], &mut opened)?;
    assert!(rt; &opened[..count] == text);
    Ok(())
}

/// Each length of a text from 0 to 100 with each length of associated data from 0 to 33.
fn each_length<A: Aead>(rt: &impl Abort, size: usize, seed: u64) -> Result<(), Fail> {
    let (mut key, mut nonce) = ([0; 16], [0; 13]);
    let (mut aad, mut text) = ([0; 33], [0; 100]);
    let seed = fill(fill(seed, &mut key), &mut nonce);
    fill(fill(seed, &mut aad), &mut text);
    for aad_length in 0..=33usize {
        for length in 0..=100usize {
            let aad = aad.get(..aad_length).ok_or("associated data")?;
            let text = text.get(..length).ok_or("a text")?;
            seals_as::<A>(rt, size, &key, &nonce, aad, text)?;
        }
    }
    Ok(())
}

#[test]
fn short_tags(rt: HostRuntime) -> Result<(), Fail> {
    each_length::<Ccm<8>>(&rt, 8, 2)?;
    each_length::<Ccm<8>>(&rt, 8, 3)
}

#[test]
fn long_tags(rt: HostRuntime) -> Result<(), Fail> {
    each_length::<Ccm<16>>(&rt, 16, 4)
}

/// Texts that are opened in one pass, and longer ones, of an even and an odd number of blocks, the last whole or not.
#[test]
fn long_texts(rt: HostRuntime) -> Result<(), Fail> {
    let (mut key, mut nonce) = ([0; 16], [0; 13]);
    let (mut aad, mut text) = ([0; 20], [0; 1400]);
    let seed = fill(fill(5, &mut key), &mut nonce);
    fill(fill(seed, &mut aad), &mut text);
    for &length in &[
        1023, 1024, 1136, 1151, 1152, 1153, 1168, 1169, 1184, 1185, 1399, 1400,
    ] {
        let text = text.get(..length).ok_or("a text")?;
        seals_as::<Ccm<8>>(&rt, 8, &key, &nonce, &aad, text)?;
        seals_as::<Ccm<16>>(&rt, 16, &key, &nonce, &[], text)?;
    }
    Ok(())
}
