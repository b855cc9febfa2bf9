//! Encryption and authentication in one pass. A step of the CBC-MAC and a block of the key stream don't wait for each
//! other, so the block cipher makes both at once (RFC 3610 sections 2.2 and 2.3).

ghost use Rattle.std.specs.Prelude.{◌≡◌, ◌≤◌, fold, take, length};
ghost use Rattle.osc_ccm.specs.Ccm.{blocks, ciphered, mac_step, stream_block, tag_of};

use crate::{block, lanes, mac, stream};
use osc_aes::Aes128;

/// Encrypts a text in place, and takes its blocks under the CBC-MAC.
fn encrypt_and_absorb(cipher: &Aes128, state: &mut [u8; 16], nonce: &[u8; 13], bytes: &mut [u8])
    requires { length bytes.old ≤ 65535 }
    ensures state { state.new ≡ fold (mac_step cipher.now) state.old (blocks bytes.old) }
    ensures bytes { bytes.new ≡ ciphered cipher.now nonce.now bytes.old }
{
    for index in 0..block::block_count(bytes.len()) {
        let block = block::block_at(bytes, index);
        let key = mac::step_and_stream(cipher, state, &block, nonce, index + 1);
        stream::xor_piece(bytes, index, &key);
    }
}

/// Decrypts a ciphertext in place by the key stream, which begins with `first_key`, and takes the blocks of its text under
/// the CBC-MAC, each beside the key stream of the next.
fn decrypt_and_absorb(
    cipher: &Aes128,
    state: &mut [u8; 16],
    nonce: &[u8; 13],
    first_key: [u8; 16],
    bytes: &mut [u8],
)
    requires key { first_key ≡ stream_block cipher.now nonce.now 1 }
    requires short { length bytes.old ≤ 65535 }
    ensures state { state.new
        ≡ fold (mac_step cipher.now) state.old (blocks (ciphered cipher.now nonce.now bytes.old)) }
    ensures bytes { bytes.new ≡ ciphered cipher.now nonce.now bytes.old }
{
    let mut key = first_key;
    let count = block::block_count(bytes.len());
    for index in 0..count {
        stream::xor_piece(bytes, index, &key);
        let block = block::block_at(bytes, index);
        key = mac::step_and_next(cipher, state, &block, nonce, index, count);
    }
}

/// Encrypts a text in place, and answers a block that begins with its tag.
#[tactic(auto, unfolding(crate::specs::Ccm::tag_of))]
pub fn seal_in_place(
    cipher: &Aes128,
    size: usize,
    nonce: &[u8; 13],
    aad: &[u8],
    bytes: &mut [u8],
) -> [u8; 16]
    requires low { 2 ≤ size }
    requires high { size ≤ 16 }
    requires aad { length aad.now ≤ 65279 }
    requires text { length bytes.old ≤ 65535 }
    ensures tag { take size result ≡ tag_of cipher.now size nonce.now aad.now bytes.old }
    ensures bytes { bytes.new ≡ ciphered cipher.now nonce.now bytes.old }
{
    let (mut state, mask) = mac::begin(cipher, size, nonce, aad, bytes.len());
    encrypt_and_absorb(cipher, &mut state, nonce, bytes);
    lanes::xor(state, mask)
}

/// Decrypts a ciphertext in place, and answers a block that begins with the tag of its text.
#[tactic(auto, unfolding(crate::specs::Ccm::tag_of))]
pub fn open_in_place(
    cipher: &Aes128,
    size: usize,
    nonce: &[u8; 13],
    aad: &[u8],
    bytes: &mut [u8],
) -> [u8; 16]
    requires low { 2 ≤ size }
    requires high { size ≤ 16 }
    requires aad { length aad.now ≤ 65279 }
    requires text { length bytes.old ≤ 65535 }
    ensures tag { take size result
        ≡ tag_of cipher.now size nonce.now aad.now (ciphered cipher.now nonce.now bytes.old) }
    ensures bytes { bytes.new ≡ ciphered cipher.now nonce.now bytes.old }
{
    let (mut state, mask, key) = mac::begin_and_stream(cipher, size, nonce, aad, bytes.len());
    decrypt_and_absorb(cipher, &mut state, nonce, key, bytes);
    lanes::xor(state, mask)
}
