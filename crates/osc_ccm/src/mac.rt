//! Authentication: the CBC-MAC and the tag (RFC 3610 section 2.2).

ghost use Rattle.std.specs.Prelude.{◌≡◌, ◌+◌, ◌*◌, ◌<◌, ◌≤◌, [], ◌∷◌, ◌++◌, fold, take, length};
ghost use Rattle.osc_ccm.specs.Ccm.{xor, blocks, filled, two_bytes, ciphered, flagged, first_flags, aad_blocks, mac_step, cbc_mac, stream_block, tag_of};

use crate::{block, lanes, stream};
use osc_aes::Aes128;

/// One block more under the CBC-MAC.
pub fn mac_step(cipher: &Aes128, state: &mut [u8; 16], block: &[u8; 16])
    ensures { state.new ≡ mac_step cipher.now state.old block.now }
{
    *state = cipher.encrypt(lanes::xor(*state, *block));
}

/// One block more under the CBC-MAC, and block S_i of the key stream beside it.
#[tactic(auto, unfolding(crate::specs::Ccm::stream_block))]
pub fn step_and_stream(
    cipher: &Aes128,
    state: &mut [u8; 16],
    block: &[u8; 16],
    nonce: &[u8; 13],
    index: usize,
) -> [u8; 16]
    requires { index ≤ 65535 }
    ensures state { state.new ≡ mac_step cipher.now state.old block.now }
    ensures stream { result ≡ stream_block cipher.now nonce.now index }
{
    let counter = block::flagged(1, nonce, index);
    let (output, key) = cipher.encrypt_two(lanes::xor(*state, *block), counter);
    *state = output;
    key
}

/// The blocks of some bytes under the CBC-MAC.
fn absorb(cipher: &Aes128, state: &mut [u8; 16], bytes: &[u8])
    requires { length bytes.now ≤ 65535 }
    ensures { state.new ≡ fold (mac_step cipher.now) state.old (blocks bytes.now) }
{
    for index in 0..block::block_count(bytes.len()) {
        let block = block::block_at(bytes, index);
        mac_step(cipher, state, &block);
    }
}

/// One block more under the CBC-MAC, number `index` of `count`, and beside it the key stream of the next one. After the
/// last one the answer is any block.
pub fn step_and_next(
    cipher: &Aes128,
    state: &mut [u8; 16],
    block: &[u8; 16],
    nonce: &[u8; 13],
    index: usize,
    count: usize,
) -> [u8; 16]
    requires low { index < count }
    requires high { count ≤ 4096 }
    ensures state { state.new ≡ mac_step cipher.now state.old block.now }
    ensures stream { index + 1 < count → result ≡ stream_block cipher.now nonce.now (index + 2) }
{
    if index + 1 < count {
        return step_and_stream(cipher, state, block, nonce, index + 2);
    }
    mac_step(cipher, state, block);
    *block
}

/// The blocks of the text that a ciphertext stands for under the CBC-MAC, each beside the key stream of the next, which
/// begins with `first_key`.
fn absorb_ciphered(
    cipher: &Aes128,
    state: &mut [u8; 16],
    nonce: &[u8; 13],
    first_key: [u8; 16],
    bytes: &[u8],
)
    requires key { first_key ≡ stream_block cipher.now nonce.now 1 }
    requires short { length bytes.now ≤ 65535 }
    ensures state { state.new
        ≡ fold (mac_step cipher.now) state.old (blocks (ciphered cipher.now nonce.now bytes.now)) }
    ensures whole { length (ciphered cipher.now nonce.now bytes.now) ≡ length bytes.now }
{
    let mut key = first_key;
    let count = block::block_count(bytes.len());
    for index in 0..count {
        let block = stream::ciphered_block(bytes, index, &key);
        key = step_and_next(cipher, state, &block, nonce, index, count);
    }
}

/// The first block of the associated data: its length and its first 14 bytes.
fn first_of_aad(aad: &[u8]) -> [u8; 16]
    requires { length aad.now ≤ 65279 }
    ensures { result ≡ filled (two_bytes (length aad.now) ++ take 14 aad.now) }
{
    let mut block = [0; 16];
    block[0] = (aad.len() / 256) as u8;
    block[1] = (aad.len() % 256) as u8;
    let count = aad.len().min(14);
    block[2..2 + count].copy_from_slice(&aad[..count]);
    block
}

/// The blocks of the associated data under the CBC-MAC.
fn absorb_aad(cipher: &Aes128, state: &mut [u8; 16], aad: &[u8])
    requires { length aad.now ≤ 65279 }
    ensures { state.new ≡ fold (mac_step cipher.now) state.old (aad_blocks aad.now) }
{
    if !aad.is_empty() {
        mac_step(cipher, state, &first_of_aad(aad));
        absorb(cipher, state, &aad[aad.len().min(14)..]);
    }
}

/// The blocks of the associated data under the CBC-MAC, and S_1, which is made beside the first of them.
fn absorb_aad_and_stream(
    cipher: &Aes128,
    state: &mut [u8; 16],
    nonce: &[u8; 13],
    aad: &[u8],
) -> [u8; 16]
    requires { length aad.now ≤ 65279 }
    ensures state { state.new ≡ fold (mac_step cipher.now) state.old (aad_blocks aad.now) }
    ensures stream { result ≡ stream_block cipher.now nonce.now 1 }
{
    if aad.is_empty() {
        return stream::stream_block(cipher, nonce, 1);
    }
    let key = step_and_stream(cipher, state, &first_of_aad(aad), nonce, 1);
    absorb(cipher, state, &aad[aad.len().min(14)..]);
    key
}

/// The flags of the first block.
fn first_flags(size: usize, aad: &[u8]) -> u8
    requires low { 2 ≤ size }
    requires high { size ≤ 16 }
    ensures { result ≡ first_flags size aad.now }
{
    let flags = 8 * ((size - 2) / 2) + 1;
    if aad.is_empty() {
        flags as u8
    } else {
        (64 + flags) as u8
    }
}

/// The CBC-MAC over the first block, and S_0, with which the tag is encrypted in the end.
fn first_step(
    cipher: &Aes128,
    size: usize,
    nonce: &[u8; 13],
    aad: &[u8],
    text_length: usize,
) -> ([u8; 16], [u8; 16])
    requires low { 2 ≤ size }
    requires high { size ≤ 16 }
    requires text { text_length ≤ 65535 }
    ensures state { result.0 ≡ cbc_mac cipher.now (flagged (first_flags size aad.now) nonce.now text_length ∷ []) }
    ensures mask { result.1 ≡ stream_block cipher.now nonce.now 0 }
{
    let mut state = [0; 16];
    let first = block::flagged(first_flags(size, aad), nonce, text_length);
    let mask = step_and_stream(cipher, &mut state, &first, nonce, 0);
    (state, mask)
}

/// The CBC-MAC over the first block and the associated data, and S_0.
pub fn begin(
    cipher: &Aes128,
    size: usize,
    nonce: &[u8; 13],
    aad: &[u8],
    text_length: usize,
) -> ([u8; 16], [u8; 16])
    requires low { 2 ≤ size }
    requires high { size ≤ 16 }
    requires aad { length aad.now ≤ 65279 }
    requires text { text_length ≤ 65535 }
    ensures state { result.0 ≡ cbc_mac cipher.now
        (flagged (first_flags size aad.now) nonce.now text_length ∷ aad_blocks aad.now) }
    ensures mask { result.1 ≡ stream_block cipher.now nonce.now 0 }
{
    let (mut state, mask) = first_step(cipher, size, nonce, aad, text_length);
    absorb_aad(cipher, &mut state, aad);
    (state, mask)
}

/// The CBC-MAC over the first block and the associated data, then S_0 and S_1.
pub fn begin_and_stream(
    cipher: &Aes128,
    size: usize,
    nonce: &[u8; 13],
    aad: &[u8],
    text_length: usize,
) -> ([u8; 16], [u8; 16], [u8; 16])
    requires low { 2 ≤ size }
    requires high { size ≤ 16 }
    requires aad { length aad.now ≤ 65279 }
    requires text { text_length ≤ 65535 }
    ensures state { result.0 ≡ cbc_mac cipher.now
        (flagged (first_flags size aad.now) nonce.now text_length ∷ aad_blocks aad.now) }
    ensures mask { result.1 ≡ stream_block cipher.now nonce.now 0 }
    ensures stream { result.2 ≡ stream_block cipher.now nonce.now 1 }
{
    let (mut state, mask) = first_step(cipher, size, nonce, aad, text_length);
    let key = absorb_aad_and_stream(cipher, &mut state, nonce, aad);
    (state, mask, key)
}

/// A block that begins with the tag of the text that a ciphertext stands for.
#[tactic(auto, unfolding(crate::specs::Ccm::tag_of))]
pub fn tag_of_ciphertext(
    cipher: &Aes128,
    size: usize,
    nonce: &[u8; 13],
    aad: &[u8],
    bytes: &[u8],
) -> [u8; 16]
    requires low { 2 ≤ size }
    requires high { size ≤ 16 }
    requires aad { length aad.now ≤ 65279 }
    requires text { length bytes.now ≤ 65535 }
    ensures tag { take size result
        ≡ tag_of cipher.now size nonce.now aad.now (ciphered cipher.now nonce.now bytes.now) }
    ensures whole { length (ciphered cipher.now nonce.now bytes.now) ≡ length bytes.now }
{
    let (mut state, mask, key) = begin_and_stream(cipher, size, nonce, aad, bytes.len());
    absorb_ciphered(cipher, &mut state, nonce, key, bytes);
    lanes::xor(state, mask)
}
