//! The key stream, and what is encrypted with it (RFC 3610 section 2.3).

ghost use Rattle.std.specs.Prelude.{◌≡◌, ◌+◌, ◌*◌, ◌<◌, ◌≤◌, ◌++◌, ℕ, List, length, take, drop};
ghost use Rattle.osc_ccm.specs.Ccm.{xor, piece, filled, stream_block, ciphered};
ghost use Rattle.osc_ccm.specs.Inner.Stream.{IsCiphered};

use crate::{block, lanes};
use osc_aes::Aes128;

/// Block S_i of the key stream.
#[tactic(auto, unfolding(crate::specs::Ccm::stream_block))]
pub fn stream_block(cipher: &Aes128, nonce: &[u8; 13], index: usize) -> [u8; 16]
    requires { index ≤ 65535 }
    ensures { result ≡ stream_block cipher.now nonce.now index }
{
    cipher.encrypt(block::flagged(1, nonce, index))
}

/// Xors the piece of the bytes at a block's place with a block: as lanes where it is whole, else byte by byte.
pub fn xor_piece(bytes: &mut [u8], index: usize, block: &[u8; 16])
    requires { 16 * index ≤ length bytes.old }
    ensures { bytes.new ≡ take (16 * index) bytes.old
        ++ xor (piece bytes.old index) block.now ++ drop (16 * index + 16) bytes.old }
{
    let start = 16 * index;
    if bytes.len() - start < 16 {
        block::xor_into(&mut bytes[start..], block);
    } else {
        lanes::xor_into(&mut bytes[start..start + 16], *block);
    }
}

/// Blocks S_i and S_i+1 of the key stream, made at once.
#[tactic(auto, unfolding(crate::specs::Ccm::stream_block))]
fn two_stream_blocks(cipher: &Aes128, nonce: &[u8; 13], index: usize) -> ([u8; 16], [u8; 16])
    requires { index < 65535 }
    ensures one { result.0 ≡ stream_block cipher.now nonce.now index }
    ensures other { result.1 ≡ stream_block cipher.now nonce.now (index + 1) }
{
    let one = block::flagged(1, nonce, index);
    let other = block::flagged(1, nonce, index + 1);
    cipher.encrypt_two(one, other)
}

/// Xors one piece more of a text with its block of the key stream, where the pieces before it were.
fn cipher_piece(bytes: &mut [u8], index: usize, block: &[u8; 16])
    requires { 16 * index ≤ length bytes.old }
    ensures { (key nonce text : List ℕ) → block.now ≡ stream_block key nonce (index + 1)
        → IsCiphered key nonce text index bytes.old → IsCiphered key nonce text (index + 1) bytes.new }
{
    xor_piece(bytes, index, block);
}

/// The same for two pieces, whose blocks of the key stream are made at once.
fn cipher_two_pieces(cipher: &Aes128, nonce: &[u8; 13], bytes: &mut [u8], index: usize)
    requires low { 16 * (index + 1) ≤ length bytes.old }
    requires high { index < 65534 }
    ensures { (text : List ℕ) → IsCiphered cipher.now nonce.now text index bytes.old
        → IsCiphered cipher.now nonce.now text (index + 2) bytes.new }
{
    let (one, other) = two_stream_blocks(cipher, nonce, index + 1);
    cipher_piece(bytes, index, &one);
    cipher_piece(bytes, index + 1, &other);
}

/// Encrypts a text in place, or decrypts a ciphertext: both are xored with the key stream.
pub fn cipher_in_place(cipher: &Aes128, nonce: &[u8; 13], bytes: &mut [u8])
    requires { length bytes.old ≤ 65535 }
    ensures { bytes.new ≡ ciphered cipher.now nonce.now bytes.old }
{
    let count = block::block_count(bytes.len());
    for pair in 0..count / 2 {
        cipher_two_pieces(cipher, nonce, bytes, 2 * pair);
    }
    if count % 2 == 1 {
        cipher_piece(bytes, count - 1, &stream_block(cipher, nonce, count));
    }
}

/// The piece at a block's place xored with the beginning of a block, and filled up with zeros to one.
pub fn ciphered_block(bytes: &[u8], index: usize, key: &[u8; 16]) -> [u8; 16]
    requires { 16 * index ≤ length bytes.now }
    ensures { result ≡ filled (xor (piece bytes.now index) key.now) }
{
    let piece = block::piece(bytes, index);
    let mut block = block::filled(piece);
    block::xor_into(&mut block[..piece.len()], key);
    block
}
