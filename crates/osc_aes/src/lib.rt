//! AES-128 of one block (FIPS 197).
//!
//! `specs/` defines the cipher on lists of bytes, in the standard's terms: bytes as polynomials (`Field`), the
//! substitution as the affine map of the inverse (`SubBytes`), the key schedule word by word (`KeyExpansion`) and the
//! rounds on a state of rows and columns (`Cipher`). `Aes128::encrypt` gives what they define, on vectors of sixteen
//! lanes: bytes are substituted by look-ups among 16 entries that stay in registers (`tower`, `Tower`), and so are those of
//! the key schedule.
//!
//! By its form the code branches on no byte of a key or a block and reads memory at no place that depends on one: what is
//! done to them is sums, shifts and shuffles of lanes. No contract says so; `bench/secrets` looks at what was built. Nothing erases a key.
#![tactic(auto)]

mod cipher;
mod key_expansion;
pub mod laws;
mod tower;

use cipher::{cipher, cipher_two};
use key_expansion::{Keys, key_expansion};
use std::marker::Model;

/// A key of AES-128, expanded. Contracts see it as the 16 bytes of the key.
///
/// A block goes through 16 lanes: a byte is looked up by shuffles within a register, in the field of 16 elements (M. Hamburg's form of
/// AES). So no table in memory is read at a place that depends on key or text. No contract speaks of that.
#[derive(Drop)]
pub struct Aes128 {
    keys: Keys,
}

impl Model for Aes128 {
    ghost use Rattle.std.specs.Prelude.{ℕ, List};
    ghost use Rattle.osc_aes.specs.Inner.Keys.{AreKeys};

    ghost Value = { List ℕ };

    ghost view = { λ a. a.keys.key };

    ghost invariant = { λ a. AreKeys a.keys };
}

impl Aes128 {
    ghost use Rattle.std.specs.Prelude.{◌≡◌};
    ghost use Rattle.osc_aes.specs.Cipher.{encrypt_block};

    /// Expands `key` once for every block that it will encrypt.
    pub fn new(key: &[u8; 16]) -> Self
        ensures { result ≡ key.now }
    {
        Aes128 {
            keys: key_expansion(key),
        }
    }

    /// The cipher of one block.
    pub fn encrypt(&self, block: [u8; 16]) -> [u8; 16]
        ensures { result ≡ encrypt_block self.now block }
    {
        cipher(block, &self.keys)
    }

    /// The ciphers of two blocks, which takes less time than one after the other.
    pub fn encrypt_two(&self, one: [u8; 16], other: [u8; 16]) -> ([u8; 16], [u8; 16])
        ensures one { result.0 ≡ encrypt_block self.now one }
        ensures other { result.1 ≡ encrypt_block self.now other }
    {
        cipher_two(one, other, &self.keys)
    }
}
