//! HMAC on SHA-256 (RFC 2104).
ghost use Rattle.std.specs.Prelude.{◌≡◌, ◌≤◌, ◌-◌, ℕ, List, [], ◌++◌, length, replicate};
ghost use Rattle.osc_hkdf.specs.Hmac.{block_key, hmac_of, pad};
ghost use Rattle.osc_hkdf.specs.Inner.Mac.{Holds};

use sha2::{Digest, Sha256};

/// The key, filled up with zeros to a block of 64 bytes.
fn filled_up(key: &[u8]) -> [u8; 64]
    requires { length key.now ≤ 64 }
    ensures { result ≡ key.now ++ replicate (64 - length key.now) 0 }
{
    let mut block = [0; 64];
    block[..key.len()].copy_from_slice(key);
    block
}

/// The key as a block of 64 bytes: a longer key is hashed first.
fn block_key(key: &[u8]) -> [u8; 64]
    ensures { result ≡ block_key key.now }
{
    if key.len() <= 64 {
        filled_up(key)
    } else {
        filled_up(&Sha256::digest(key))
    }
}

/// Xors each byte with a constant.
fn xor_each(bytes: &mut [u8], constant: u8)
    ensures { bytes.new ≡ pad constant bytes.old }
{
    for byte in bytes.iter_mut() {
        *byte ^= constant;
    }
}

/// A block, each byte xored with a constant.
fn padded(block: &[u8; 64], constant: u8) -> [u8; 64]
    ensures { result ≡ pad constant block.now }
{
    let mut padded = *block;
    xor_each(&mut padded, constant);
    padded
}

/// A code on its way: the text comes part by part. The states of both hashes are after the key's block, so a clone of a
/// code with an empty text begins another under the same key, and the key is hashed no more.
#[derive(Clone, Drop)]
pub(crate) struct Mac {
    inner: Sha256,
    outer: Sha256,
}

impl Mac {
    /// Begins with an empty text.
    pub(crate) fn new(key: &[u8]) -> Self
        ensures { Holds result key.now [] }
    {
        let key = block_key(key);
        let mut inner = Sha256::new();
        inner.update(padded(&key, 0x36).as_slice());
        let mut outer = Sha256::new();
        outer.update(padded(&key, 0x5c).as_slice());
        Mac { inner, outer }
    }

    /// The same code once more.
    pub(crate) fn copy(&self) -> Self
        ensures { result ≡ self.now }
    {
        self.clone().unwrap()
    }

    /// Adds a part after the text so far.
    pub(crate) fn update(&mut self, part: &[u8])
        ensures { (key text : List ℕ) → Holds self.old key text → Holds self.new key (text ++ part.now) }
    {
        self.inner.update(part);
    }

    /// The code of the text.
    #[tactic(auto, unfolding(crate::specs::Hmac::hmac_of))]
    pub(crate) fn finalize(self) -> [u8; 32]
        ensures { (key text : List ℕ) → Holds self key text → result ≡ hmac_of key text }
    {
        let Mac { inner, mut outer } = self;
        outer.update(inner.finalize().as_slice());
        outer.finalize()
    }
}

/// The code of `text` under `key`, which may have any length (RFC 2104 section 2).
pub fn hmac(key: &[u8], text: &[u8]) -> [u8; 32]
    ensures { result ≡ hmac_of key.now text.now }
{
    let mut mac = Mac::new(key);
    mac.update(text);
    mac.finalize()
}
