//! A pseudorandom key that is expanded more than once.
ghost use Rattle.std.specs.Prelude.{◌≡◌, ◌<◌, ◌↔◌, IsErr, OnOk, OnErr, length};
ghost use Rattle.osc_hkdf.specs.Hkdf.{extract_of, expand_of};

use crate::error::OutputTooLong;
use crate::hkdf::{expand_from, extract};
use crate::mac::Mac;
use std::marker::Model;

/// A pseudorandom key (RFC 5869 section 2.2) that is ready for expanding: the states of HMAC's two hashes are after the
/// key's block, so a block of output hashes the key no more. Contracts see the key's 32 bytes.
#[derive(Drop)]
pub struct Prk {
    bytes: [u8; 32],
    /// A code under this key, with an empty text.
    start: Mac,
}

impl Model for Prk {
    ghost use Rattle.std.specs.Prelude.{ℕ, List, []};
    ghost use Rattle.osc_hkdf.specs.Inner.Mac.{Holds};

    ghost Value = { List ℕ };

    ghost view = { λ prk. prk.bytes };

    ghost invariant = { λ prk. Holds prk.start prk.bytes [] };
}

impl Prk {
    /// The pseudorandom key of `ikm` under `salt`, as by the function `extract` (RFC 5869 section 2.2).
    pub fn extract(salt: &[u8], ikm: &[u8]) -> Prk
        ensures { result ≡ extract_of salt.now ikm.now }
    {
        let bytes = extract(salt, ikm);
        let start = Mac::new(&bytes);
        Prk { bytes, start }
    }

    /// The key's 32 bytes.
    pub fn as_bytes(&self) -> &[u8; 32]
        ensures { result.now ≡ self.now }
    {
        &self.bytes
    }

    /// Fills `out` with output keying material of the key and `info`, as by the function `expand` (RFC 5869 section 2.3).
    ///
    /// # Errors
    ///
    /// `OutputTooLong` exactly where `out` is longer than 8160 bytes, which are 255 blocks of 32. `out` is as before then.
    pub fn expand(&self, info: &[u8], out: &mut [u8]) -> Result<(), OutputTooLong>
        ensures refused { IsErr result ↔ (8160 < length out.old) }
        ensures ok { OnOk result (out.new ≡ expand_of self.now info.now (length out.old)) }
        ensures err { OnErr result (out.new ≡ out.old) }
    {
        expand_from(&self.start, info, out)
    }
}
