//! The cipher of access tokens.

ghost use Rattle.std.specs.Prelude.{◌≡◌, ℕ, List};
ghost use Rattle.std.proofs.Common.{lit≤};
ghost use Rattle.osc_model.specs.declared.algorithm.Algorithm.TheVariants.{EightByteTag};
ghost use Rattle.osc_ccm.specs.{longer_by_same};

use osc_ccm::{Aead, Ciphers, OpenError, SealError};
use osc_model::Algorithm;
use std::marker::{Model, PhantomData};

/// The cipher of `C` whose tag has 8 bytes, under one key: access tokens are sealed under AES-CCM-16-64-128, whatever the algorithm
/// of the context that they are for. Contracts see it as its key.
#[derive(Drop)]
pub struct TokenCipher<C> {
    key: [u8; 16],
    of: PhantomData<C>,
}

impl<C> Model for TokenCipher<C> {
    ghost Value = { List ℕ };

    ghost view = { λ cipher. cipher.key };
}

impl<C: Ciphers> Aead for TokenCipher<C> {
    const TAG: usize = 8;

    ghost TAG = { 8 };

    ghost key_of = { λ key. key };

    ghost is_sealing = { C.is_sealing EightByteTag };

    fn from_key(key: &[u8; 16]) -> TokenCipher<C> {
        TokenCipher {
            key: *key,
            of: PhantomData,
        }
    }

    fn seal(
        &self,
        nonce: &[u8; 13],
        aad: &[u8],
        text: &[u8],
        out: &mut [u8],
    ) -> Result<usize, SealError> {
        C::seal(Algorithm::EightByteTag, &self.key, nonce, aad, text, out)
    }

    fn open(
        &self,
        nonce: &[u8; 13],
        aad: &[u8],
        sealed: &[u8],
        out: &mut [u8],
    ) -> Result<usize, OpenError> {
        C::open(Algorithm::EightByteTag, &self.key, nonce, aad, sealed, out)
    }

    ghost one_text = { C.one_text EightByteTag };

    ghost sealed_length = { longer_by_same C.tags.0 (C.sealed_length EightByteTag) };

    ghost in_range = { C.in_range EightByteTag };

    ghost short_tag = { lit≤ tt };
}
