//! AES-CCM (RFC 3610) with a nonce of 13 bytes and a length of 2.

ghost use Rattle.std.specs.Prelude.{ℕ, List};
ghost use Rattle.std.proofs.Common.{lit≤};
ghost use Rattle.osc_ccm.specs.OneText.{one_text_of};
ghost use Rattle.osc_ccm.specs.Ccm.{IsSealing};

use crate::aead::Aead;
use crate::error::{OpenError, SealError};
use crate::sealing;
use osc_aes::Aes128;
use std::marker::Model;

/// AES-CCM under one key, with a tag of `TAG` bytes. It is a cipher (an `Aead`) for tags of 8 and
/// of 16 bytes: COSE's AES-CCM-16-64-128, algorithm 10, and AES-CCM-16-128-128, algorithm 30 (RFC
/// 9053 section 4.2). Contracts see it as its key.
///
/// Two blocks are encrypted at once: a step of the CBC-MAC and a block of the key stream. Opening writes nothing before the tag is
/// found right.
#[derive(Drop)]
pub struct Ccm<const TAG: usize> {
    cipher: Aes128,
}

impl<const TAG: usize> Model for Ccm<TAG> {
    ghost Value = { List ℕ };

    ghost view = { λ ccm. ccm.cipher };
}

impl Aead for Ccm<8> {
    const TAG: usize = 8;

    ghost TAG = { 8 };

    ghost key_of = { λ key. key };

    ghost is_sealing = { λ key nonce aad text sealed. IsSealing key 8 nonce aad text sealed };

    fn from_key(key: &[u8; 16]) -> Ccm<8> {
        Ccm {
            cipher: Aes128::new(key),
        }
    }

    fn seal(
        &self,
        nonce: &[u8; 13],
        aad: &[u8],
        text: &[u8],
        out: &mut [u8],
    ) -> Result<usize, SealError> {
        sealing::seal(&self.cipher, 8, nonce, aad, text, out)
    }

    fn open(
        &self,
        nonce: &[u8; 13],
        aad: &[u8],
        sealed: &[u8],
        out: &mut [u8],
    ) -> Result<usize, OpenError> {
        sealing::open(&self.cipher, 8, nonce, aad, sealed, out)
    }

    ghost one_text = { λ key nonce aad text other sealed. one_text_of key 8 nonce aad text other sealed };

    ghost sealed_length = { λ key nonce aad text sealed known. known.is_whole };

    ghost in_range = { λ key nonce aad text sealed known. known.in_range };

    ghost short_tag = { lit≤ tt };
}

impl Aead for Ccm<16> {
    const TAG: usize = 16;

    ghost TAG = { 16 };

    ghost key_of = { λ key. key };

    ghost is_sealing = { λ key nonce aad text sealed. IsSealing key 16 nonce aad text sealed };

    fn from_key(key: &[u8; 16]) -> Ccm<16> {
        Ccm {
            cipher: Aes128::new(key),
        }
    }

    fn seal(
        &self,
        nonce: &[u8; 13],
        aad: &[u8],
        text: &[u8],
        out: &mut [u8],
    ) -> Result<usize, SealError> {
        sealing::seal(&self.cipher, 16, nonce, aad, text, out)
    }

    fn open(
        &self,
        nonce: &[u8; 13],
        aad: &[u8],
        sealed: &[u8],
        out: &mut [u8],
    ) -> Result<usize, OpenError> {
        sealing::open(&self.cipher, 16, nonce, aad, sealed, out)
    }

    ghost one_text = { λ key nonce aad text other sealed. one_text_of key 16 nonce aad text other sealed };

    ghost sealed_length = { λ key nonce aad text sealed known. known.is_whole };

    ghost in_range = { λ key nonce aad text sealed known. known.in_range };

    ghost short_tag = { lit≤ tt };
}
