//! A cipher that hides nothing: the text, then the key. It meets the law of `Aead`, so generic code
//! can be called at it.

ghost use Rattle.std.specs.Prelude.{◌≡◌, ◌↔◌, ℕ, ◌+◌, ◌++◌, List, length, IsTrue};
ghost use Rattle.std.proofs.Common.{lit≤, ap, sym, ◌∙◌};
ghost use Rattle.std.proofs.lemmas.List.{append_cancel_right, length-append};
ghost use Rattle.osc_ccm.specs.{IsInRange};

use osc_ccm::{AAD_LIMIT, Aead, OpenError, SealError, TEXT_LIMIT};

fn is_same(one: &[u8], other: &[u8]) -> bool
    requires { length one.now ≡ length other.now }
    ensures { IsTrue result ↔ (one.now ≡ other.now) }
{
    one == other
}

#[derive(Drop)]
pub struct Marked {
    pub key: [u8; 16],
}

impl Aead for Marked {
    const TAG: usize = 16;

    ghost TAG = { 16 };

    ghost key_of = { λ cipher. cipher.key };

    ghost is_sealing = { λ key nonce aad text sealed.
        (sealed ≡ text ++ key) × (length key ≡ 16) × IsInRange (length text) (length aad) };

    fn from_key(key: &[u8; 16]) -> Marked {
        Marked { key: *key }
    }

    fn seal(
        &self,
        _nonce: &[u8; 13],
        aad: &[u8],
        text: &[u8],
        out: &mut [u8],
    ) -> Result<usize, SealError> {
        if text.len() > TEXT_LIMIT || aad.len() > AAD_LIMIT {
            return Err(SealError::TooLong);
        }
        let length = text.len() + 16;
        if out.len() < length {
            return Err(SealError::OutTooSmall);
        }
        out[..text.len()].copy_from_slice(text);
        out[text.len()..length].copy_from_slice(&self.key);
        Ok(length)
    }

    fn open(
        &self,
        _nonce: &[u8; 13],
        aad: &[u8],
        sealed: &[u8],
        out: &mut [u8],
    ) -> Result<usize, OpenError> {
        let length = sealed.len().saturating_sub(16);
        if length > TEXT_LIMIT || aad.len() > AAD_LIMIT {
            return Err(OpenError::TooLong);
        }
        if out.len() < length {
            return Err(OpenError::OutTooSmall);
        }
        if sealed.len() < 16 {
            return Err(OpenError::NotGenuine);
        }
        if !is_same(&sealed[length..], &self.key) {
            return Err(OpenError::NotGenuine);
        }
        out[..length].copy_from_slice(&sealed[..length]);
        Ok(length)
    }

    ghost one_text = { λ key nonce aad text other sealed known same.
        append_cancel_right text other key (sym known.0 ∙ same.0) };

    ghost sealed_length = { λ key nonce aad text sealed known.
        ap length known.0 ∙ length-append text key ∙ ap (λ n. length text + n) known.1 };

    ghost in_range = { λ key nonce aad text sealed known. known.2 };

    ghost short_tag = { lit≤ tt };
}
