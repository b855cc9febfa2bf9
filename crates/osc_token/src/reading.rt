//! Reading tokens.

ghost use Rattle.std.specs.Prelude.{◌≡◌, ℕ, List, IfOk, IsErr, Err};
ghost use Rattle.osc_cbor.specs.{DataItem, IsWhole};
ghost use Rattle.osc_token.specs.Claims.{ComesTo};
ghost use Rattle.osc_token.specs.Token.{IsToken};

use crate::audience::Audience;
use crate::claims::Claims;
use crate::error::TokenError;
use crate::judging::judge;
use crate::opening::open_token;
use osc_ccm::Aead;
use osc_model::Moment;
use osc_scope::Scope;
use std::alloc::{AllocError, Global};

/// What the token grants to its holder: [`open_token`], then [`judge`].
///
/// # Errors
///
/// `NotGenuine` where the token doesn't open, else as [`judge`] says. The outer error is lack of memory, and comes only where the
/// bytes are one whole item of CBOR.
pub fn read<A: Aead>(
    alloc: Global,
    bytes: &[u8],
    key: &[u8; 16],
    audience: &Audience,
    now: Moment,
) -> Result<Result<(Claims, Scope), TokenError>, AllocError>
    ensures judged { (protected iv text : List ℕ) → IsToken A.is_sealing key.now bytes.now protected iv text
        → IfOk result (λ outcome. ComesTo text audience.now now outcome) }
    ensures not_genuine { ((protected iv text : List ℕ) → ¬ IsToken A.is_sealing key.now bytes.now protected iv text)
        → IfOk result (λ outcome. outcome ≡ Err TokenError.NotGenuine) }
    ensures memory { IsErr result → (d : DataItem) × IsWhole bytes.now d }
{
    match open_token::<A>(alloc, bytes, key)? {
        Some(note) => judge(alloc, note.plaintext.as_slice(), audience, now),
        None => Ok(Err(TokenError::NotGenuine)),
    }
}
