//! Tokens of numbers and bytes.
ghost use Rattle.std.specs.Prelude.{◌≡◌, [], IfErr, IfOk, OnOk};
ghost use Rattle.osc_c.specs.Given.{claims_given};
ghost use Rattle.osc_c.specs.Inner.Reading.{IsUnread};
ghost use Rattle.osc_c.specs.Tokens.{AreClaims, FitsClaims, HaveLengths, IsMinted, IsNoClaims, IsNoScopeText, IsScopeOf, IsUnminted, Mints, date_of};
ghost use Rattle.osc_c.specs.declared.calls.outcome.Outcome.TheVariants.{BadArgument};

use crate::calls::arguments::{flag, sized, text};
use crate::calls::filling::fill;
use crate::calls::granted;
use crate::calls::outcome::Outcome;
use crate::calls::plain::{PlainClaims, PlainIv, PlainKey};
use osc_ccm::Aead;
use osc_model::limits::{LONGEST_ID, LONGEST_PART};
use osc_model::{Algorithm, Bytes};
use osc_scope::{ScopeError, text_to_cbor};
use osc_token::{Audience, Claims, InputMaterial, MintError};
use std::alloc::{AllocError, Global};

/// The bytes of the scope that a text says.
pub(crate) fn scope_bytes(alloc: Global, text: &[u8]) -> Result<Bytes, Outcome>
    ensures ok { IfOk result (λ bytes. IsScopeOf text.now bytes) }
    ensures err { IfErr result (IsUnread (IsNoScopeText text.now)) }
{
    let mut bytes = Vec::new(alloc);
    match text_to_cbor(alloc, text, &mut bytes) {
        Ok(()) => Ok(Bytes::from_vec(bytes)),
        Err(ScopeError::BadScope) => Err(Outcome::BadScope),
        Err(ScopeError::Memory) => Err(Outcome::NoMemory),
    }
}

/// Input material without a salt.
fn material(
    alloc: Global,
    id: &[u8],
    secret: &[u8],
    id_context: Option<Bytes>,
    alg: Algorithm,
) -> Result<InputMaterial, AllocError>
    ensures { IfOk result (λ material. material ≡ record { id = id.now; secret = secret.now; salt = []; id_context = id_context; alg = alg }) }
{
    let id = Bytes::from_slice(alloc, id)?;
    Ok(InputMaterial {
        id,
        secret: Bytes::from_slice(alloc, secret)?,
        salt: Bytes::new(alloc),
        id_context,
        alg,
    })
}

/// A date; 0 seconds stand for none.
fn date(seconds: u64) -> Option<u64>
    ensures { result ≡ date_of seconds }
{
    if seconds == 0 { None } else { Some(seconds) }
}

/// Refuses input material of lengths that a reader doesn't take (RFC 9203 section 3.2.1 leaves them open).
fn lengths(id: &[u8], secret: &[u8], context: &[u8]) -> Result<(), Outcome>
    ensures ok { OnOk result (HaveLengths id.now secret.now context.now) }
    ensures err { IfErr result (λ outcome. (outcome ≡ BadArgument) × ¬ (HaveLengths id.now secret.now context.now)) }
{
    if id.len() > LONGEST_ID
        || secret.is_empty()
        || secret.len() > LONGEST_PART
        || context.len() > LONGEST_PART
    {
        return Err(Outcome::BadArgument);
    }
    Ok(())
}

/// What a token is to claim. All but the scope is judged before memory is taken.
pub fn claims(alloc: Global, given: &PlainClaims<'_>) -> Result<Claims, Outcome>
    ensures ok { IfOk result (λ claims. AreClaims (claims_given given.now) claims) }
    ensures fits { OnOk result (FitsClaims (claims_given given.now)) }
    ensures err { IfErr result (IsNoClaims (claims_given given.now)) }
{
    sized(given.size, size_of::<PlainClaims<'_>>())?;
    lengths(given.id.bytes, given.secret.bytes, given.context.bytes)?;
    let alg = granted::algorithm(given.algorithm)?;
    flag(given.has_context)?;
    let audience = text(given.audience.bytes)?;
    let id_context = granted::id_context(alloc, given.has_context, given.context.bytes)?;
    let material = material(alloc, given.id.bytes, given.secret.bytes, id_context, alg)?;
    let scope = scope_bytes(alloc, given.scope.bytes)?;
    Ok(Claims {
        audience: Audience::new(alloc, audience)?,
        not_before: date(given.not_before),
        expires: date(given.expires),
        material,
        scope,
    })
}

/// The token of these claims.
fn minted<A: Aead>(
    alloc: Global,
    claims: &Claims,
    key: &PlainKey,
    iv: &PlainIv,
) -> Result<Vec<u8>, Outcome>
    ensures ok { IfOk result (λ token. IsMinted A.is_sealing (record { key = key.now.bytes; iv = iv.now.bytes }) claims.now token.items) }
    ensures err { IfErr result (IsUnminted claims.now) }
{
    let mut token = Vec::new(alloc);
    match osc_token::mint::<A>(alloc, claims, &key.bytes, &iv.bytes, &mut token) {
        Ok(()) => Ok(token),
        Err(MintError::TooLong) => Err(Outcome::TooLong),
        Err(MintError::Memory) => Err(Outcome::NoMemory),
    }
}

/// Mints the token of these claims, and writes it where there is room. How many bytes it has is told in either case.
pub fn mint<A: Aead>(
    alloc: Global,
    claims: Claims,
    key: &PlainKey,
    iv: &PlainIv,
    room: &mut [u8],
    size: &mut usize,
) -> Outcome
    ensures { Mints A.is_sealing (record { key = key.now.bytes; iv = iv.now.bytes }) claims
        (record { bytes = room.old; size = size.old }) result (record { bytes = room.new; size = size.new }) }
{
    match minted::<A>(alloc, &claims, key, iv) {
        Ok(token) => {
            *size = token.len();
            let fits = fill(room, &token);
            drop(token);
            if fits {
                Outcome::Done
            } else {
                Outcome::TooShort
            }
        }
        Err(outcome) => outcome,
    }
}
