//! Judging claims.

ghost use Rattle.std.specs.Prelude.{◌≡◌, ◌↔◌, ℕ, List, Some, Err, IsTrue, IsFalse, IfOk, IfErr, IsErr, option_copied, option_and_then};
ghost use Rattle.osc_model.specs.{HasBegun, IsNotOver};
ghost use Rattle.osc_cbor.specs.{DataItem, text_string, IsWhole};
ghost use Rattle.osc_cbor.specs.Parts as part;
ghost use Rattle.osc_token.specs.Claims.{ComesTo};
ghost use Rattle.osc_token.specs.Inner.Judging as spec;
ghost use Rattle.osc_token.specs.Inner.Opening.{answer_of};
ghost use Rattle.osc_token.specs.Inner.Reading as reading;

use crate::audience::Audience;
use crate::claims::Claims;
use crate::error::TokenError;
use crate::found::ClaimsRef;
use crate::material::{MaterialRef, material_under};
use osc_cbor::ItemRef;
use osc_model::{Bytes, Moment};
use osc_scope::{Scope, ScopeError};
use std::alloc::{AllocError, Global};

/// The time in which claims count, in whole seconds.
#[derive(Clone, Copy)]
pub(crate) struct Dates {
    not_before: Option<u64>,
    expires: Option<u64>,
}

/// What a token of this text grants to its holder for this audience at this moment: its claims, and the scope that their
/// bytes are.
///
/// # Errors
///
/// The first check that fails, in this order: the text is a map, whose dates are numbers (`BadClaims`); its time has begun
/// (`NotYet`) and isn't over (`Expired`); it is for the audience (`Audience`); it has input material (`BadClaims`) and a
/// scope (`BadScope`). The outer error is lack of memory, and comes only where the text is one whole item of CBOR.
pub fn judge(
    alloc: Global,
    text: &[u8],
    audience: &Audience,
    now: Moment,
) -> Result<Result<(Claims, Scope), TokenError>, AllocError>
    ensures judged { IfOk result (λ outcome. ComesTo text.now audience.now now outcome) }
    ensures memory { IsErr result → (d : DataItem) × IsWhole text.now d }
{
    match ItemRef::whole(text) {
        Some(item) => judge_item(alloc, item, audience, now),
        None => Ok(Err(TokenError::BadClaims)),
    }
}

/// What claims of this item grant, as [`judge`] says.
fn judge_item(
    alloc: Global,
    item: ItemRef<'_>,
    audience: &Audience,
    now: Moment,
) -> Result<Result<(Claims, Scope), TokenError>, AllocError>
    ensures judged { (text : List ℕ) → reading.IsItem text item.entry
        → IfOk result (λ outcome. ComesTo text audience.now now outcome) }
{
    judge_claims(alloc, &ClaimsRef::new(item), audience, now)
}

/// What these claims grant, as [`judge`] says.
fn judge_claims(
    alloc: Global,
    claims: &ClaimsRef<'_>,
    audience: &Audience,
    now: Moment,
) -> Result<Result<(Claims, Scope), TokenError>, AllocError>
    ensures judged { (text : List ℕ) → reading.IsItem text claims.now
        → IfOk result (λ outcome. ComesTo text audience.now now outcome) }
    // Memory is taken for what the claims grant, and not to refuse them.
    ensures memory { IsErr result → spec.IsGranting claims.now audience.now now }
{
    let (dates, material) = match bound_in(claims, audience, now) {
        Ok(bound) => bound,
        Err(error) => return Ok(Err(error)),
    };
    let Some(bytes) = scope_bytes(claims) else {
        return Ok(Err(TokenError::BadScope));
    };
    match scope_found(Scope::from_cbor(alloc, bytes))? {
        Some(scope) => {
            let claims = granted(alloc, audience, dates, &material, bytes)?;
            Ok(Ok((claims, scope)))
        }
        None => Ok(Err(TokenError::BadScope)),
    }
}

/// The dates and the input material of claims that are in their time and for this audience; else the first check that
/// fails, as [`judge`] says. Takes no memory.
fn bound_in<'a>(
    claims: &ClaimsRef<'a>,
    audience: &Audience,
    now: Moment,
) -> Result<(Dates, MaterialRef<'a>), TokenError>
    ensures bound { IfOk result (λ bound. spec.AreBound claims.now audience.now now bound.0 bound.1) }
    ensures refused { IfErr result (λ error. (text : List ℕ) → reading.IsItem text claims.now
        → ComesTo text audience.now now (Err error)) }
{
    let Some(dates) = dates_in(claims) else {
        return Err(TokenError::BadClaims);
    };
    if !has_begun(dates.not_before, now) {
        return Err(TokenError::NotYet);
    }
    if is_over(dates.expires, now) {
        return Err(TokenError::Expired);
    }
    if !is_for(claims, audience) {
        return Err(TokenError::Audience);
    }
    match material_in(claims) {
        Some(material) => Ok((dates, material)),
        None => Err(TokenError::BadClaims),
    }
}

/// The claims with these parts.
fn granted(
    alloc: Global,
    audience: &Audience,
    dates: Dates,
    material: &MaterialRef<'_>,
    scope: &[u8],
) -> Result<Claims, AllocError>
    ensures { IfOk result (λ claims. claims ≡ record {
      audience = audience.now;
      not_before = dates.not_before;
      expires = dates.expires;
      material = material.now;
      scope = scope.now;
    }) }
{
    Ok(Claims {
        audience: audience.clone()?,
        not_before: dates.not_before,
        expires: dates.expires,
        material: material.to_owned(alloc)?,
        scope: Bytes::from_slice(alloc, scope)?,
    })
}

/// The input material of the claims, where they have it.
fn material_in<'a>(claims: &ClaimsRef<'a>) -> Option<MaterialRef<'a>>
    ensures { result ≡ reading.material_in claims.now }
{
    material_under(&claims.values.confirmation)
}

/// The dates of the claims, if they are a map whose dates are numbers.
fn dates_in(claims: &ClaimsRef<'_>) -> Option<Dates>
    ensures { result ≡ reading.dates_in claims.now }
{
    claims.item().as_map()?;
    Some(Dates {
        not_before: date(&claims.values.not_before)?,
        expires: date(&claims.values.expires)?,
    })
}

/// The date, where it is there; none where it is no number.
fn date(value: &Option<ItemRef<'_>>) -> Option<Option<u64>>
    ensures { result ≡ reading.date_of value.now }
{
    match value {
        Some(value) => Some(Some(value.as_unsigned()?)),
        None => Some(None),
    }
}

/// Whether the moment isn't before the first second.
fn has_begun(not_before: Option<u64>, now: Moment) -> bool
    ensures { IsTrue result ↔ HasBegun not_before now }
{
    match not_before {
        Some(seconds) => seconds <= now.ms / 1000,
        None => true,
    }
}

/// Whether the moment is at the second at which it is over, or later.
fn is_over(expires: Option<u64>, now: Moment) -> bool
    ensures { IsFalse result ↔ IsNotOver expires now }
{
    match expires {
        Some(seconds) => now.ms / 1000 >= seconds,
        None => false,
    }
}

/// Whether the claims are for this audience.
fn is_for(claims: &ClaimsRef<'_>, audience: &Audience) -> bool
    ensures { IsTrue result ↔ (part.value 3 claims.now ≡ Some (text_string audience.now)) }
{
    match &claims.values.audience {
        Some(value) => value.as_text() == Some(audience.as_str()),
        None => false,
    }
}

/// The scope, where one was read. An error is lack of memory, which is the answer there alone.
fn scope_found(read: Result<Scope, ScopeError>) -> Result<Option<Scope>, AllocError>
    ensures answer { IfOk result (λ scope. scope ≡ answer_of read) }
    ensures memory { IsErr result ↔ (read ≡ Err ScopeError.Memory) }
{
    match read {
        Ok(scope) => Ok(Some(scope)),
        Err(ScopeError::BadScope) => Ok(None),
        Err(ScopeError::Memory) => Err(AllocError),
    }
}

/// The bytes of the claim scope, if it is a byte string.
fn scope_bytes<'a>(claims: &ClaimsRef<'a>) -> Option<&'a [u8]>
    ensures { option_copied result ≡ option_and_then part.as_bytes (part.value 9 claims.now) }
{
    claims.values.scope.as_ref()?.as_bytes()
}
