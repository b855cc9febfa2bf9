//! Enrolment: a token minted from claims, and what its holder is granted.

ghost use Rattle.std.specs.Prelude.{◌≡◌, ℕ, List, [], IfErr, IfOk, OnOk};
ghost use Rattle.osc_authz.specs.Enrolling.{FitAToken, HasScope, IsDeskOf, IsLawful, IsRefusal, of_mint, of_scope};
ghost use Rattle.osc_authz.specs.declared.enrolling.EnrollError.TheVariants as enroll_variants;
ghost use Rattle.osc_cbor.specs.{spelling};
ghost use Rattle.osc_cose.specs.{enc_structure, object_item};
ghost use Rattle.osc_scope.specs.{Entry, IsScope, scope_of};
ghost use Rattle.osc_token.specs.{algorithm_header, claims_item, token_object};

use crate::error::GrantError;
use crate::granted::ClientDesk;
use osc_ccm::Aead;
use osc_model::Bytes;
use osc_scope::{Scope, ScopeError};
use osc_token::{Claims, MintError, claims_text, mint};
use std::alloc::{AllocError, AllocFailed, Global};
use thiserror::Error;

/// What is made of claims.
#[derive(Drop)]
pub struct Enrolled {
    /// What the holder of the token is granted.
    pub desk: ClientDesk,
    /// The scope of the claims.
    pub scope: Scope,
    /// The text of the claims, which is sealed in the token.
    pub text: Bytes,
}

/// Why no token is made of claims: the first of these that applies, or lack of memory.
#[derive(Clone, Copy, Debug, PartialEq, Eq, Error)]
pub enum EnrollError {
    /// The scope of the claims isn't one.
    #[error("the scope can't be read")]
    BadScope,
    /// The claims have more than 65535 bytes.
    #[error("the claims are too long for a token")]
    TooLong,
    /// The input material has a length that no token may have.
    #[error("{0}")]
    Grant(GrantError),
    /// There was no memory.
    #[error("out of memory")]
    Memory,
}

impl From<ScopeError> for EnrollError {
    ghost from_gives = { λ error e. e ≡ of_scope error };

    fn from(error: ScopeError) -> EnrollError {
        match error {
            ScopeError::BadScope => EnrollError::BadScope,
            ScopeError::Memory => EnrollError::Memory,
        }
    }
}

impl From<MintError> for EnrollError {
    ghost from_gives = { λ error e. e ≡ of_mint error };

    fn from(error: MintError) -> EnrollError {
        match error {
            MintError::TooLong => EnrollError::TooLong,
            MintError::Memory => EnrollError::Memory,
        }
    }
}

impl From<GrantError> for EnrollError {
    ghost from_gives = { λ error e. e ≡ enroll_variants.Grant error };

    fn from(error: GrantError) -> EnrollError {
        EnrollError::Grant(error)
    }
}

impl From<AllocError> for EnrollError {
    ghost from_gives = { λ _ e. e ≡ enroll_variants.Memory };

    fn from(_error: AllocError) -> EnrollError {
        EnrollError::Memory
    }
}

impl<T: Drop> From<AllocFailed<T>> for EnrollError {
    ghost from_gives = { λ _ e. e ≡ enroll_variants.Memory };

    fn from(_error: AllocFailed<T>) -> EnrollError {
        EnrollError::Memory
    }
}

/// Mints the token of these claims under the key that its issuer and the server share, and says what its holder is granted. One IV is used
/// for one token alone under a key.
///
/// # Errors
///
/// The first that applies: `BadScope` where the scope of the claims isn't one, `TooLong` where they have more than 65535 bytes, `Grant` where
/// their input material has a length that no token may have; or `Memory`, whatever they are.
pub fn enroll<A: Aead>(
    alloc: Global,
    claims: &Claims,
    key: &[u8; 16],
    iv: &[u8; 13],
) -> Result<Enrolled, EnrollError>
    // The token is the object of the claims' text, sealed under the key (RFC 8392 section 7).
    ensures sealed { IfOk result (λ made. (ciphertext : List ℕ)
        × A.is_sealing key.now iv.now (enc_structure algorithm_header []) (spelling (claims_item claims.now)) ciphertext
        × IsDeskOf claims.now.material (spelling (object_item (token_object iv.now ciphertext))) made.desk) }
    ensures scope { IfOk result (λ made. (entries : List Entry) × IsScope claims.now.scope entries × (made.scope ≡ scope_of entries)) }
    ensures text { IfOk result (λ made. made.text ≡ spelling (claims_item claims.now)) }
    ensures lawful { OnOk result (IsLawful claims.now) }
    ensures refused { IfErr result (λ error. IsRefusal claims.now error) }
{
    let scope = scope_in(alloc, claims)?;
    let token = token_of::<A>(alloc, claims, key, iv)?;
    let text = Bytes::from_vec(claims_text(alloc, claims)?);
    let desk = desk_of(claims, token)?;
    Ok(Enrolled { desk, scope, text })
}

/// The scope of claims.
fn scope_in(alloc: Global, claims: &Claims) -> Result<Scope, EnrollError>
    ensures found { IfOk result (λ scope. (entries : List Entry) × IsScope claims.now.scope entries × (scope ≡ scope_of entries)) }
    ensures refused { IfErr result (λ error. IsRefusal claims.now error) }
{
    Ok(Scope::from_cbor(alloc, claims.scope.as_slice())?)
}

/// The token of claims that have a scope.
fn token_of<A: Aead>(
    alloc: Global,
    claims: &Claims,
    key: &[u8; 16],
    iv: &[u8; 13],
) -> Result<Bytes, EnrollError>
    requires { HasScope claims.now }
    ensures sealed { IfOk result (λ token. (ciphertext : List ℕ)
        × A.is_sealing key.now iv.now (enc_structure algorithm_header []) (spelling (claims_item claims.now)) ciphertext
        × (token ≡ spelling (object_item (token_object iv.now ciphertext)))) }
    ensures fits { OnOk result (FitAToken claims.now) }
    ensures refused { IfErr result (λ error. IsRefusal claims.now error) }
{
    let mut token = Vec::new(alloc);
    mint::<A>(alloc, claims, key, iv, &mut token)?;
    Ok(Bytes::from_vec(token))
}

/// What the holder of the token of these claims is granted.
fn desk_of(claims: &Claims, token: Bytes) -> Result<ClientDesk, EnrollError>
    requires scope { HasScope claims.now }
    requires fits { FitAToken claims.now }
    ensures desk { IfOk result (λ desk. IsDeskOf claims.now.material token desk) }
    ensures lawful { OnOk result (IsLawful claims.now) }
    ensures refused { IfErr result (λ error. IsRefusal claims.now error) }
{
    let material = &claims.material;
    let secret = material.secret.clone()?;
    let salt = material.salt.clone()?;
    let id_context = material.id_context.clone()?;
    Ok(ClientDesk::new(token, secret, salt, id_context, material.alg)?)
}
