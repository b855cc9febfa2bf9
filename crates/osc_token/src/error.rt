//! Why a token is refused or not minted.

ghost use Rattle.std.specs.Prelude.{◌≡◌};
ghost use Rattle.osc_token.specs.Errors.{token_number, mint_number};
ghost use Rattle.osc_token.specs.declared.error.MintError.TheVariants as mint_variants;

use osc_model::refusals;
use std::alloc::AllocError;
use thiserror::Error;

/// Why a token is refused: the first of these that applies, in this order, but for `BadClaims`, which answers in the place
/// of the claims and in that of their input material. Lack of memory is no refusal: calls say it beside these.
#[derive(Clone, Copy, Debug, PartialEq, Eq, Error)]
pub enum TokenError {
    /// It isn't of the form of a token, or doesn't open under the key.
    #[error("not a genuine token")]
    NotGenuine,
    /// Its text is no map, or has a date of another type; or it has no input material for a security context.
    #[error("the claims can't be read")]
    BadClaims,
    /// The moment is before its first second.
    #[error("the token is not valid yet")]
    NotYet,
    /// The moment is at the second at which it expires, or later.
    #[error("the token has expired")]
    Expired,
    /// It is for another audience, or names none.
    #[error("the token is for another audience")]
    Audience,
    /// Its scope is missing, or is none.
    #[error("the scope can't be read")]
    BadScope,
}

impl TokenError {
    /// The number by which programs name the refusal.
    pub fn number(self) -> u8
        ensures { result ≡ token_number self }
    {
        match self {
            TokenError::NotGenuine => refusals::TOKEN_NOT_GENUINE,
            TokenError::BadClaims => refusals::BAD_CLAIMS,
            TokenError::NotYet => refusals::NOT_YET,
            TokenError::Expired => refusals::EXPIRED,
            TokenError::Audience => refusals::AUDIENCE,
            TokenError::BadScope => refusals::BAD_SCOPE,
        }
    }
}

/// Why no token is minted.
#[derive(Clone, Copy, Debug, PartialEq, Eq, Error)]
pub enum MintError {
    /// The claims have more than 65535 bytes.
    #[error("the claims are too long")]
    TooLong,
    /// There was no memory.
    #[error("out of memory")]
    Memory,
}

impl MintError {
    /// The number by which programs name the refusal.
    pub fn number(self) -> u8
        ensures { result ≡ mint_number self }
    {
        match self {
            MintError::TooLong => refusals::TOO_LONG,
            MintError::Memory => refusals::MEMORY,
        }
    }
}

impl From<AllocError> for MintError {
    ghost from_gives = { λ _ e. e ≡ mint_variants.Memory };

    fn from(_error: AllocError) -> MintError {
        MintError::Memory
    }
}
