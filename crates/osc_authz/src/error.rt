//! Why a post is refused, or an exchange makes no context.

ghost use Rattle.std.specs.Prelude.{◌≡◌};
ghost use Rattle.osc_authz.specs.Errors.{post_number, finish_number};
ghost use Rattle.osc_authz.specs.Post.{code_of};

use crate::client::OpenExchange;
use osc_model::{Code, refusals};
use osc_token::TokenError;
use thiserror::Error;

/// Why a post to authz-info is refused: the first of these that applies.
#[derive(Clone, Copy, Debug, PartialEq, Eq, Error)]
pub enum PostError {
    /// Its payload isn't one whole map, or lacks a field, or has one of another type or length.
    #[error("a field is missing, or of another type or length")]
    Fields,
    /// Its token is refused.
    #[error("the token is refused")]
    Token(TokenError),
    /// Its token is revoked.
    #[error("the token is revoked")]
    Revoked,
    /// It was agreed to before, and the context that it made is gone.
    #[error("the post came before")]
    Replayed,
    /// 64 other tokens have a live context.
    #[error("too many tokens have a context")]
    Full,
}

impl PostError {
    /// The number by which programs name the refusal.
    pub fn number(self) -> u8
        ensures { result ≡ post_number self }
    {
        match self {
            PostError::Fields => refusals::FIELDS,
            PostError::Token(error) => error.number(),
            PostError::Revoked => refusals::REVOKED,
            PostError::Replayed => refusals::REPLAY,
            PostError::Full => refusals::FULL,
        }
    }

    /// The code of the answer, which has no payload.
    pub fn code(self) -> Code
        ensures { result ≡ code_of self }
    {
        match self {
            PostError::Fields => Code::BAD_REQUEST,
            PostError::Token(error) => token_code(error),
            PostError::Revoked | PostError::Replayed => Code::UNAUTHORIZED,
            PostError::Full => Code::SERVICE_UNAVAILABLE,
        }
    }
}

/// The code of the answer to a post whose token is refused.
fn token_code(error: TokenError) -> Code
    ensures { result ≡ code_of (PostError.Token error) }
{
    match error {
        TokenError::NotGenuine | TokenError::NotYet | TokenError::Expired => Code::UNAUTHORIZED,
        TokenError::Audience => Code::FORBIDDEN,
        TokenError::BadClaims | TokenError::BadScope => Code::BAD_REQUEST,
    }
}

/// Why no client is granted a token with this input material: the first of these that applies.
#[derive(Clone, Copy, Debug, PartialEq, Eq, Error)]
pub enum GrantError {
    /// The master secret is empty, or longer than 64 bytes.
    #[error("the secret has no byte, or more than 64")]
    Secret,
    /// The salt is longer than 64 bytes.
    #[error("the salt has more than 64 bytes")]
    Salt,
    /// The id context is longer than 64 bytes.
    #[error("the id context has more than 64 bytes")]
    IdContext,
}

/// Why an exchange makes no context. It is used up, but for lack of memory.
#[derive(Debug, Drop, Error)]
pub enum FinishError {
    /// The answer isn't 2.01 with a readable nonce and recipient ID.
    #[error("the answer is not 2.01, or a field is missing or of another type or length")]
    Fields,
    /// The server answered the client's own ID.
    #[error("both ends have the same ID")]
    EqualIds,
    /// There was no memory: the open exchange is handed back.
    #[error("out of memory")]
    Memory(OpenExchange),
}

impl FinishError {
    /// The number by which programs name the refusal.
    pub fn number(&self) -> u8
        ensures { result ≡ finish_number self.now }
    {
        match self {
            FinishError::Fields => refusals::FIELDS,
            FinishError::EqualIds => refusals::EQUAL_IDS,
            FinishError::Memory(_) => refusals::MEMORY,
        }
    }
}
