//! Why bytes are no object, or an object isn't sealed or opened.

ghost use Rattle.std.specs.Prelude.{◌≡◌};
ghost use Rattle.osc_cose.specs.Errors.{parse_number, seal_number, open_number};
ghost use Rattle.osc_cose.specs.declared.error.ParseEncrypt0Error.TheVariants as parse_variants;
ghost use Rattle.osc_cose.specs.declared.error.SealEncrypt0Error.TheVariants as seal_variants;
ghost use Rattle.osc_cose.specs.declared.error.OpenEncrypt0Error.TheVariants as open_variants;

use osc_model::refusals;
use std::alloc::AllocError;
use thiserror::Error;

/// Why bytes are no COSE_Encrypt0 object.
#[derive(Clone, Copy, Debug, PartialEq, Eq, Error)]
pub enum ParseEncrypt0Error {
    /// They aren't one whole item of its form.
    #[error("not a COSE_Encrypt0 object")]
    Shape,
    /// There was no memory.
    #[error("out of memory")]
    Memory,
}

impl ParseEncrypt0Error {
    /// The number by which programs name the refusal.
    pub fn number(self) -> u8
        ensures { result ≡ parse_number self }
    {
        match self {
            ParseEncrypt0Error::Shape => refusals::SHAPE,
            ParseEncrypt0Error::Memory => refusals::MEMORY,
        }
    }
}

impl From<AllocError> for ParseEncrypt0Error {
    ghost from_gives = { λ _ e. e ≡ parse_variants.Memory };

    fn from(_error: AllocError) -> ParseEncrypt0Error {
        ParseEncrypt0Error::Memory
    }
}

/// Why nothing is sealed.
#[derive(Clone, Copy, Debug, PartialEq, Eq, Error)]
pub enum SealEncrypt0Error {
    /// The text or the associated data is longer than the cipher takes.
    #[error("the text or the associated data is too long")]
    TooLong,
    /// There was no memory.
    #[error("out of memory")]
    Memory,
}

impl SealEncrypt0Error {
    /// The number by which programs name the refusal.
    pub fn number(self) -> u8
        ensures { result ≡ seal_number self }
    {
        match self {
            SealEncrypt0Error::TooLong => refusals::TOO_LONG,
            SealEncrypt0Error::Memory => refusals::MEMORY,
        }
    }
}

impl From<AllocError> for SealEncrypt0Error {
    ghost from_gives = { λ _ e. e ≡ seal_variants.Memory };

    fn from(_error: AllocError) -> SealEncrypt0Error {
        SealEncrypt0Error::Memory
    }
}

/// Why an object isn't opened.
#[derive(Clone, Copy, Debug, PartialEq, Eq, Error)]
pub enum OpenEncrypt0Error {
    /// The protected header names another algorithm than AES-CCM-16-64-128, or none.
    #[error("the algorithm is another, or isn't named")]
    Algorithm,
    /// The ciphertext or the associated data is longer than the cipher takes.
    #[error("the ciphertext or the associated data is too long")]
    TooLong,
    /// The ciphertext isn't the sealing of any text.
    #[error("not genuine")]
    NotGenuine,
    /// There was no memory.
    #[error("out of memory")]
    Memory,
}

impl OpenEncrypt0Error {
    /// The number by which programs name the refusal.
    pub fn number(self) -> u8
        ensures { result ≡ open_number self }
    {
        match self {
            OpenEncrypt0Error::Algorithm => refusals::ALGORITHM,
            OpenEncrypt0Error::TooLong => refusals::TOO_LONG,
            OpenEncrypt0Error::NotGenuine => refusals::NOT_GENUINE,
            OpenEncrypt0Error::Memory => refusals::MEMORY,
        }
    }
}

impl From<AllocError> for OpenEncrypt0Error {
    ghost from_gives = { λ _ e. e ≡ open_variants.Memory };

    fn from(_error: AllocError) -> OpenEncrypt0Error {
        OpenEncrypt0Error::Memory
    }
}
