//! Why bytes can't be read.

ghost use Rattle.std.specs.Prelude.{◌≡◌};
ghost use Rattle.osc_cbor.specs.Errors.{number_of};
ghost use Rattle.osc_cbor.specs.declared.error.ReadError.TheVariants.{Memory};

use osc_model::refusals;
use std::alloc::{AllocError, AllocFailed};
use thiserror::Error;

/// Why no item is at the beginning of some bytes: the first fault in their order, but for `Memory`.
#[derive(Clone, Copy, Debug, PartialEq, Eq, Error)]
pub enum ReadError {
    /// The bytes end inside an item.
    #[error("the bytes end inside an item")]
    Truncated,
    /// What is there isn't in the subset: a reserved head, an indefinite length, a floating-point number, another
    /// simple value, or a text that isn't UTF-8.
    #[error("an item of an unsupported kind, or a text that is not UTF-8")]
    Unsupported,
    /// A map has two equal keys.
    #[error("two equal keys in a map")]
    DuplicateKey,
    /// An item is in more than 8 arrays, maps and tags.
    #[error("items are nested too deep")]
    TooDeep,
    /// There was no memory for the item.
    #[error("out of memory")]
    Memory,
}

impl ReadError {
    /// The number by which programs name the refusal.
    pub fn number(self) -> u8
        ensures { result ≡ number_of self }
    {
        match self {
            ReadError::Truncated => refusals::TRUNCATED,
            ReadError::Unsupported => refusals::UNSUPPORTED,
            ReadError::DuplicateKey => refusals::DUPLICATE_KEY,
            ReadError::TooDeep => refusals::TOO_DEEP,
            ReadError::Memory => refusals::MEMORY,
        }
    }
}

impl From<AllocError> for ReadError {
    ghost from_gives = { λ _ e. e ≡ Memory };

    fn from(_error: AllocError) -> ReadError {
        ReadError::Memory
    }
}

impl<T: Drop> From<AllocFailed<T>> for ReadError {
    ghost from_gives = { λ _ e. e ≡ Memory };

    fn from(_error: AllocFailed<T>) -> ReadError {
        ReadError::Memory
    }
}
