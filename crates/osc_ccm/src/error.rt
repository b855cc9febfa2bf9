//! Why nothing is sealed, and why nothing is opened.

ghost use Rattle.std.specs.Prelude.{◌≡◌};
ghost use Rattle.osc_ccm.specs.Errors.{seal_number, open_number};

use osc_model::refusals;
use thiserror::Error;

/// Why a text was not sealed.
#[derive(Clone, Copy, Debug, PartialEq, Eq, Hash, Error)]
pub enum SealError {
    /// The text has more than 65535 bytes, or the associated data more than 65279.
    #[error("the text or its associated data is too long")]
    TooLong,
    /// The sealed bytes don't fit into the buffer.
    #[error("the buffer is too small")]
    OutTooSmall,
}

impl SealError {
    /// The error's number, under which programs report it: 1 `TooLong`, 2 `OutTooSmall`.
    pub fn number(self) -> u8
        ensures { result ≡ seal_number self }
    {
        match self {
            SealError::TooLong => refusals::TOO_LONG,
            SealError::OutTooSmall => refusals::OUT_TOO_SMALL,
        }
    }
}

/// Why sealed bytes were not opened.
#[derive(Clone, Copy, Debug, PartialEq, Eq, Hash, Error)]
pub enum OpenError {
    /// The text would have more than 65535 bytes, or the associated data has more than 65279.
    #[error("the sealed bytes or their associated data are too long")]
    TooLong,
    /// The text doesn't fit into the buffer.
    #[error("the buffer is too small")]
    OutTooSmall,
    /// The bytes are a sealing of no text under this key, nonce and associated data.
    #[error("the sealed bytes are not genuine")]
    NotGenuine,
}

impl OpenError {
    /// The error's number, under which programs report it: 1 `TooLong`, 2 `OutTooSmall`,
    /// 3 `NotGenuine`.
    pub fn number(self) -> u8
        ensures { result ≡ open_number self }
    {
        match self {
            OpenError::TooLong => refusals::TOO_LONG,
            OpenError::OutTooSmall => refusals::OUT_TOO_SMALL,
            OpenError::NotGenuine => refusals::NOT_GENUINE,
        }
    }
}
