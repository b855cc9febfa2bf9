//! Why a datagram is no message, and why a message is not built.

ghost use Rattle.std.specs.Prelude.{◌≡◌};
ghost use Rattle.osc_model.specs.Refusals as refusal;
ghost use Rattle.osc_coap.specs.Errors.{number_of};

use osc_model::refusals;
use thiserror::Error;

/// Why a datagram is no message (RFC 7252 section 3).
#[derive(Clone, Copy, Debug, PartialEq, Eq, Hash, Error)]
pub enum ParseError {
    /// The header names another version than 1.
    #[error("the version is not 1")]
    Version,
    /// Fewer than the four bytes of a header, or bytes that spell no message.
    #[error("the bytes are no CoAP message")]
    Format,
}

impl ParseError {
    /// The error's number, under which programs report it: 12 `Version`, 13 `Format`.
    pub fn number(self) -> u8
        ensures { result ≡ number_of self }
    {
        match self {
            ParseError::Version => refusals::VERSION,
            ParseError::Format => refusals::FORMAT,
        }
    }
}

/// The message would be longer than a datagram may be.
#[derive(Clone, Copy, Debug, PartialEq, Eq, Hash, Error)]
#[error("the message is longer than 1152 bytes")]
pub struct DatagramTooLong;

impl DatagramTooLong {
    /// The error's number, under which programs report it: 14.
    pub fn number(self) -> u8
        ensures { result ≡ refusal.datagram_too_long }
    {
        refusals::DATAGRAM_TOO_LONG
    }
}
