//! Why a message isn't protected, read or opened.

ghost use Rattle.std.specs.Prelude.{◌≡◌};
ghost use Rattle.osc_model.specs.Refusals as refusal;

use crate::room::Room;
use osc_context::{AcceptedNumber, SendNumber};
use osc_model::refusals;
use thiserror::Error;

/// The OSCORE option's value is malformed, or there is no payload; of a request also: it has no Partial IV or no kid.
#[derive(Clone, Copy, Debug, PartialEq, Eq, Error)]
#[error("the OSCORE option or the payload is malformed")]
pub struct Malformed;

impl Malformed {
    /// The number by which programs name the refusal.
    pub fn number(self) -> u8
        ensures { result ≡ refusal.malformed }
    {
        refusals::MALFORMED
    }
}

/// What a request seals is the sealing of no text.
#[derive(Clone, Copy, Debug, PartialEq, Eq, Error)]
#[error("what the request seals is the sealing of no text")]
pub struct RequestNotGenuine;

impl RequestNotGenuine {
    /// The number by which programs name the refusal.
    pub fn number(self) -> u8
        ensures { result ≡ refusal.not_genuine }
    {
        refusals::NOT_GENUINE
    }
}

/// What a response seals is the sealing of no text.
#[derive(Clone, Copy, Debug, PartialEq, Eq, Error)]
#[error("what the response seals is the sealing of no text")]
pub struct ResponseNotGenuine;

impl ResponseNotGenuine {
    /// The number by which programs name the refusal.
    pub fn number(self) -> u8
        ensures { result ≡ refusal.not_genuine }
    {
        refusals::NOT_GENUINE
    }
}

/// The protected message would be longer than a datagram may be: room and number are handed back.
#[derive(Debug)]
pub struct MessageTooLong {
    /// The room, as it was.
    pub room: Room,
    /// The number, not spent.
    pub number: SendNumber,
}

impl MessageTooLong {
    /// The number by which programs name the refusal.
    pub fn number(&self) -> u8
        ensures { result ≡ refusal.datagram_too_long }
    {
        refusals::DATAGRAM_TOO_LONG
    }
}

/// The protected reply would be longer than a datagram may be: room and number are handed back.
#[derive(Debug)]
pub struct ReplyTooLong {
    /// The room, as it was.
    pub room: Room,
    /// The accepted number, not spent.
    pub number: AcceptedNumber,
}

impl ReplyTooLong {
    /// The number by which programs name the refusal.
    pub fn number(&self) -> u8
        ensures { result ≡ refusal.datagram_too_long }
    {
        refusals::DATAGRAM_TOO_LONG
    }
}
