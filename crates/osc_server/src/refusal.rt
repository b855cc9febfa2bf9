//! Why a protected request isn't served (RFC 8613 section 8.2).
ghost use Rattle.std.specs.Prelude.{◌≡◌, Some};
ghost use Rattle.osc_server.specs.Table.{refusal_age, refusal_code, refusal_number, refusal_text};

use osc_model::{Code, RefusedRequest, refusals};

/// Why a protected request isn't served: the first of these that applies.
#[derive(Clone, Copy, Debug, PartialEq, Eq)]
pub enum Refusal {
    /// Its OSCORE option or its payload is malformed.
    Malformed,
    /// No live context is the one that it names.
    NoContext,
    /// Its number isn't fresh.
    Replayed,
    /// What it seals is the sealing of no text.
    NotGenuine,
}

impl Refusal {
    /// The number by which programs name the refusal.
    pub fn number(self) -> u8
        ensures { result ≡ refusal_number self }
    {
        match self {
            Refusal::Malformed => refusals::MALFORMED,
            Refusal::NoContext => refusals::NO_CONTEXT,
            Refusal::Replayed => refusals::REPLAY,
            Refusal::NotGenuine => refusals::NOT_GENUINE,
        }
    }

    /// What is noted of the request: the code of the answer, and the number.
    pub(crate) fn noted(self) -> RefusedRequest
        ensures { result ≡ record { code = refusal_code self; reason = Some (refusal_number self) } }
    {
        RefusedRequest {
            code: self.code(),
            reason: Some(self.number()),
        }
    }

    /// The code of the answer.
    pub(crate) fn code(self) -> Code
        ensures { result ≡ refusal_code self }
    {
        match self {
            Refusal::Malformed => Code::BAD_OPTION,
            Refusal::NoContext | Refusal::Replayed => Code::UNAUTHORIZED,
            Refusal::NotGenuine => Code::BAD_REQUEST,
        }
    }

    /// How many seconds the answer may be kept.
    pub(crate) fn max_age(self) -> Option<u16>
        ensures { result ≡ refusal_age self }
    {
        match self {
            Refusal::NoContext | Refusal::Replayed => Some(0),
            Refusal::Malformed | Refusal::NotGenuine => None,
        }
    }

    /// The diagnostic payload of the answer.
    pub(crate) fn text(self) -> &'static [u8]
        ensures { result.now ≡ refusal_text self }
    {
        match self {
            Refusal::Malformed => b"Failed to decode COSE",
            Refusal::NoContext => b"Security context not found",
            Refusal::Replayed => b"Replay detected",
            Refusal::NotGenuine => b"Decryption failed",
        }
    }
}
