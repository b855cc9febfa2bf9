//! A message that lends its parts from a datagram.

ghost use Rattle.std.specs.Prelude.{◌≡◌, ◌<◌, ◌^◌, ◌↔◌, length, IfOk, Ok, Err};
ghost use Rattle.std.specs.Option.{option_copied};
ghost use Rattle.osc_coap.specs.Header.{HasOtherVersion};
ghost use Rattle.osc_coap.specs.Message.{Message, HasSpelling, Spells, spelling};
ghost use Rattle.osc_coap.specs.Reading.{message_at};

use crate::error::ParseError;
use crate::kind::Kind;
use crate::options::{Options, payload_of};
use std::fmt;
use std::marker::Model;

/// A message (RFC 7252 section 3) whose token, options and payload are slices of the datagram, and
/// so outlive the `MessageRef` itself.
#[derive(Clone, Drop)]
pub struct MessageRef<'a> {
    kind: Kind,
    code: u8,
    id: u16,
    token: &'a [u8],
    /// The options, and what follows them.
    body: &'a [u8],
    payload: Option<&'a [u8]>,
}

// What a message carries isn't printed.
impl<'a> fmt::Debug for MessageRef<'a> {
    fn fmt<W: fmt::Write>(&self, f: &mut fmt::Formatter<W>) -> fmt::Result {
        f.write_str("MessageRef")
    }
}

impl<'a> Model for MessageRef<'a> {
    ghost use Rattle.osc_coap.specs.Message.{Message};

    ghost Value = { Message };

    ghost use Rattle.osc_coap.specs.MessageRef as spec;

    ghost view = { spec.view };

    ghost invariant = { spec.IsKept };
}

/// Reads the header, the token and what follows.
#[tactic(auto, unfolding(crate::specs::Reading::message_at, crate::specs::Reading::fields_at))]
fn read(datagram: &[u8]) -> Result<MessageRef<'_>, ParseError>
    ensures { result ≡ message_at datagram.now }
{
    let [first, code, high, low, rest @ ..] = datagram else {
        return Err(ParseError::Format);
    };
    if *first / 64 != 1 {
        return Err(ParseError::Version);
    }
    let token_length = (*first % 16) as usize;
    if token_length > 8 || rest.len() < token_length || (*code == 0 && !rest.is_empty()) {
        return Err(ParseError::Format);
    }
    let (token, body) = rest.split_at(token_length);
    let Some(payload) = payload_of(body) else {
        return Err(ParseError::Format);
    };
    Ok(MessageRef {
        kind: Kind::from_bits(*first / 16 % 4),
        code: *code,
        id: 256 * *high as u16 + *low as u16,
        token,
        body,
        payload,
    })
}

impl<'a> MessageRef<'a> {
    /// The message that the datagram is. The error is `Version` where the header names another
    /// version than 1, and `Format` for all else, first of all for fewer than 4 bytes.
    pub fn parse(datagram: &'a [u8]) -> Result<MessageRef<'a>, ParseError>
        // What is read is spelled so.
        ensures found { IfOk result (λ m. Spells datagram.now m) }
        // What is spelled so is read.
        ensures only { (m : Message) → Spells datagram.now m → result ≡ Ok m }
        // The one other error is `Format`.
        ensures version { (result ≡ Err ParseError.Version) ↔ HasOtherVersion datagram.now }
    {
        read(datagram)
    }

    /// How the message is delivered, or what it answers.
    pub fn kind(&self) -> Kind
        ensures { result ≡ self.now.kind }
    {
        self.kind
    }

    /// Three bits of class and five of detail: 0x45 is 2.05. Code 0.00 is that of an empty message.
    pub fn code(&self) -> u8
        ensures value { result ≡ self.now.code }
        ensures lawful { HasSpelling self.now }
    {
        self.code
    }

    /// The message ID.
    pub fn id(&self) -> u16
        ensures { result ≡ self.now.id }
    {
        self.id
    }

    /// At most 8 bytes.
    pub fn token(&self) -> &'a [u8]
        ensures value { result.now ≡ self.now.token }
        ensures lawful { HasSpelling self.now }
    {
        self.token
    }

    /// How many bytes the message has.
    pub fn length(&self) -> usize
        ensures { result ≡ length (spelling self.now) }
    {
        4 + self.token.len() + self.body.len()
    }

    /// The options in order, each as its number and its value.
    pub fn options(&self) -> Options<'a>
        ensures value { result ≡ self.now.options }
        ensures lawful { HasSpelling self.now }
        ensures count { length result < 2 ^ 64 }
    {
        Options::new(self.body)
    }

    /// At least one byte, if there is a payload.
    pub fn payload(&self) -> Option<&'a [u8]>
        ensures value { option_copied result ≡ self.now.payload }
        ensures lawful { HasSpelling self.now }
    {
        self.payload
    }
}
