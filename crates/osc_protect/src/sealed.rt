//! What protected messages say before they are opened (RFC 8613 sections 8.2 and 8.4).

ghost use Rattle.std.specs.Prelude.{◌≡◌, ◌↔◌, ◌≤◌, Ok, Some, IfOk, IfSome, IsTrue, option_copied};
ghost use Rattle.osc_context.specs.{greatest_number};
ghost use Rattle.osc_options.specs.{value as value_in};
ghost use Rattle.osc_protect.specs.Protection.{SealedRequest, SaysRequest, IsFor, SealedResponse, IsResponse};

use crate::error::Malformed;
use crate::value::OscoreOption;
use osc_coap::MessageRef;
use osc_model::{Bytes, ContextName};
use osc_options::OscoreValue;
use osc_options::numbers::OSCORE;
use std::marker::Model;

/// A protected request as it came in: its number, its kid, maybe a kid context, and what is sealed, which are slices of the
/// message. Nothing of it is known to be genuine.
#[derive(Clone, Debug, Drop)]
pub struct SealedRequestRef<'a> {
    number: u64,
    kid: &'a [u8],
    kid_context: Option<&'a [u8]>,
    sealed: &'a [u8],
}

impl<'a> Model for SealedRequestRef<'a> {
    ghost use Rattle.std.specs.Prelude.{◌≤◌, option_copied};
    ghost use Rattle.osc_context.specs.{greatest_number};
    ghost use Rattle.osc_protect.specs.Protection.{SealedRequest};

    ghost Value = { SealedRequest };

    ghost view = { λ request. record { number = request.number; kid = request.kid.now; kid_context = option_copied request.kid_context; sealed = request.sealed.now } };

    ghost invariant = { λ request. request.number ≤ greatest_number };
}

/// A protected response as it came in: maybe a Partial IV of its own, and what is sealed, which is a slice of the message.
/// Nothing of it is known to be genuine.
#[derive(Clone, Debug, Drop)]
pub struct SealedResponseRef<'a> {
    own: Option<u64>,
    sealed: &'a [u8],
}

impl<'a> Model for SealedResponseRef<'a> {
    ghost use Rattle.std.specs.Prelude.{◌≤◌, IfSome};
    ghost use Rattle.osc_context.specs.{greatest_number};
    ghost use Rattle.osc_protect.specs.Protection.{SealedResponse};

    ghost Value = { SealedResponse };

    ghost view = { λ response. record { own = response.own; sealed = response.sealed.now } };

    ghost invariant = { λ response. IfSome response.own (λ n. n ≤ greatest_number) };
}

/// The value of the first OSCORE option. It is looked for up to a larger number, since numbers don't fall.
fn oscore_value<'a>(message: &MessageRef<'a>) -> Option<&'a [u8]>
    ensures { option_copied result ≡ value_in 9 message.now.options }
{
    for (number, value) in message.options() {
        if number == OSCORE {
            return Some(value);
        }
        if number > OSCORE {
            return None;
        }
    }
    None
}

/// Reads a protected request, of which the value of option 9 was found: a Partial IV and a kid are in it, and there is a payload.
///
/// # Errors
///
/// Exactly where the message is none.
pub fn read_request<'a>(
    value: &OscoreValue<'a>,
    message: &MessageRef<'a>,
) -> Result<SealedRequestRef<'a>, Malformed>
    ensures found { IfOk result (λ request. SaysRequest value.now message.now request) }
    ensures only { (request : SealedRequest) → SaysRequest value.now message.now request → result ≡ Ok request }
{
    match found_request(value.bytes(), message) {
        Some(request) => Ok(request),
        None => Err(Malformed),
    }
}

/// What the message says by this value of option 9, if it is a protected request.
fn found_request<'a>(value: &'a [u8], message: &MessageRef<'a>) -> Option<SealedRequestRef<'a>>
    ensures found { IfSome result (λ request. SaysRequest value.now message.now request) }
    ensures only { (request : SealedRequest) → SaysRequest value.now message.now request → result ≡ Some request }
{
    let option = OscoreOption::parse(value)?;
    let number = option.partial_iv()?;
    let kid = option.kid()?;
    let sealed = message.payload()?;
    Some(SealedRequestRef {
        number,
        kid,
        kid_context: option.kid_context(),
        sealed,
    })
}

/// Reads a protected response: option 9, and the payload.
///
/// # Errors
///
/// Exactly where the message is none.
pub fn read_response<'a>(message: &MessageRef<'a>) -> Result<SealedResponseRef<'a>, Malformed>
    ensures found { IfOk result (λ response. IsResponse message.now response) }
    ensures only { (response : SealedResponse) → IsResponse message.now response → result ≡ Ok response }
{
    match found_response(message) {
        Some(response) => Ok(response),
        None => Err(Malformed),
    }
}

/// What the message says, if it is a protected response.
fn found_response<'a>(message: &MessageRef<'a>) -> Option<SealedResponseRef<'a>>
    ensures found { IfSome result (λ response. IsResponse message.now response) }
    ensures only { (response : SealedResponse) → IsResponse message.now response → result ≡ Some response }
{
    let option = OscoreOption::parse(oscore_value(message)?)?;
    let sealed = message.payload()?;
    Some(SealedResponseRef {
        own: option.partial_iv(),
        sealed,
    })
}

/// Whether a kid context is this id context.
fn is_context(kid_context: &[u8], id_context: &Option<Bytes>) -> bool
    ensures { IsTrue result ↔ (id_context.now ≡ Some kid_context.now) }
{
    match id_context {
        Some(bytes) => bytes.as_slice() == kid_context,
        None => false,
    }
}

impl<'a> SealedRequestRef<'a> {
    /// The sender sequence number, by its Partial IV.
    pub fn number(&self) -> u64
        ensures value { result ≡ self.now.number }
        ensures lawful { result ≤ greatest_number }
    {
        self.number
    }

    /// The kid: the ID under which the client seals.
    pub fn kid(&self) -> &'a [u8]
        ensures { result.now ≡ self.now.kid }
    {
        self.kid
    }

    /// The kid context.
    pub fn kid_context(&self) -> Option<&'a [u8]>
        ensures { option_copied result ≡ self.now.kid_context }
    {
        self.kid_context
    }

    /// What is sealed.
    pub fn sealed(&self) -> &'a [u8]
        ensures { result.now ≡ self.now.sealed }
    {
        self.sealed
    }

    /// Whether it names this context.
    pub fn is_for(&self, name: &ContextName) -> bool
        ensures { IsTrue result ↔ IsFor name.now self.now }
    {
        let is_context = match self.kid_context {
            Some(bytes) => is_context(bytes, &name.id_context),
            None => true,
        };
        self.kid == name.client_id.as_slice() && is_context
    }
}

impl<'a> SealedResponseRef<'a> {
    /// The number of its own Partial IV, if it has one.
    pub fn own_number(&self) -> Option<u64>
        ensures value { result ≡ self.now.own }
        ensures lawful { IfSome result (λ n. n ≤ greatest_number) }
    {
        self.own
    }

    /// What is sealed.
    pub fn sealed(&self) -> &'a [u8]
        ensures { result.now ≡ self.now.sealed }
    {
        self.sealed
    }
}
