//! What OSCORE encrypts of a message, borrowed from bytes or built into them (RFC 8613 section 5.3).

ghost use Rattle.std.specs.Prelude.{◌≡◌, ◌<◌, ◌≤◌, ◌↔◌, ◌^◌, None, Some, length, IfSome, IsOk, OnOk, OnErr};
ghost use Rattle.std.specs.Option.{option_copied};
ghost use Rattle.osc_coap.specs.Plaintext.{Plaintext, HasPlaintextSpelling, SpellsPlaintext, plaintext_spelling};
ghost use Rattle.osc_coap.specs.Length.{datagram_limit};
ghost use Rattle.osc_coap.specs.Reading.{plaintext_at};
ghost use Rattle.osc_coap.specs.Building.{last_number, bare_plaintext, with_inner_option, with_inner_payload};

use crate::body::Writer;
use crate::error::DatagramTooLong;
use crate::options::{Options, payload_of};
use arrayvec::ArrayVec;
use std::fmt;
use std::marker::Model;

/// A plaintext whose options and payload are slices of its bytes, and so outlive the `PlaintextRef`
/// itself.
#[derive(Clone, Drop)]
pub struct PlaintextRef<'a> {
    code: u8,
    /// The options, and what follows them.
    body: &'a [u8],
    payload: Option<&'a [u8]>,
}

// What was encrypted isn't printed.
impl<'a> fmt::Debug for PlaintextRef<'a> {
    fn fmt<W: fmt::Write>(&self, f: &mut fmt::Formatter<W>) -> fmt::Result {
        f.write_str("PlaintextRef")
    }
}

impl<'a> Model for PlaintextRef<'a> {
    ghost use Rattle.osc_coap.specs.Plaintext.{Plaintext};

    ghost Value = { Plaintext };

    ghost use Rattle.osc_coap.specs.PlaintextRef as spec;

    ghost view = { spec.view };

    ghost invariant = { spec.IsKept };
}

/// Reads the code and what follows.
#[tactic(auto, unfolding(crate::specs::Reading::plaintext_at))]
fn read(bytes: &[u8]) -> Option<PlaintextRef<'_>>
    ensures { result ≡ plaintext_at bytes.now }
{
    let (code, body) = bytes.split_first()?;
    let payload = payload_of(body)?;
    Some(PlaintextRef {
        code: *code,
        body,
        payload,
    })
}

impl<'a> PlaintextRef<'a> {
    /// The plaintext that the bytes are. `None` where there are no bytes, or what follows the first
    /// is no options and payload.
    pub fn parse(bytes: &'a [u8]) -> Option<PlaintextRef<'a>>
        // What is read is spelled so.
        ensures found { IfSome result (λ p. SpellsPlaintext bytes.now p) }
        // What is spelled so is read.
        ensures only { (p : Plaintext) → SpellsPlaintext bytes.now p → result ≡ Some p }
    {
        read(bytes)
    }

    /// The code of the message that was encrypted: three bits of class and five of detail.
    pub fn code(&self) -> u8
        ensures value { result ≡ self.now.code }
        ensures lawful { HasPlaintextSpelling self.now }
    {
        self.code
    }

    /// How many bytes the plaintext has.
    pub fn length(&self) -> usize
        ensures { result ≡ length (plaintext_spelling self.now) }
    {
        1 + self.body.len()
    }

    /// The options in order, each as its number and its value.
    pub fn options(&self) -> Options<'a>
        ensures value { result ≡ self.now.options }
        ensures lawful { HasPlaintextSpelling self.now }
        ensures count { length result < 2 ^ 64 }
    {
        Options::new(self.body)
    }

    /// At least one byte, if there is a payload.
    pub fn payload(&self) -> Option<&'a [u8]>
        ensures value { option_copied result ≡ self.now.payload }
        ensures lawful { HasPlaintextSpelling self.now }
    {
        self.payload
    }
}

/// A plaintext that grows: its code first, then options whose numbers don't fall, then the payload.
#[derive(Drop)]
pub struct PlaintextBuilder {
    written: Writer,
}

// What is to be encrypted isn't printed.
impl fmt::Debug for PlaintextBuilder {
    fn fmt<W: fmt::Write>(&self, f: &mut fmt::Formatter<W>) -> fmt::Result {
        f.write_str("PlaintextBuilder")
    }
}

impl Model for PlaintextBuilder {
    ghost use Rattle.osc_coap.specs.Plaintext.{Plaintext};

    ghost Value = { Plaintext };

    ghost use Rattle.osc_coap.specs.PlaintextBuilder as spec;

    ghost view = { spec.view };

    ghost invariant = { spec.IsKept };
}

impl PlaintextBuilder {
    /// A plaintext with neither options nor payload.
    pub fn start(code: u8) -> PlaintextBuilder
        ensures { result ≡ bare_plaintext code }
    {
        let mut bytes = ArrayVec::new();
        bytes.push(code);
        PlaintextBuilder {
            written: Writer { bytes, last: 0 },
        }
    }

    /// Begins a plaintext with neither options nor payload in the place of the one that is here.
    pub fn restart(&mut self, code: u8)
        ensures { self.new ≡ bare_plaintext code }
    {
        self.written.bytes.clear();
        self.written.bytes.push(code);
        self.written.last = 0;
    }

    /// Adds an option after the others.
    pub fn option(&mut self, number: u16, value: &[u8]) -> Result<(), DatagramTooLong>
        requires rises { last_number 0 self.old.options ≤ number }
        requires before_payload { self.old.payload ≡ None }
        ensures variant { IsOk result
            ↔ (length (plaintext_spelling (with_inner_option self.old number value.now))
            ≤ datagram_limit) }
        ensures ok { OnOk result (self.new ≡ with_inner_option self.old number value.now) }
        ensures err { OnErr result (self.new ≡ self.old) }
    {
        self.written.option(number, value)
    }

    /// Sets the payload. No bytes are no payload.
    pub fn payload(&mut self, payload: &[u8]) -> Result<(), DatagramTooLong>
        requires first { self.old.payload ≡ None }
        ensures variant { IsOk result
            ↔ (length (plaintext_spelling (with_inner_payload self.old payload.now))
            ≤ datagram_limit) }
        ensures ok { OnOk result (self.new ≡ with_inner_payload self.old payload.now) }
        ensures err { OnErr result (self.new ≡ self.old) }
    {
        self.written.payload(payload)
    }

    /// The bytes that OSCORE encrypts.
    pub fn bytes(&self) -> &[u8]
        ensures spelled { SpellsPlaintext result.now self.now }
        ensures fits { length result.now ≤ datagram_limit }
    {
        self.written.bytes.as_slice()
    }
}
