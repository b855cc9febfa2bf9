//! A message built into a datagram.

ghost use Rattle.std.specs.Prelude.{◌≡◌, ◌<◌, ◌≤◌, ◌↔◌, ℕ, List, [], None, length, replicate, IsOk, OnOk, OnErr};
ghost use Rattle.arrayvec.specs.ArrayVec.{array_vec_len};
ghost use Rattle.osc_coap.specs.Message.{Message, Spells, spelling};
ghost use Rattle.osc_coap.specs.Length.{datagram_limit};
ghost use Rattle.osc_coap.specs.Building.{last_number, bare, with_option, with_payload};

use crate::body::{Writer, append};
use crate::error::DatagramTooLong;
use crate::kind::Kind;
use crate::message::MessageRef;
use crate::payload::PayloadWriter;
use arrayvec::ArrayVec;
use osc_model::limits::DATAGRAM_LIMIT;
use std::fmt;
use std::marker::Model;

/// A message that grows in a datagram: its header and token first, then options whose numbers
/// don't fall, then the payload.
#[derive(Drop)]
pub struct MessageBuilder {
    written: Writer,
}

// What a message carries isn't printed.
impl fmt::Debug for MessageBuilder {
    fn fmt<W: fmt::Write>(&self, f: &mut fmt::Formatter<W>) -> fmt::Result {
        f.write_str("MessageBuilder")
    }
}

impl Model for MessageBuilder {
    ghost use Rattle.osc_coap.specs.Message.{Message};

    ghost Value = { Message };

    ghost use Rattle.osc_coap.specs.MessageBuilder as spec;

    ghost view = { spec.view };

    ghost invariant = { spec.IsKept };
}

/// Writes the header and the token of a message, where nothing is written yet (RFC 7252 section 3).
fn write_header(
    bytes: &mut ArrayVec<u8, DATAGRAM_LIMIT>,
    kind: Kind,
    code: u8,
    id: u16,
    token: &[u8],
)
    requires first { bytes.old.items ≡ [] }
    requires size { length token.now ≤ 8 }
    ensures { bytes.new.items ≡ spelling (bare kind code id token.now) }
{
    bytes.push(64 + 16 * kind.bits() + token.len() as u8);
    bytes.push(code);
    bytes.push((id / 256) as u8);
    bytes.push((id % 256) as u8);
    append(bytes, token);
}

impl MessageBuilder {
    /// A message with neither options nor payload. One with code 0.00 is no more than its header.
    pub fn start(kind: Kind, code: u8, id: u16, token: &[u8]) -> MessageBuilder
        requires size { length token.now ≤ 8 }
        requires empty { code ≡ 0 → token.now ≡ [] }
        ensures { result ≡ bare kind code id token.now }
    {
        let mut bytes = ArrayVec::new();
        write_header(&mut bytes, kind, code, id, token);
        MessageBuilder {
            written: Writer { bytes, last: 0 },
        }
    }

    /// Begins a message with neither options nor payload in the place of the one that is here.
    pub fn restart(&mut self, kind: Kind, code: u8, id: u16, token: &[u8])
        requires size { length token.now ≤ 8 }
        requires empty { code ≡ 0 → token.now ≡ [] }
        ensures { self.new ≡ bare kind code id token.now }
    {
        self.written.bytes.clear();
        write_header(&mut self.written.bytes, kind, code, id, token);
        self.written.last = 0;
    }

    /// Adds an option after the others.
    pub fn option(&mut self, number: u16, value: &[u8]) -> Result<(), DatagramTooLong>
        requires code { 0 < self.old.code }
        requires rises { last_number 0 self.old.options ≤ number }
        requires before_payload { self.old.payload ≡ None }
        ensures variant { IsOk result
            ↔ (length (spelling (with_option self.old number value.now)) ≤ datagram_limit) }
        ensures ok { OnOk result (self.new ≡ with_option self.old number value.now) }
        ensures err { OnErr result (self.new ≡ self.old) }
    {
        self.written.option(number, value)
    }

    /// Sets the payload. No bytes are no payload.
    pub fn payload(&mut self, payload: &[u8]) -> Result<(), DatagramTooLong>
        requires code { 0 < self.old.code }
        requires first { self.old.payload ≡ None }
        ensures variant { IsOk result
            ↔ (length (spelling (with_payload self.old payload.now)) ≤ datagram_limit) }
        ensures ok { OnOk result (self.new ≡ with_payload self.old payload.now) }
        ensures err { OnErr result (self.new ≡ self.old) }
    {
        self.written.payload(payload)
    }

    /// Sets a payload of `size` bytes, which is written where it is sent from. No bytes are no payload.
    ///
    /// # Errors
    ///
    /// Exactly where the message would be longer than a datagram may be; nothing is written then.
    pub fn write_payload<W: PayloadWriter>(
        &mut self,
        size: usize,
        writer: &W,
    ) -> Result<(), DatagramTooLong>
        requires code { 0 < self.old.code }
        requires first { self.old.payload ≡ None }
        requires can { W.can_write writer.now size }
        ensures variant { IsOk result
            ↔ (length (spelling (with_payload self.old (replicate size 0))) ≤ datagram_limit) }
        ensures ok { OnOk result ((written : List ℕ) × (length written ≡ size) × W.is_written writer.now written
            × (self.new ≡ with_payload self.old written)) }
        ensures err { OnErr result (self.new ≡ self.old) }
    {
        self.written.write_payload(size, writer)
    }

    /// The datagram.
    pub fn bytes(&self) -> &[u8]
        ensures spelled { Spells result.now self.now }
        ensures fits { length result.now ≤ datagram_limit }
    {
        self.written.bytes.as_slice()
    }

    /// The datagram, to be kept.
    pub fn into_bytes(self) -> ArrayVec<u8, DATAGRAM_LIMIT>
        ensures spelled { Spells result.items self }
        ensures fits { array_vec_len result ≤ datagram_limit }
    {
        let MessageBuilder { written } = self;
        let Writer { bytes, .. } = written;
        let _length = bytes.len();
        bytes
    }

    /// The message as it is so far: a message that was built is read again.
    pub fn message(&self) -> MessageRef<'_>
        ensures { result ≡ self.now }
    {
        MessageRef::parse(self.bytes()).unwrap()
    }
}
