//! What a datagram is (RFC 7252 sections 3 and 4).
ghost use Rattle.osc_message.specs.Received.{HasShortId, Receives};

use osc_coap::{DATAGRAM_LIMIT, Kind, MessageRef, kind_and_id};

/// What a datagram is: a message, or as much of one as can be made out.
#[derive(Debug, Drop)]
pub enum Received<'a> {
    /// It is longer than a datagram may be, too short for a header, or of another version.
    Nothing,
    /// Its header names this kind and this message ID, but it is no message.
    Malformed(Kind, u16),
    /// It is this message.
    Message(MessageRef<'a>),
}

/// What the datagram is, whatever its bytes; takes no memory, as a message lends its parts from the datagram.
pub fn receive(datagram: &[u8]) -> Received<'_>
    ensures received { Receives datagram.now result }
    ensures id { HasShortId result }
{
    if datagram.len() > DATAGRAM_LIMIT {
        return Received::Nothing;
    }
    if let Ok(message) = MessageRef::parse(datagram) {
        return Received::Message(message);
    }
    match kind_and_id(datagram) {
        Some((kind, id)) => Received::Malformed(kind, id),
        None => Received::Nothing,
    }
}
