//! What a datagram is to the message layer (RFC 7252 sections 4.2, 4.3 and 4.5).
ghost use Rattle.std.specs.Prelude.{◌≡◌, IfOk, OnErr, IsErr, IsSome};
ghost use Rattle.std.specs.Option.{option_copied};
ghost use Rattle.osc_dedup.specs.{looked};
ghost use Rattle.osc_message.specs.Bounds.{AreShort};
ghost use Rattle.osc_message.specs.Heard.{IsSendableHeard, SendsAlone, heard as heard_as, is_reserved as is_reserved_of, rejected, repeated, empty_heard, new_or_repeated, carried, message_heard};
ghost use Rattle.osc_message.specs.Sending.{AreSendable, IsSendableReply, again as again_of};

use crate::received::Received;
use crate::sending::{one_datagram, rejection};
use osc_coap::{Kind, MessageRef, is_request_code};
use osc_dedup::Duplicates;
use osc_model::{Bytes, Datagrams, Moment, Peer};
use std::alloc::{AllocError, Global};

/// What a datagram is to the message layer, beside what was heard before.
#[derive(Debug, Drop)]
pub enum Heard<'a> {
    /// The message layer answers it by itself, by what is sent here, and nothing changes: a confirmable message that can't be processed is
    /// rejected by a Reset, one that was heard before is answered by the same bytes again, and anything else of that kind is ignored.
    Alone(Datagrams),
    /// An empty acknowledgement or Reset, which names a confirmable message by this ID.
    Empty(Kind, u16),
    /// A request or a response that wasn't heard before.
    Message(MessageRef<'a>),
}

/// Whether this is a code of a reserved class.
fn is_reserved(code: u8) -> bool
    ensures { result ≡ is_reserved_of code }
{
    code / 32 == 1 || 192 <= code
}

/// A message that can't be processed.
fn reject<'a>(alloc: Global, from: Peer, kind: Kind, id: u16) -> Result<Heard<'a>, AllocError>
    ensures heard { IfOk result (λ heard. heard ≡ rejected from kind id) }
    ensures fits { IfOk result IsSendableHeard }
    ensures needs_memory { OnErr result (SendsAlone (rejected from kind id)) }
{
    Ok(Heard::Alone(rejection(alloc, from, kind, id)?))
}

/// A message that is no more than its header.
fn hear_empty<'a>(alloc: Global, from: Peer, kind: Kind, id: u16) -> Result<Heard<'a>, AllocError>
    ensures heard { IfOk result (λ heard. heard ≡ empty_heard from kind id) }
    ensures fits { IfOk result IsSendableHeard }
    ensures needs_memory { OnErr result (SendsAlone (empty_heard from kind id)) }
{
    match kind {
        Kind::Acknowledgement | Kind::Reset => Ok(Heard::Empty(kind, id)),
        _ => reject(alloc, from, kind, id),
    }
}

/// What answered a message before, to its sender again.
fn again(alloc: Global, from: Peer, reply: Option<&Bytes>) -> Result<Datagrams, AllocError>
    requires { IsSendableReply (option_copied reply) }
    ensures again { IfOk result (λ out. out ≡ again_of from (option_copied reply.entry)) }
    ensures fits { IfOk result AreSendable }
    ensures needs_memory { IsErr result → IsSome reply.entry }
{
    match reply {
        Some(bytes) => Ok(one_datagram(alloc, from, bytes.clone()?)),
        None => Ok(Datagrams::new(alloc)),
    }
}

/// A message that was heard before, and what answered it.
fn repeat<'a>(
    alloc: Global,
    from: Peer,
    kind: Kind,
    reply: Option<&Bytes>,
) -> Result<Heard<'a>, AllocError>
    requires { IsSendableReply (option_copied reply) }
    ensures heard { IfOk result (λ heard. heard ≡ repeated from kind (option_copied reply.entry)) }
    ensures fits { IfOk result IsSendableHeard }
    ensures needs_memory { OnErr result (SendsAlone (repeated from kind (option_copied reply.entry))) }
{
    match kind {
        Kind::Confirmable => Ok(Heard::Alone(again(alloc, from, reply)?)),
        _ => Ok(Heard::Alone(Datagrams::new(alloc))),
    }
}

/// A confirmable or non-confirmable request or response.
fn hear_unless_seen<'a>(
    alloc: Global,
    seen: &Duplicates,
    now: Moment,
    from: Peer,
    message: MessageRef<'a>,
) -> Result<Heard<'a>, AllocError>
    requires { AreShort seen.now }
    ensures heard { IfOk result (λ heard. heard ≡ new_or_repeated from message.entry (looked now from message.entry.id seen.now)) }
    ensures fits { IfOk result IsSendableHeard }
    ensures needs_memory { OnErr result (SendsAlone (new_or_repeated from message.entry (looked now from message.entry.id seen.now))) }
{
    match seen.look(now, from, message.id()) {
        Some(noted) => repeat(alloc, from, message.kind(), noted.reply.as_ref()),
        None => Ok(Heard::Message(message)),
    }
}

/// A request or a response.
fn hear_carried<'a>(
    alloc: Global,
    seen: &Duplicates,
    now: Moment,
    from: Peer,
    message: MessageRef<'a>,
) -> Result<Heard<'a>, AllocError>
    requires { AreShort seen.now }
    ensures heard { IfOk result (λ heard. heard ≡ carried seen.now now from message.entry.kind message.entry) }
    ensures fits { IfOk result IsSendableHeard }
    ensures needs_memory { OnErr result (SendsAlone (carried seen.now now from message.entry.kind message.entry)) }
{
    match message.kind() {
        Kind::Acknowledgement if is_request_code(message.code()) => {
            Ok(Heard::Alone(Datagrams::new(alloc)))
        }
        Kind::Acknowledgement => Ok(Heard::Message(message)),
        Kind::Reset => Ok(Heard::Alone(Datagrams::new(alloc))),
        _ => hear_unless_seen(alloc, seen, now, from, message),
    }
}

/// A message.
fn hear_message<'a>(
    alloc: Global,
    seen: &Duplicates,
    now: Moment,
    from: Peer,
    message: MessageRef<'a>,
) -> Result<Heard<'a>, AllocError>
    requires { AreShort seen.now }
    ensures heard { IfOk result (λ heard. heard ≡ message_heard seen.now now from message.entry) }
    ensures fits { IfOk result IsSendableHeard }
    ensures needs_memory { OnErr result (SendsAlone (message_heard seen.now now from message.entry)) }
{
    if message.code() == 0 {
        hear_empty(alloc, from, message.kind(), message.id())
    } else if is_reserved(message.code()) {
        reject(alloc, from, message.kind(), message.id())
    } else {
        hear_carried(alloc, seen, now, from, message)
    }
}

/// What was received, beside what was heard before. Memory is taken for what is sent by this alone.
pub(crate) fn hear<'a>(
    alloc: Global,
    seen: &Duplicates,
    now: Moment,
    from: Peer,
    received: Received<'a>,
) -> Result<Heard<'a>, AllocError>
    requires { AreShort seen.now }
    ensures heard { IfOk result (λ heard. heard ≡ heard_as seen.now now from received.entry) }
    ensures fits { IfOk result IsSendableHeard }
    ensures needs_memory { OnErr result (SendsAlone (heard_as seen.now now from received.entry)) }
{
    match received {
        Received::Nothing => Ok(Heard::Alone(Datagrams::new(alloc))),
        Received::Malformed(kind, id) => reject(alloc, from, kind, id),
        Received::Message(message) => hear_message(alloc, seen, now, from, message),
    }
}
