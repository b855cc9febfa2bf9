//! Messages that every node sends (RFC 7252 sections 4.2, 4.3 and 5.2), and their datagrams.
ghost use Rattle.std.specs.Prelude.{◌≡◌, [], ◌∷◌, true, IfOk, OnErr};
ghost use Rattle.osc_coap.specs.{HasSpelling, spelling};
ghost use Rattle.osc_message.specs.Sending.{is_acknowledgement as is_acknowledgement_of, is_confirmable as is_confirmable_of, reset as reset_message, empty_acknowledgement as empty_acknowledgement_of, acknowledgement as acknowledgement_of, rejection as rejection_of, AreSendable, FitsDatagram, datagram, reply_kind as reply_kind_of};

use crate::outbox::ReplyRoom;
use osc_coap::{Kind, MessageBuilder, MessageRef};
use osc_model::{Bytes, Datagram, Datagrams, Peer};
use std::alloc::{AllocError, Global};

/// Whether the kind is that of a confirmable message.
pub fn is_confirmable(kind: Kind) -> bool
    ensures { result ≡ is_confirmable_of kind }
{
    match kind {
        Kind::Confirmable => true,
        _ => false,
    }
}

/// Whether the kind is that of an acknowledgement.
pub fn is_acknowledgement(kind: Kind) -> bool
    ensures { result ≡ is_acknowledgement_of kind }
{
    match kind {
        Kind::Acknowledgement => true,
        _ => false,
    }
}

/// The Reset that rejects the message of this ID.
pub fn reset(id: u16) -> MessageBuilder
    ensures { result ≡ reset_message id }
{
    MessageBuilder::start(Kind::Reset, 0, id, &[])
}

/// The empty acknowledgement of the message of this ID.
pub fn empty_acknowledgement(id: u16) -> MessageBuilder
    ensures { result ≡ empty_acknowledgement_of id }
{
    MessageBuilder::start(Kind::Acknowledgement, 0, id, &[])
}

/// What answers a response that counts: an empty acknowledgement where it is confirmable, else nothing. It is `Counted`.
pub fn acknowledgement(message: &MessageRef<'_>) -> Option<MessageBuilder>
    ensures { result ≡ acknowledgement_of message.now }
{
    if is_confirmable(message.kind()) {
        Some(empty_acknowledgement(message.id()))
    } else {
        None
    }
}

/// The kind of the message that carries the reply to a request of this kind.
pub fn reply_kind(kind: Kind) -> Kind
    ensures { result ≡ reply_kind_of kind }
{
    if is_confirmable(kind) {
        Kind::Acknowledgement
    } else {
        Kind::NonConfirmable
    }
}

/// These bytes, as the one datagram to the peer; takes no memory.
#[tactic(auto, using(crate::proofs::Notes::one_fits))]
pub(crate) fn one_datagram(alloc: Global, to: Peer, bytes: Bytes) -> Datagrams
    requires { FitsDatagram bytes }
    ensures sent { result ≡ (record { to = to; bytes = bytes }) ∷ [] }
    ensures fits { AreSendable result }
{
    Datagrams::one(alloc, Datagram { to, bytes })
}

/// This message, as the one datagram to the peer.
pub fn one_message(
    alloc: Global,
    to: Peer,
    message: &MessageBuilder,
) -> Result<Datagrams, AllocError>
    ensures sent { IfOk result (λ out. out ≡ datagram to message.now ∷ []) }
    ensures lawful { IfOk result (λ _. HasSpelling message.now) }
    ensures fits { IfOk result AreSendable }
{
    Ok(one_datagram(alloc, to, Bytes::from_slice(alloc, message.bytes())?))
}

/// The Reset that rejects the message of this ID, as the one datagram to the peer.
// It isn't inlined, since a message under construction is a buffer of 1,152 bytes: a node's other steps have no place for it.
#[inline(never)]
fn one_reset(alloc: Global, to: Peer, id: u16) -> Result<Datagrams, AllocError>
    ensures sent { IfOk result (λ out. out ≡ datagram to (reset_message id) ∷ []) }
    ensures fits { IfOk result AreSendable }
{
    one_message(alloc, to, &reset(id))
}

/// What rejects a message of this kind and ID that can't be processed, or that the node has no use for: a confirmable one is rejected by a
/// Reset, any other is ignored, and takes no memory.
pub fn rejection(alloc: Global, to: Peer, kind: Kind, id: u16) -> Result<Datagrams, AllocError>
    ensures sent { IfOk result (λ out. out ≡ rejection_of to kind id) }
    ensures fits { IfOk result AreSendable }
    ensures needs_memory { OnErr result (is_confirmable_of kind ≡ true) }
{
    match kind {
        Kind::Confirmable => one_reset(alloc, to, id),
        _ => Ok(Datagrams::new(alloc)),
    }
}

/// A message's datagram, and its bytes to be noted.
pub fn noted(
    alloc: Global,
    to: Peer,
    message: &MessageBuilder,
) -> Result<(Datagrams, Bytes), AllocError>
    ensures sent { IfOk result (λ made. made.0 ≡ datagram to message.now ∷ []) }
    ensures noted { IfOk result (λ made. made.1 ≡ spelling message.now) }
    ensures lawful { IfOk result (λ _. HasSpelling message.now) }
    ensures fits { IfOk result (λ made. AreSendable made.0) }
    ensures short { IfOk result (λ made. FitsDatagram made.1) }
{
    let room = ReplyRoom::new(alloc, message.bytes().len())?;
    Ok(room.fill(to, message.bytes()))
}
