//! What a proxy sends.
ghost use Rattle.std.specs.Prelude.{◌≡◌, ◌<◌, ◌++◌, true, IfOk};
ghost use Rattle.std.specs.Option.{option_to_list};
ghost use Rattle.osc_coap.specs.{HasSpelling, spelling};
ghost use Rattle.osc_message.specs.{FitsDatagram};
ghost use Rattle.osc_proxy.specs.Own.{goes_now, has_room, sends_own, with_own};
ghost use Rattle.osc_proxy.specs.Inner.Going.{Acknowledges, HasPlace, IsOwn, back_kept_by, back_sends_by, sent_in};

use crate::Endpoint;
use osc_coap::{MessageBuilder, MessageRef};
use osc_message::{Outbox, acknowledgement};
use osc_model::{Bytes, Datagram, Datagrams, Draw, Moment, Peer};
use std::alloc::{AllocError, Global};

/// The acknowledgement of a message, where it is confirmable: the first datagram in room for two, and its bytes to be noted.
#[derive(Drop)]
pub(crate) struct Acknowledged {
    pub out: Option<Outbox>,
    pub reply: Option<Bytes>,
}

impl Acknowledged {
    /// That of this message, which came from this peer.
    pub fn new(
        alloc: Global,
        from: Peer,
        message: &MessageRef<'_>,
    ) -> Result<Acknowledged, AllocError>
        ensures { IfOk result (λ made. Acknowledges from message.now made) }
    {
        match acknowledgement(message) {
            Some(answer) => {
                let mut out = Outbox::new(alloc, 2)?;
                let bytes = Bytes::from_slice(alloc, answer.bytes())?;
                out.send(from, Bytes::from_slice(alloc, answer.bytes())?);
                Ok(Acknowledged {
                    out: Some(out),
                    reply: Some(bytes),
                })
            }
            None => Ok(Acknowledged {
                out: None,
                reply: None,
            }),
        }
    }
}

/// A message that the proxy makes: to whom it goes, whether it is confirmable, and its bytes, to be sent and, where it is confirmable,
/// to be kept for retransmissions.
#[derive(Drop)]
pub(crate) struct Own {
    pub to: Peer,
    pub confirmable: bool,
    pub sent: Bytes,
    pub kept: Bytes,
}

impl Own {
    /// This message, whose kind says whether it is confirmable.
    pub fn new(
        alloc: Global,
        to: Peer,
        confirmable: bool,
        message: &MessageBuilder,
    ) -> Result<Own, AllocError>
        ensures own { IfOk result (λ own. IsOwn to confirmable (spelling message.now) own) }
        ensures lawful { IfOk result (λ _. HasSpelling message.now) }
    {
        let sent = Bytes::from_slice(alloc, message.bytes())?;
        let kept = if confirmable {
            sent.clone()?
        } else {
            Bytes::new(alloc)
        };
        Ok(Own {
            to,
            confirmable,
            sent,
            kept,
        })
    }
}

/// Whether there is room for one more message to this peer.
pub(crate) fn has_room(endpoint: &Endpoint, confirmable: bool, to: Peer) -> bool
    ensures { result ≡ has_room confirmable to endpoint.now }
{
    !confirmable || endpoint.takes(to)
}

/// At most one datagram.
pub(crate) fn alone(alloc: Global, sent: Option<Datagram>) -> Datagrams
    ensures { result ≡ option_to_list sent }
{
    match sent {
        Some(datagram) => Datagrams::one(alloc, datagram),
        None => Datagrams::new(alloc),
    }
}

/// An acknowledgement, if there is one, and a datagram after it; takes no memory.
pub(crate) fn going(alloc: Global, out: Option<Outbox>, sent: Option<Datagram>) -> Datagrams
    requires { HasPlace out }
    ensures { result ≡ sent_in out ++ option_to_list sent }
{
    match out {
        Some(out) => both(out, sent),
        None => alone(alloc, sent),
    }
}

/// The same of an acknowledgement that there is.
fn both(mut out: Outbox, sent: Option<Datagram>) -> Datagrams
    requires { 0 < out.places }
    ensures { result ≡ out.sent ++ option_to_list sent }
{
    if let Some(Datagram { to, bytes }) = sent {
        out.send(to, bytes);
    }
    out.into_datagrams()
}

/// Makes the message, for which there is room; its datagram, where it goes out at once. Takes no memory.
pub(crate) fn send_own(
    endpoint: &mut Endpoint,
    now: Moment,
    draw: &Draw,
    own: Own,
) -> Option<Datagram>
    requires room { has_room own.confirmable own.to endpoint.old ≡ true }
    requires short { FitsDatagram own.kept }
    ensures made { endpoint.new ≡ with_own own.confirmable endpoint.old now draw.now own.to own.kept }
    ensures sent { option_to_list result ≡ sends_own (goes_now own.confirmable own.to endpoint.old) own.to own.sent }
{
    let Own {
        to,
        confirmable,
        sent,
        kept,
    } = own;
    let id = endpoint.take_id(draw);
    let goes = if confirmable {
        endpoint.send(now, to, id, draw, kept).unwrap()
    } else {
        true
    };
    if goes {
        Some(Datagram { to, bytes: sent })
    } else {
        None
    }
}

/// Makes the message where there is room for one more to its peer, and drops it elsewhere; its datagram, where it goes out at once.
/// Takes no memory.
pub(crate) fn send_back(
    endpoint: &mut Endpoint,
    now: Moment,
    draw: &Draw,
    own: Own,
) -> Option<Datagram>
    requires short { FitsDatagram own.kept }
    ensures made { endpoint.new ≡ back_kept_by own.confirmable endpoint.old now draw.now own.to own.kept }
    ensures sent { option_to_list result ≡ back_sends_by own.confirmable endpoint.old own.to own.sent }
{
    if has_room(endpoint, own.confirmable, own.to) {
        send_own(endpoint, now, draw, own)
    } else {
        None
    }
}
