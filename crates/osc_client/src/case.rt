//! Which case a new message is to a client.
ghost use Rattle.std.specs.Prelude.{◌≡◌};
ghost use Rattle.osc_client.specs.Inner.Bounds.{AsksFor};
ghost use Rattle.osc_client.specs.Case as spec;

use crate::waiting::Waiting;
use osc_coap::{Kind, MessageRef, is_request_code};
use osc_message::{is_acknowledgement, is_confirmable};
use osc_model::Peer;
use osc_options::unrecognised_critical;

/// What a new message is to a client.
#[derive(Clone, Copy, Debug, PartialEq, Eq)]
pub enum ResponseCase {
    /// A confirmable request with a critical option that isn't recognised: 4.02.
    Refused,
    /// The client has no use for it: it is rejected by a Reset, where it is confirmable, and else ignored.
    Unused,
    /// A response that counts for what waits.
    Counted,
}

/// Whether the response counts for what waits.
fn is_for(next_hop: Peer, from: Peer, message: &MessageRef<'_>, waiting: &Waiting) -> bool
    ensures { result ≡ spec.is_for next_hop from message.now waiting.now }
{
    next_hop == from
        && waiting.token.as_slice() == message.token()
        && (!is_acknowledgement(message.kind()) || waiting.id == message.id())
}

/// Whether the response counts for what waits, if anything does.
fn counts(next_hop: Peer, from: Peer, message: &MessageRef<'_>, waiting: &Option<Waiting>) -> bool
    ensures { result ≡ spec.counts next_hop from message.now waiting.now }
{
    match waiting {
        Some(waiting) => is_for(next_hop, from, message, waiting),
        None => false,
    }
}

/// Which case it is, of what came from this peer.
pub(crate) fn case_of(
    next_hop: Peer,
    from: Peer,
    waiting: &Option<Waiting>,
    message: &MessageRef<'_>,
) -> ResponseCase
    ensures asks { AsksFor next_hop from waiting.now message.now result }
    ensures case { result ≡ spec.case_of next_hop from waiting.now message.now }
{
    let is_request = is_request_code(message.code());
    if unrecognised_critical(message).is_some() {
        if is_request && is_confirmable(message.kind()) {
            ResponseCase::Refused
        } else {
            ResponseCase::Unused
        }
    } else if !is_request && counts(next_hop, from, message, waiting) {
        ResponseCase::Counted
    } else {
        ResponseCase::Unused
    }
}

/// Whether an empty message of this kind and ID ends what waits.
pub(crate) fn is_ended(
    next_hop: Peer,
    from: Peer,
    kind: Kind,
    id: u16,
    waiting: &Option<Waiting>,
) -> bool
    ensures { result ≡ spec.is_ended next_hop from kind id waiting.now }
{
    match (kind, waiting) {
        (Kind::Reset, Some(waiting)) => next_hop == from && waiting.id == id,
        _ => false,
    }
}
