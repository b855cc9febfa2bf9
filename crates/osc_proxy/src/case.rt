//! Which case a new message is to a proxy, and which exchange an empty one ends.
ghost use Rattle.std.specs.Prelude.{◌≡◌, ◌<◌, ◌≤◌, Option, length, true, false, IfSome};
ghost use Rattle.osc_coap.specs.{is_request_code as is_request_code_of, datagram_limit, spelling};
ghost use Rattle.osc_coap.specs.Message.{Message as AnyMessage};
ghost use Rattle.osc_model.specs.declared.node.Peer.{Peer as AnyPeer};
ghost use Rattle.osc_proxy.specs.Inner.Bounds.{AsksFor, IsNamed, names_one};
ghost use Rattle.osc_proxy.specs.Case as spec;
ghost use Rattle.osc_proxy.specs.Exchanges.{Table, answers, first_key, is_named};
ghost use Rattle.osc_proxy.specs.ProxyUri.{HostAndPort};
ghost use Rattle.osc_proxy.specs.Route.{Names};

use crate::exchanges::Exchanges;
use crate::laws::something_is_named;
use crate::route::{Destination, route_of};
use crate::targets::Targets;
use osc_coap::{Kind, MessageRef, is_request_code, is_response_code};
use osc_message::MessageName;
use osc_model::{Code, Peer};

/// What a new message is to a proxy.
#[derive(Clone, Copy, Debug, PartialEq, Eq)]
pub enum ForwardCase {
    /// A request that isn't forwarded, and the code of its answer.
    Refused(Code),
    /// A request that is forwarded to this peer.
    Forwarded(Peer),
    /// A response that counts for the exchange of this key.
    Counted(usize),
    /// It is for no exchange: it is rejected by a Reset, where it is confirmable, and else ignored.
    Unused,
}

/// A request that goes here.
fn routed(route: Destination) -> ForwardCase
    ensures case { result ≡ spec.routed route }
    ensures asks { (exchanges : Table) (from : AnyPeer) (message : AnyMessage) → 0 < message.code → names_one message.kind ≡ false
        → AsksFor exchanges from message result }
{
    match route {
        Destination::BadOption => ForwardCase::Refused(Code::BAD_OPTION),
        Destination::NotFound => ForwardCase::Refused(Code::NOT_FOUND),
        Destination::NotSupported => ForwardCase::Refused(Code::PROXYING_NOT_SUPPORTED),
        Destination::To(peer) => ForwardCase::Forwarded(peer),
    }
}

/// A response.
fn response_case(exchanges: &Exchanges, from: Peer, message: &MessageRef<'_>) -> ForwardCase
    requires code { 0 < message.now.code }
    requires response { is_request_code_of message.now.code ≡ false }
    requires short { length (spelling message.now) ≤ datagram_limit }
    ensures case { result ≡ spec.counted (first_key (answers from message.now) exchanges.now) }
    ensures asks { AsksFor exchanges.now from message.now result }
{
    match exchanges.find(from, message) {
        Some(key) => ForwardCase::Counted(key),
        None => ForwardCase::Unused,
    }
}

/// Which case it is, of what came from this peer; takes no memory.
pub(crate) fn case_of(
    targets: &Targets,
    exchanges: &Exchanges,
    from: Peer,
    message: &MessageRef<'_>,
) -> ForwardCase
    requires short { length (spelling message.now) ≤ datagram_limit }
    requires apart { is_request_code_of message.now.code ≡ true → names_one message.now.kind ≡ false }
    ensures case { (named : Option HostAndPort) × Names message.now.options named
        × (result ≡ spec.case_of targets.now exchanges.now from named message.now) }
    ensures asks { AsksFor exchanges.now from message.now result }
{
    something_is_named();
    if is_request_code(message.code()) {
        routed(route_of(targets, message))
    } else if is_response_code(message.code()) {
        response_case(exchanges, from, message)
    } else {
        ForwardCase::Unused
    }
}

/// The key of the exchange that an empty message of this kind ends, which names the message of this name; takes no memory.
pub(crate) fn ended_by(exchanges: &Exchanges, kind: Kind, named: MessageName) -> Option<usize>
    ensures key { result ≡ spec.ended_by kind (first_key (is_named named.peer named.id) exchanges.now) }
    ensures named { IfSome result (IsNamed exchanges.now named.peer named.id) }
{
    match kind {
        Kind::Reset => exchanges.find_named(named.peer, named.id),
        _ => None,
    }
}
