//! Laws of the definitions, for the crates above. These functions do nothing: whoever calls one has its clauses for a proof.
ghost use Rattle.std.specs.Prelude.{◌≡◌, ◌≢◌, ◌<◌, ◌≤◌, ◌+◌, ℕ, true, false, List, [], length, Option, Some, None, codes};
ghost use Rattle.osc_model.specs.{exchange_lifetime};
ghost use Rattle.osc_model.specs.Arrival.{Arrival};
ghost use Rattle.osc_model.specs.declared.node.Draw.{Draw as AnyDraw};
ghost use Rattle.osc_coap.specs.{HasSpelling, NumberAndValue, spelling};
ghost use Rattle.osc_coap.specs.Message.{Message as AnyMessage};
ghost use Rattle.osc_dedup.specs.{looked};
ghost use Rattle.osc_options.specs.{recognised, value as value_in, AreInOrder, of_number, proxy_scheme, proxy_uri, uri_host, uri_port};
ghost use Rattle.osc_model.specs.declared.node.Moment.{Moment as AnyMoment};
ghost use Rattle.osc_model.specs.declared.node.Peer.{Peer as AnyPeer};
ghost use Rattle.osc_model.specs.declared.step.Step.{Step as AnyStep};
ghost use Rattle.osc_proxy.specs.Exchanges.{HasOwnTokens, Table, answers, first_key, get, is_overdue};
ghost use Rattle.osc_proxy.specs.Forwarding.{forwarded, forwarded_options, has_proxy_uri, is_taken_out};
ghost use Rattle.osc_proxy.specs.Hearing.{Hears};
ghost use Rattle.osc_proxy.specs.Passage.{Passage};
ghost use Rattle.osc_proxy.specs.ProxyUri.{HostAndPort};
ghost use Rattle.osc_proxy.specs.Route.{Names, port_in};
ghost use Rattle.osc_proxy.specs.State.{State};
ghost use Rattle.osc_proxy.specs.Table.{forwarded_by};
ghost use Rattle.osc_proxy.specs.ThereAndBack.{CanSendTo, GoesThereAndBack, IsAnswerTo, IsAtRest, IsBroughtBack, IsLawfulProxy, IsPassedOn, TakesUp, acknowledged_at, answered_at, datagram_of, heard_with};
ghost use Rattle.osc_proxy.specs.Ticks.{Ticks};
ghost use Rattle.osc_proxy.specs.declared.exchanges.Exchange.{Exchange as AnyExchange};

use osc_coap::laws::{fewer_options, length_of_spelling};
use osc_message::laws::{one_at_a_time, one_reception, what_nodes_send};

/// A tick leaves no exchange that is over: each that is left was opened less than 247 seconds ago.
pub fn none_is_over()
    ensures over { (old new : State) (now : AnyMoment) (draw : AnyDraw) (step : AnyStep) → Ticks old now draw step new
        → (key : ℕ) (exchange : AnyExchange) → get new.exchanges key ≡ Some exchange → is_overdue now exchange ≡ false }
    ensures ends { (old new : State) (now : AnyMoment) (draw : AnyDraw) (step : AnyStep) → Ticks old now draw step new
        → (key : ℕ) (exchange : AnyExchange) → get new.exchanges key ≡ Some exchange → now.ms < exchange.opened.ms + exchange_lifetime }
{}

/// A response answers one exchange at most: no two have one token, since each begins with the key of its own.
pub fn found_by_token()
    ensures { (table : Table) (from : AnyPeer) (message : AnyMessage) (key : ℕ) (exchange : AnyExchange) → HasOwnTokens table
        → get table key ≡ Some exchange → answers from message exchange ≡ true → first_key (answers from message) table ≡ Some key }
{}

/// A forwarded message isn't longer than the request, where its token isn't.
pub fn forwarding_adds_nothing()
    ensures { (id : ℕ) (token : List ℕ) (message : AnyMessage) → HasSpelling message → length token ≤ length message.token
        → length (spelling (forwarded id token message)) ≤ length (spelling message) }
{
    fewer_options();
    length_of_spelling();
}

/// A forwarded message has the options that the request came with, in their order, but for those that are for the proxy.
pub fn options_that_are_forwarded()
    ensures stay { (options : List NumberAndValue) (number : ℕ) → is_taken_out (has_proxy_uri options) number ≡ false
        → of_number number (forwarded_options options) ≡ of_number number options }
    ensures go { (options : List NumberAndValue) (number : ℕ) → is_taken_out (has_proxy_uri options) number ≡ true
        → of_number number (forwarded_options options) ≡ [] }
    ensures order { (before : ℕ) (options : List NumberAndValue) → AreInOrder before options → AreInOrder before (forwarded_options options) }
{}

/// Whatever options a message has, they name a host and a port, or nothing that is known.
pub fn something_is_named()
    ensures { (options : List NumberAndValue) → (named : Option HostAndPort) × Names options named }
{}

/// A request without a Proxy-Uri whose Proxy-Scheme is `coap` names the host of its Uri-Host and the port of its Uri-Port.
pub fn named_by_options()
    ensures { (options : List NumberAndValue) (named : Option HostAndPort) (host : List ℕ) → value_in proxy_uri (recognised 0 options) ≡ None
        → value_in proxy_scheme (recognised 0 options) ≡ Some (codes "coap") → value_in uri_host (recognised 0 options) ≡ Some host → Names options named
        → named ≡ Some (host, port_in (value_in uri_port (recognised 0 options))) }
{}

/// A confirmable request that nothing hinders is acknowledged to the client, and forwarded to its target, at once.
pub fn a_request_is_forwarded()
    ensures { (proxy passed : State) (passage : Passage) (step : AnyStep)
        → TakesUp proxy passage → Hears proxy (datagram_of passage) step passed → IsPassedOn proxy passage step passed }
{
    one_reception();
    what_nodes_send();
    one_at_a_time();
    forwarding_adds_nothing();
}

/// Where the answer to what was forwarded comes from the target, it goes back to the client at once, with the client's token, and the
/// exchange is closed.
pub fn an_answer_goes_back()
    ensures { (proxy passed brought : State) (passage : Passage) (later : AnyMoment) (draw : AnyDraw) (response : AnyMessage) (first second : AnyStep)
        → IsLawfulProxy proxy → TakesUp proxy passage → CanSendTo proxy passage.came.from
        → IsPassedOn proxy passage first passed → IsAnswerTo (forwarded_by proxy passage) response
        → Hears passed (answered_at passage later draw response) second brought
        → IsBroughtBack proxy passage response second brought }
{
    one_reception();
    what_nodes_send();
    one_at_a_time();
    forwarding_adds_nothing();
}

/// Where the client acknowledges that answer, nothing goes out, and what is open is what was open before the request came.
pub fn an_acknowledgement_ends_it()
    ensures { (proxy brought rested : State) (passage : Passage) (response : AnyMessage) (last : AnyMoment) (draw : AnyDraw) (second third : AnyStep)
        → IsBroughtBack proxy passage response second brought
        → Hears brought (acknowledged_at proxy passage last draw) third rested
        → IsAtRest proxy passage third rested }
{
    one_reception();
}

/// A request goes through the proxy, and its answer comes back: where the request comes from the client, it is acknowledged and
/// forwarded; where the answer to that comes from the target, it goes back to the client; and where the client acknowledges it, nothing
/// goes out.
pub fn a_request_goes_there_and_back()
    ensures { (proxy passed : State) (passage : Passage) (step : AnyStep)
        → IsLawfulProxy proxy → TakesUp proxy passage → CanSendTo proxy passage.came.from
        → Hears proxy (datagram_of passage) step passed
        → GoesThereAndBack proxy passage step passed }
{
    a_request_is_forwarded();
    an_answer_goes_back();
    an_acknowledgement_ends_it();
}

/// Where the proxy noted a request, a message that wasn't heard before and has another message ID isn't heard either.
pub fn others_stay_unheard()
    ensures { (proxy : State) (came : Arrival AnyMessage) (at : AnyMoment) (peer : AnyPeer) (id : ℕ) → id ≢ came.what.id
        → looked at peer id proxy.endpoint.seen ≡ None → looked at peer id (heard_with proxy came) ≡ None }
{}
