//! The answers that go back to a proxy's clients (RFC 7252 section 5.7.1).
ghost use Rattle.std.specs.Prelude.{◌≡◌, ◌≤◌, ◌<◌, length, true};
ghost use Rattle.osc_coap.specs.{datagram_limit, HasSpelling, spelling};
ghost use Rattle.osc_proxy.specs.Exchanges.{answers};
ghost use Rattle.osc_proxy.specs.Forwarding.{answer};
ghost use Rattle.osc_proxy.specs.Inner.Going.{IsOwn};
ghost use Rattle.osc_proxy.specs.Own.{kind_of as kind_by};
ghost use Rattle.osc_proxy.specs.Table.{answer_to, failure as failure_of};

use crate::exchanges::Exchange;
use crate::forwarding::answer_message;
use crate::sending::Own;
use crate::token::Token;
use crate::unsafe_options::has_unrecognised_unsafe;
use osc_coap::laws::{length_of_growing, length_of_spelling};
use osc_coap::{Kind, MessageBuilder, MessageRef};
use osc_model::{Code, Peer};

/// The kind of a message that is confirmable, or isn't.
fn kind_of(confirmable: bool) -> Kind
    ensures { result ≡ kind_by confirmable }
{
    if confirmable {
        Kind::Confirmable
    } else {
        Kind::NonConfirmable
    }
}

/// The response with the client's token, which isn't longer than the proxy's own.
fn answered(response: &MessageRef<'_>, kind: Kind, id: u16, token: &Token) -> MessageBuilder
    requires code { 0 < response.now.code }
    requires short { length (spelling response.now) ≤ datagram_limit }
    requires token { length response.now.token ≡ 8 }
    ensures { result ≡ answer kind id token.now response.now }
{
    length_of_spelling();
    answer_message(response, kind, id, token.as_slice()).unwrap()
}

/// The message of this ID that goes back for a response to the request of the exchange; in place of one that can't be forwarded, 5.02.
pub(crate) fn answer_back(
    from: Peer,
    response: &MessageRef<'_>,
    exchange: &Exchange,
    id: u16,
) -> MessageBuilder
    requires answers { answers from response.now exchange.now ≡ true }
    requires code { 0 < response.now.code }
    requires short { length (spelling response.now) ≤ datagram_limit }
    ensures { result ≡ answer_to id exchange.now response.now }
{
    let kind = kind_of(exchange.confirmable);
    if has_unrecognised_unsafe(response) {
        let code = Code::BAD_GATEWAY.0;
        return MessageBuilder::start(kind, code, id, exchange.client_token.as_slice());
    }
    // For the proof alone: the call tells how long the token is.
    let _token = exchange.token.as_slice();
    answered(response, kind, id, &exchange.client_token)
}

/// The answer of an exchange that got none, in the room that was taken for it.
pub(crate) fn failing(exchange: Exchange, id: u16, why: Code) -> Own
    requires { 0 < why.0 }
    ensures own { IsOwn exchange.client exchange.confirmable (spelling (failure_of why id exchange)) result }
    ensures lawful { HasSpelling (failure_of why id exchange) }
{
    length_of_growing();
    let Exchange {
        client,
        client_token,
        confirmable,
        room,
        ..
    } = exchange;
    let kind = kind_of(confirmable);
    let message = MessageBuilder::start(kind, why.0, id, client_token.as_slice());
    let (sent, kept) = room.fill(message.bytes());
    Own {
        to: client,
        confirmable,
        sent,
        kept,
    }
}
