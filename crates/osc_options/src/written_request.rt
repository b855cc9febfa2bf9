//! A message that carries a request (RFC 7252 section 5.10).
ghost use Rattle.std.specs.Prelude.{◌≡◌, ◌<◌, ◌≤◌, ◌↔◌, length, IsOk, IfOk};
ghost use Rattle.osc_coap.specs.{spelling, datagram_limit, bare};
ghost use Rattle.osc_options.specs.Requests.{with_request};

use crate::laws::a_written_request;
use crate::protection::unprotected_message;
use crate::written_plaintext::write_request;
use osc_coap::laws::{length_of_plaintext, length_of_spelling};
use osc_coap::{DatagramTooLong, Kind, MessageBuilder, PlaintextBuilder, PlaintextRef};
use osc_model::Request;

/// A message of this kind, message ID and token that is the request (RFC 7252 section 5.10), by its options If-Match,
/// If-None-Match, Uri-Path, Content-Format and Accept and its payload; refused only where it is longer than a datagram may be.
pub fn request_message(
    kind: Kind,
    id: u16,
    token: &[u8],
    request: &Request,
) -> Result<MessageBuilder, DatagramTooLong>
    requires token { length token.now ≤ 8 }
    requires code { 0 < request.now.code.0 }
    ensures ok { IfOk result (λ message. message ≡ with_request (bare kind request.now.code.0 id token.now) request.now) }
    ensures fits { IsOk result
        ↔ (length (spelling (with_request (bare kind request.now.code.0 id token.now) request.now)) ≤ datagram_limit) }
{
    a_written_request();
    length_of_plaintext();
    length_of_spelling();
    let outside = MessageBuilder::start(kind, request.code.0, id, token);
    let mut plaintext = PlaintextBuilder::start(request.code.0);
    write_request(&mut plaintext, request)?;
    unprotected_message(
        &outside.message(),
        &PlaintextRef::parse(plaintext.bytes()).unwrap(),
    )
}
