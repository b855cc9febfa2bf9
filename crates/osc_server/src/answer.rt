//! The messages that answer.
ghost use Rattle.std.specs.Prelude.{◌≡◌, ◌≤◌, length};
ghost use Rattle.osc_coap.specs.{spelling};
ghost use Rattle.osc_model.specs.declared.reply.Reply.{Reply as AnyReply};
ghost use Rattle.osc_protect.specs.{reply_with_header};
ghost use Rattle.osc_server.specs.Inner.Parts.{FitsAResource, IsSentAs};
ghost use Rattle.osc_server.specs.Table.{reply_to as reply_to_of, refusal_to as refusal_to_of};

use crate::Endpoint;
use crate::refusal::Refusal;
use osc_coap::MessageBuilder;
use osc_coap::laws::length_of_spelling;
use osc_message::{Arrival, ReplyRoom, reply_kind};
use osc_model::{Bytes, Datagrams, Peer, Reply};
use osc_options::{error_message, write_reply_message};
use osc_protect::Header;

/// The header of what answers a request: of the acknowledgement of a confirmable one (RFC 7252 section 5.2.1), and of a message of the
/// server's own for another (section 5.2.3).
pub fn header_to<'a>(endpoint: &Endpoint, came: &Arrival<'a>) -> Header<'a>
    ensures header { (reply : AnyReply) → reply_with_header result reply ≡ reply_to_of endpoint.now came.now reply }
    ensures token { length result.token.now ≤ 8 }
{
    let request = &came.message;
    Header {
        kind: reply_kind(request.kind()),
        id: endpoint.reply_id(came.draw, request),
        token: request.token(),
    }
}

/// The message that carries the reply, as it goes to the peer and as its bytes are kept for a repeat: the acknowledgement of a confirmable
/// request (RFC 7252 section 5.2.1), and a message of the server's own for another (section 5.2.3). It is written where it is sent, in room
/// that was taken for it; takes no memory.
pub fn sent_reply(
    room: ReplyRoom,
    endpoint: &Endpoint,
    came: &Arrival<'_>,
    reply: &Reply,
) -> (Datagrams, Bytes)
    requires short { FitsAResource reply.now }
    requires room { length (spelling (reply_to_of endpoint.now came.now reply.now)) ≤ room }
    ensures { IsSentAs came.now.from (reply_to_of endpoint.now came.now reply.now) result.0 result.1 }
{
    length_of_spelling();
    let (sent, copy) = room.open();
    let header = header_to(endpoint, came);
    let mut bytes = sent.into_vec();
    write_reply_message(&mut bytes, header.kind, header.id, header.token, reply);
    copy.fill(came.from, Bytes::from_vec(bytes))
}

/// The message, as it goes to the peer and as its bytes are kept for a repeat, in room that was taken for it; takes no memory.
pub fn sent_as(room: ReplyRoom, peer: Peer, message: &MessageBuilder) -> (Datagrams, Bytes)
    requires { length (spelling message.now) ≤ room }
    ensures { IsSentAs peer message.now result.0 result.1 }
{
    room.fill(peer, message.bytes())
}

/// The message that says why a protected request isn't served.
pub fn refusal_to(endpoint: &Endpoint, came: &Arrival<'_>, refusal: Refusal) -> MessageBuilder
    ensures { result ≡ refusal_to_of endpoint.now came.now refusal }
{
    length_of_spelling();
    let request = &came.message;
    let kind = reply_kind(request.kind());
    let id = endpoint.reply_id(came.draw, request);
    error_message(
        kind,
        id,
        request.token(),
        refusal.code(),
        refusal.max_age(),
        refusal.text(),
    )
    .unwrap()
}
