//! A message that carries a reply, written where it is sent (RFC 7252 sections 3 and 5.10).
ghost use Rattle.std.specs.Prelude.{◌≡◌, ◌<◌, ◌≤◌, [], ℕ, length};
ghost use Rattle.std.specs.Vec.{vec_len, vec_capacity};
ghost use Rattle.osc_coap.specs.{Spells, bare, spelling};
ghost use Rattle.osc_coap.specs.declared.kind.Kind.{Kind as AnyKind};
ghost use Rattle.osc_options.specs.Replies.{with_reply};

use crate::reply_text::{
    append_etag, append_format, append_payload, etag_number, etag_size, format_size, payload_size,
};
use osc_coap::laws::{length_of_spelling, options_in_parts};
use osc_coap::{Kind, write_start};
use osc_model::Reply;

/// How many bytes the message has that carries the reply, with this token.
pub fn reply_message_size(token: &[u8], reply: &Reply) -> usize
    requires { length token.now ≤ 8 }
    ensures { (kind : AnyKind) (id : ℕ) → result ≡ length (spelling (with_reply (bare kind reply.now.code.0 id token.now) reply.now)) }
{
    length_of_spelling();
    options_in_parts();
    let etag = etag_size(&reply.etag);
    let format = format_size(etag_number(&reply.etag), reply.format);
    4 + token.len() + etag + format + payload_size(reply.payload.as_slice())
}

/// Writes the message of this kind, message ID and token that carries the reply into a vector that is empty and has room for it; takes no
/// memory.
pub fn write_reply_message(out: &mut Vec<u8>, kind: Kind, id: u16, token: &[u8], reply: &Reply)
    requires token { length token.now ≤ 8 }
    requires code { 0 < reply.now.code.0 }
    requires empty { (out.old.items ≡ []) × (vec_len out.old ≡ 0) }
    requires room { length (spelling (with_reply (bare kind reply.now.code.0 id token.now) reply.now)) ≤ vec_capacity out.old }
    ensures { Spells out.new.items (with_reply (bare kind reply.now.code.0 id token.now) reply.now) }
{
    length_of_spelling();
    options_in_parts();
    write_start(out, kind, reply.code.0, id, token);
    append_etag(out, &reply.etag);
    append_format(out, etag_number(&reply.etag), reply.format);
    append_payload(out, reply.payload.as_slice());
}
