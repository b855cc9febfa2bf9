//! The answers to posts at authz-info (RFC 9200 section 5.10.1, RFC 9203 section 4.2).
ghost use Rattle.std.specs.Prelude.{◌≡◌, ◌≤◌, length};
ghost use Rattle.osc_model.specs.{quiet};
ghost use Rattle.osc_server.specs.Inner.Parts.{IsSentAs};
ghost use Rattle.osc_server.specs.Table.{nonce_of_post, post_reply as post_reply_of, refusal_of_post, reply_to as reply_to_of};

use crate::Endpoint;
use crate::answer::sent_reply;
use osc_authz::{PostError, PostReply};
use osc_coap::laws::length_of_spelling;
use osc_message::{Arrival, MessageRoom, ReplyRoom};
use osc_model::limits::ACE_CBOR;
use osc_model::{Bytes, Code, Datagrams, Note, RefusedRequest, Reply, SharedBytes, StepNotes};
use std::alloc::Global;

/// The bytes of the payload that answers a post which isn't refused.
pub const POST_PAYLOAD: usize = 16;

/// The most bytes of the message that answers a post: header, token, Content-Format, payload marker and payload.
pub const POST_ANSWER: usize = 31;

/// The reply to a post, in room for its payload; takes no memory.
fn post_reply(alloc: Global, payload: MessageRoom, answer: Result<PostReply, PostError>) -> Reply
    requires { payload ≡ 16 }
    ensures reply { result ≡ post_reply_of answer }
    ensures short { length result.payload ≤ 16 }
{
    match answer {
        Ok(reply) => Reply {
            code: Code::CREATED,
            etag: None,
            format: Some(ACE_CBOR),
            payload: payload.fill(&reply.answer().payload()),
        },
        Err(error) => Reply::bare(alloc, error.code()),
    }
}

/// The message that answers a post, as it goes to the peer and as its bytes are kept for a repeat, in room for it; takes no memory.
pub fn post_answer(
    alloc: Global,
    payload: MessageRoom,
    room: ReplyRoom,
    endpoint: &Endpoint,
    came: &Arrival<'_>,
    answer: Result<PostReply, PostError>,
) -> (Datagrams, Bytes)
    requires payload { payload ≡ 16 }
    requires room { room ≡ 31 }
    ensures { IsSentAs came.now.from (reply_to_of endpoint.now came.now (post_reply_of answer)) result.0 result.1 }
{
    length_of_spelling();
    // For the proof alone: the call tells how long the token is.
    let _token = came.message.token();
    let reply = post_reply(alloc, payload, answer);
    sent_reply(room, endpoint, came, &reply)
}

/// What is noted of a post: its token's opening, the nonce that it drew and the id of its token, where it made a context, and why it was refused,
/// where it was.
pub fn notes_of(
    opened: Option<Note>,
    answer: Result<PostReply, PostError>,
    holder: Option<SharedBytes>,
) -> StepNotes
    ensures { result ≡ record quiet { opens = opened; drawn = nonce_of_post answer; refused = refusal_of_post answer; holder = holder } }
{
    let notes = match opened {
        Some(note) => StepNotes::quiet().with_open(note),
        None => StepNotes::quiet(),
    };
    let notes = match holder {
        Some(id) => notes.with_holder(id),
        None => notes,
    };
    match answer {
        Ok(PostReply::New(answer)) => notes.with_drawn(answer.nonce2),
        Ok(PostReply::Known(_)) => notes,
        Err(error) => notes.with_refused(RefusedRequest {
            code: error.code(),
            reason: Some(error.number()),
        }),
    }
}
