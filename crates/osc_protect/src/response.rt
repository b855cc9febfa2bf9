//! Protected responses (RFC 8613 sections 8.3 and 8.4).

ghost use Rattle.std.specs.Prelude.{◌≡◌, ◌≤◌, ◌<◌, ◌⊎◌, ◌↔◌, ◌+◌, ℕ, List, [], Some, None, length, replicate, IfSome, IsOk, IsErr, IsTrue, IfOk, IfErr};
ghost use Rattle.std.specs.Vec.{vec_len, vec_capacity};
ghost use Rattle.osc_coap.specs.{spelling, plaintext_spelling, Spells};
ghost use Rattle.osc_coap.specs.Message.{Message};
ghost use Rattle.osc_model.specs.declared.context.Side.TheVariants.{Client, Server};
ghost use Rattle.osc_context.specs.{algorithm_of, key_of, accepted_of, taken_of, sender_of, recipient_of, longest_id, greatest_number};
ghost use Rattle.osc_options.specs.{reply_text};
ghost use Rattle.osc_protect.specs.Aad.{aad_of};
ghost use Rattle.osc_protect.specs.Inner.Outside.{IsSealedOutside, outer_response};
ghost use Rattle.osc_protect.specs.Protection.{HasRoomFor, longest_message, plain_bytes, request_nonce, response_nonce, note_of, IsGenuine, IsProtectedResponse, reply_with_header, response_length, response_with};

use crate::error::{MessageTooLong, ReplyTooLong, ResponseNotGenuine};
use crate::header::{Header, OUTER_CODE, write_response_start};
use crate::opening::{KeyUse, open};
use crate::request::Draft;
use crate::room::Room;
use crate::sealed::SealedResponseRef;
use crate::sealing::{seal_draft, seal_into, write_outer};
use crate::value::response_option;
use osc_ccm::Ciphers;
use osc_coap::laws::{growing, length_of_growing, spelling_of_growing};
use osc_coap::{MessageBuilder, MessageRef};
use osc_context::{AcceptedNumber, RecipientContext, SendNumber, SenderContext, nonce_for};
use osc_model::{Algorithm, Bytes, ContextName, Note, Reply, SharedName, Side};
use osc_options::laws::a_written_reply;
use osc_options::plaintext_of;
use std::alloc::{AllocError, Global};

/// A protected response, and the note of its seal.
#[derive(Debug, Drop)]
pub struct ProtectedResponse {
    /// The message to send.
    pub message: MessageBuilder,
    /// What was sealed, and under which name, request number and nonce.
    pub note: Note,
}

/// Writes a message as it is sealed with a tag of this algorithm, and as it stays outside of a response with this Partial IV of its own,
/// or with none. Answers whether both fit a datagram; else the draft is any.
fn draft_response<A: Ciphers>(
    algorithm: Algorithm,
    own: Option<u64>,
    message: &MessageRef<'_>,
    draft: &mut Draft,
) -> bool
    requires own { IfSome own (λ n. n ≤ greatest_number) }
    ensures outer { IsTrue result → draft.new.message ≡ response_with own message.now [] }
    ensures inner { IsTrue result → plaintext_spelling draft.new.plaintext ≡ plain_bytes message.now }
    ensures short { IsTrue result → length (plain_bytes message.now) ≤ longest_message }
    ensures fits { IsTrue result ↔ (response_length (A.TAG algorithm) own message.now ≤ longest_message) }
{
    length_of_growing();
    let Ok(plaintext) = plaintext_of(message) else {
        return false;
    };
    draft.plaintext = plaintext;
    let value = response_option(own);
    let size = draft.plaintext.bytes().len() + A::tag(algorithm);
    write_outer(
        &mut draft.message,
        message,
        OUTER_CODE,
        value.as_slice(),
        size,
    )
    .is_ok()
}

/// Protects the server's reply under the nonce of the request that it answers, with an empty option value. The right to it is
/// the request's number, for which the room is, and which the server of the room's context accepted: it is spent. Takes no memory.
///
/// # Errors
///
/// Exactly where the protected message is longer than a datagram may be; room and number are handed back.
pub fn protect_reply<A: Ciphers>(
    room: Room,
    number: AcceptedNumber,
    sender: &SenderContext,
    message: &MessageRef<'_>,
) -> Result<ProtectedResponse, ReplyTooLong>
    requires number { number ≡ accepted_of room.name Server number.number }
    requires about { room.number ≡ number.number }
    requires sender { sender.now ≡ sender_of room.name Server sender.now.next }
    requires room { HasRoomFor (plain_bytes message.now) room.most }
    ensures protected { IfOk result (λ made. IsProtectedResponse A.is_sealing room.name number.number None message.now made.message) }
    ensures noted { IfOk result (λ made. made.note
        ≡ note_of room.name Server number.number (request_nonce room.name number.number) (plain_bytes message.now)) }
    ensures fits { IsOk result ↔ (response_length (A.TAG (algorithm_of room.name)) None message.now ≤ longest_message) }
    ensures err { IfErr result (λ refused. (refused.room ≡ room) × (refused.number ≡ number)) }
{
    let nonce = nonce_for(number.common_iv(), number.id(), number.get());
    let mut draft = Draft::new();
    if !draft_response::<A>(room.algorithm(), None, message, &mut draft) {
        return Err(ReplyTooLong { room, number });
    }
    let note = seal_draft::<A>(room, Side::Server, nonce, sender.key(), &mut draft);
    number.spend();
    Ok(ProtectedResponse {
        message: draft.into_message(),
        note,
    })
}

/// A protected reply, and the note of its seal.
#[derive(Debug, Drop)]
pub struct SealedReply {
    /// The bytes to send.
    pub datagram: Bytes,
    /// What was sealed, and under which name, request number and nonce.
    pub note: Note,
}

/// Protects the server's reply as `protect_reply` protects the message with this header that carries it; that message itself is never built:
/// the plaintext is written where the note keeps it, and the datagram into `out`, which is empty and has room for it. The number is spent.
/// Takes no memory.
pub fn seal_reply<A: Ciphers>(
    room: Room,
    number: AcceptedNumber,
    sender: &SenderContext,
    header: Header<'_>,
    reply: &Reply,
    out: Vec<u8>,
) -> SealedReply
    requires number { number ≡ accepted_of room.name Server number.number }
    requires about { room.number ≡ number.number }
    requires sender { sender.now ≡ sender_of room.name Server sender.now.next }
    requires token { length header.token.now ≤ 8 }
    requires room { HasRoomFor (reply_text reply.now) room.most }
    requires empty { (out.items ≡ []) × (vec_len out ≡ 0) }
    requires fits { response_length (A.TAG (algorithm_of room.name)) None (reply_with_header header reply.now) ≤ longest_message }
    requires out { response_length (A.TAG (algorithm_of room.name)) None (reply_with_header header reply.now) ≤ vec_capacity out }
    ensures protected { (answer : Message)
        × IsProtectedResponse A.is_sealing room.name number.number None (reply_with_header header.entry reply.now) answer
        × Spells result.datagram answer }
    ensures noted { result.note
        ≡ note_of room.name Server number.number (request_nonce room.name number.number) (plain_bytes (reply_with_header header.entry reply.now)) }
{
    a_written_reply();
    growing();
    spelling_of_growing();
    seal_text_of::<A>(room, number, sender, header, reply, out)
}

/// The same, said of the reply's plaintext and of what goes outside.
fn seal_text_of<A: Ciphers>(
    room: Room,
    number: AcceptedNumber,
    sender: &SenderContext,
    header: Header<'_>,
    reply: &Reply,
    out: Vec<u8>,
) -> SealedReply
    requires number { number ≡ accepted_of room.name Server number.number }
    requires about { room.number ≡ number.number }
    requires sender { sender.now ≡ sender_of room.name Server sender.now.next }
    requires token { length header.token.now ≤ 8 }
    requires room { HasRoomFor (reply_text reply.now) room.most }
    requires empty { (out.items ≡ []) × (vec_len out ≡ 0) }
    requires fits { length (spelling (outer_response header (replicate (length (reply_text reply.now) + A.TAG (algorithm_of room.name)) 0))) ≤ longest_message }
    requires out { length (spelling (outer_response header (replicate (length (reply_text reply.now) + A.TAG (algorithm_of room.name)) 0))) ≤ vec_capacity out }
    ensures protected { IsSealedOutside A.is_sealing room.name number.number (reply_text reply.now) header.entry result.datagram }
    ensures noted { result.note
        ≡ note_of room.name Server number.number (request_nonce room.name number.number) (reply_text reply.now) }
{
    length_of_growing();
    let nonce = nonce_for(number.common_iv(), number.id(), number.get());
    let note = room.note_of_reply(Side::Server, nonce, reply);
    let mut datagram = out;
    write_response_start(&mut datagram, header);
    seal_into::<A>(&mut datagram, sender.key(), &note);
    number.spend();
    SealedReply {
        datagram: Bytes::from_vec(datagram),
        note,
    }
}

/// Protects a response of the server to the request of this number, for which the room is, under a nonce of its own: the number that
/// it spends, which the server of the room's context took, is its Partial IV. Takes no memory.
///
/// # Errors
///
/// Exactly where the protected message is longer than a datagram may be; room and number are handed back.
pub fn protect_response<A: Ciphers>(
    room: Room,
    request: u64,
    number: SendNumber,
    message: &MessageRef<'_>,
) -> Result<ProtectedResponse, MessageTooLong>
    requires number { number ≡ taken_of room.name Server number.number }
    requires about { room.number ≡ request }
    requires request { request ≤ greatest_number }
    requires id { length room.name.client_id ≤ longest_id }
    requires room { HasRoomFor (plain_bytes message.now) room.most }
    ensures protected { IfOk result (λ made.
        IsProtectedResponse A.is_sealing room.name request (Some number.number) message.now made.message) }
    ensures noted { IfOk result (λ made. made.note
        ≡ note_of room.name Server request (response_nonce room.name request (Some number.number)) (plain_bytes message.now)) }
    ensures fits { IsOk result ↔ (response_length (A.TAG (algorithm_of room.name)) (Some number.number) message.now ≤ longest_message) }
    ensures err { IfErr result (λ refused. (refused.room ≡ room) × (refused.number ≡ number)) }
{
    let own = number.get();
    let nonce = nonce_for(number.common_iv(), number.id(), own);
    let mut draft = Draft::new();
    if !draft_response::<A>(room.algorithm(), Some(own), message, &mut draft) {
        return Err(MessageTooLong { room, number });
    }
    let note = seal_draft::<A>(room, Side::Server, nonce, number.key(), &mut draft);
    number.spend();
    Ok(ProtectedResponse {
        message: draft.into_message(),
        note,
    })
}

/// The nonce of a response: the request's, whose Partial IV is the client's, or that of its own Partial IV, which is the
/// server's.
fn nonce_of_response(
    name: &ContextName,
    recipient: &RecipientContext,
    number: u64,
    own: Option<u64>,
) -> [u8; 13]
    requires recipient { recipient.now ≡ recipient_of name.now Client recipient.now.window }
    requires id { length name.now.client_id ≤ longest_id }
    requires number { number ≤ greatest_number }
    requires own { IfSome own (λ n. n ≤ greatest_number) }
    ensures { result ≡ response_nonce name.now number own }
{
    match own {
        Some(own) => nonce_for(recipient.common_iv(), recipient.id(), own),
        None => nonce_for(recipient.common_iv(), name.client_id.as_slice(), number),
    }
}

/// Opens a protected response to the client's request of this number, under the context of this name, and answers the note of
/// the opening, whose plaintext is what was sealed.
///
/// # Errors
///
/// `ResponseNotGenuine` exactly where what is sealed is the sealing of no text. Lack of memory is no answer to that, unless more
/// is sealed than a datagram can hold.
pub fn open_response<A: Ciphers>(
    alloc: Global,
    name: &SharedName,
    recipient: &RecipientContext,
    number: u64,
    response: &SealedResponseRef<'_>,
) -> Result<Result<Note, ResponseNotGenuine>, AllocError>
    requires recipient { recipient.now ≡ recipient_of name.now Client recipient.now.window }
    requires number { number ≤ greatest_number }
    requires id { length name.now.client_id ≤ longest_id }
    ensures opened { IfOk result (λ outcome. IfOk outcome (λ note.
        A.is_sealing (algorithm_of name.now) (key_of name.now Server) (response_nonce name.now number response.now.own) (aad_of name.now number) note.plaintext response.now.sealed)) }
    ensures noted { IfOk result (λ outcome. IfOk outcome (λ note. note
        ≡ note_of name.now Client number (response_nonce name.now number response.now.own) note.plaintext)) }
    ensures not_genuine { IfOk result (λ outcome. IsErr outcome
        ↔ ((text : List ℕ) → ¬ A.is_sealing (algorithm_of name.now) (key_of name.now Server) (response_nonce name.now number response.now.own) (aad_of name.now number) text response.now.sealed)) }
    ensures memory { IsErr result
        → IsGenuine (A.is_sealing (algorithm_of name.now)) (key_of name.now Server) (response_nonce name.now number response.now.own) (aad_of name.now number) response.now.sealed
        ⊎ (longest_message < length response.now.sealed) }
{
    let nonce = nonce_of_response(name, recipient, number, response.own_number());
    let used = KeyUse {
        side: Side::Client,
        number,
        nonce,
    };
    match open::<A>(alloc, name, recipient.key(), used, response.sealed())? {
        Some(note) => Ok(Ok(note)),
        None => Ok(Err(ResponseNotGenuine)),
    }
}
