//! Protected requests (RFC 8613 sections 8.1 and 8.2).

ghost use Rattle.std.specs.Prelude.{◌≡◌, ◌≤◌, ◌<◌, ◌⊎◌, ◌↔◌, ◌+◌, ℕ, List, [], None, length, replicate, IsOk, IsErr, IsSome, IsTrue, IfOk, IfErr, IfSome};
ghost use Rattle.osc_coap.specs.{bare, bare_plaintext, spelling, plaintext_spelling, with_payload};
ghost use Rattle.osc_coap.specs.declared.kind.Kind.TheVariants.{Confirmable};
ghost use Rattle.osc_coap.specs.Message.{Message};
ghost use Rattle.osc_options.specs.{request_plaintext as request_plaintext_of, protected, unprotected};
ghost use Rattle.osc_model.specs.declared.context.Side.TheVariants.{Client, Server};
ghost use Rattle.osc_context.specs.{algorithm_of, key_of, taken_of, sender_of, recipient_of, longest_id, greatest_number};
ghost use Rattle.osc_protect.specs.Aad.{aad_of};
ghost use Rattle.osc_protect.specs.Protection.{HasShortContext, HasRoomFor, longest_message, plain_bytes, request_nonce, note_of, request_with, IsDraft, IsRequestOf, IsProtectedRequest, IsGenuine, length_of_request, request_length, IsFor};

use crate::error::{MessageTooLong, RequestNotGenuine};
use crate::opening::{KeyUse, open};
use crate::room::Room;
use crate::sealed::SealedRequestRef;
use crate::sealing::{seal_draft, size_with, write_outer};
use crate::value::request_option;
use osc_ccm::Ciphers;
use osc_coap::laws::length_of_growing;
use osc_coap::{Kind, MessageBuilder, MessageRef, PlaintextBuilder};
use osc_context::{RecipientContext, SendNumber, nonce_for};
use osc_model::{ContextName, Note, Request, SharedName, Side};
use osc_options::laws::a_written_request;
use osc_options::{plaintext_of, write_request};
use std::alloc::{AllocError, Global};

/// The code of a protected request, POST (RFC 8613 section 4.2).
const OUTER_CODE: u8 = 0x02;

/// A protected request, and the note of its seal.
#[derive(Debug, Drop)]
pub struct ProtectedRequest {
    /// The message to send.
    pub message: MessageBuilder,
    /// What was sealed, and under which name, number and nonce.
    pub note: Note,
}

/// How many bytes a protected request has.
#[derive(Clone, Copy, Debug, PartialEq, Eq)]
pub struct RequestSize {
    /// The plaintext that is sealed in it.
    pub plaintext: usize,
    /// The whole message.
    pub message: usize,
}

/// Whether the message fits a datagram, protected as a request with this number. Takes no memory.
pub fn fits<A: Ciphers>(name: &ContextName, number: u64, message: &MessageRef<'_>) -> bool
    requires number { number ≤ greatest_number }
    requires short { HasShortContext name.now }
    requires id { length name.now.client_id ≤ longest_id }
    ensures { IsTrue result ↔ (request_length A.TAG name.now number message.now ≤ longest_message) }
{
    let mut draft = Draft::new();
    draft_message::<A>(name, number, message, &mut draft).is_some()
}

/// Protects a request of the client: its class E options and payload are sealed, its class U options stay outside. An
/// option 9 of the message is replaced. The number, which is the room's and of its context, is spent. Takes no memory.
///
/// # Errors
///
/// Exactly where the protected message is longer than a datagram may be; room and number are handed back.
pub fn protect_request<A: Ciphers>(
    room: Room,
    number: SendNumber,
    message: &MessageRef<'_>,
) -> Result<ProtectedRequest, MessageTooLong>
    requires number { number ≡ taken_of room.name Client number.number }
    requires about { room.number ≡ number.number }
    requires short { HasShortContext room.name }
    requires room { HasRoomFor (plain_bytes message.now) room.most }
    ensures protected { IfOk result (λ made. IsProtectedRequest A.is_sealing room.name number.number message.now made.message) }
    ensures noted { IfOk result (λ made. made.note
        ≡ note_of room.name Client number.number (request_nonce room.name number.number) (plain_bytes message.now)) }
    ensures size { IfOk result (λ made. length (spelling made.message) ≡ request_length A.TAG room.name number.number message.now) }
    ensures fits { IsOk result ↔ (request_length A.TAG room.name number.number message.now ≤ longest_message) }
    ensures err { IfErr result (λ refused. (refused.room ≡ room) × (refused.number ≡ number)) }
{
    length_of_growing();
    // For the proof alone: the call tells how long the ID is.
    let _id = number.id();
    let mut draft = Draft::new();
    let Some(_) = draft_message::<A>(room.name(), number.get(), message, &mut draft) else {
        return Err(MessageTooLong { room, number });
    };
    let note = seal_request::<A>(room, number, &mut draft);
    Ok(ProtectedRequest {
        message: draft.into_message(),
        note,
    })
}

/// A request before it is sealed. It is written where it stays, and sealed there: a message and a plaintext have 1152 bytes each.
#[derive(Debug, Drop)]
pub struct Draft {
    /// The message to send, still without its payload.
    pub message: MessageBuilder,
    /// What is sealed in it.
    pub plaintext: PlaintextBuilder,
}

impl Draft {
    /// A draft of an empty message; takes no memory of the heap.
    pub fn new() -> Draft
        ensures { result ≡ record { message = bare Confirmable 0 0 []; plaintext = bare_plaintext 0 } }
    {
        Draft {
            message: MessageBuilder::start(Kind::Confirmable, 0, 0, &[]),
            plaintext: PlaintextBuilder::start(0),
        }
    }

    /// The message.
    pub(crate) fn into_message(self) -> MessageBuilder
        ensures { result ≡ self.message }
    {
        let Draft {
            message,
            plaintext: _,
        } = self;
        message
    }
}

/// Writes the request, as it is sealed with this number beside what stays outside of it, and answers how many bytes it has: `None` exactly
/// where they are more than a datagram may have; the draft is then any. Kind, message ID, token and class U options are those of
/// `outside`, whose code, class E options and payload are left out. Takes no memory.
pub fn draft_request<A: Ciphers>(
    name: &ContextName,
    number: u64,
    outside: &MessageRef<'_>,
    request: &Request,
    draft: &mut Draft,
) -> Option<RequestSize>
    requires number { number ≤ greatest_number }
    requires short { HasShortContext name.now }
    requires id { length name.now.client_id ≤ longest_id }
    ensures drafted { IsSome result → IsDraft A.TAG name.now number (unprotected outside.now (request_plaintext_of request.now)) draft.new }
    ensures size { IfSome result (λ size. size ≡ record {
      plaintext = length (plain_bytes (unprotected outside.now (request_plaintext_of request.now)));
      message = request_length A.TAG name.now number (unprotected outside.now (request_plaintext_of request.now));
    }) }
    ensures fits { IsSome result ↔ (request_length A.TAG name.now number (unprotected outside.now (request_plaintext_of request.now)) ≤ longest_message) }
{
    a_written_request();
    length_of_growing();
    // For the proof alone: the call tells that the options are in order.
    let _token = outside.token();
    match write_request(&mut draft.plaintext, request) {
        Ok(()) => draft_outer::<A>(name, number, outside, draft),
        Err(_) => None,
    }
}

/// The same of a message that is there, as it is sealed and as it stays outside.
fn draft_message<A: Ciphers>(
    name: &ContextName,
    number: u64,
    message: &MessageRef<'_>,
    draft: &mut Draft,
) -> Option<RequestSize>
    requires number { number ≤ greatest_number }
    requires short { HasShortContext name.now }
    requires id { length name.now.client_id ≤ longest_id }
    ensures drafted { IsSome result → IsDraft A.TAG name.now number message.now draft.new }
    ensures fits { IsSome result ↔ (request_length A.TAG name.now number message.now ≤ longest_message) }
{
    length_of_growing();
    match plaintext_of(message) {
        Ok(plaintext) => {
            draft.plaintext = plaintext;
            draft_outer::<A>(name, number, message, draft)
        }
        Err(_) => None,
    }
}

/// Writes what goes outside of a draft's plaintext, and answers how many bytes both have: `None` exactly where they are more than a
/// datagram may have.
fn draft_outer<A: Ciphers>(
    name: &ContextName,
    number: u64,
    outside: &MessageRef<'_>,
    draft: &mut Draft,
) -> Option<RequestSize>
    requires number { number ≤ greatest_number }
    requires short { HasShortContext name.now }
    requires id { length name.now.client_id ≤ longest_id }
    ensures outer { IsSome result → draft.new.message ≡ request_with name.now number outside.now [] }
    ensures text { draft.new.plaintext ≡ draft.old.plaintext }
    ensures size { IfSome result (λ size. size ≡ record {
      plaintext = length (plaintext_spelling draft.old.plaintext);
      message = length_of_request (length (plaintext_spelling draft.old.plaintext) + A.TAG (algorithm_of name.now)) name.now number outside.now;
    }) }
    ensures fits { IsSome result
        ↔ (length_of_request (length (plaintext_spelling draft.old.plaintext) + A.TAG (algorithm_of name.now)) name.now number outside.now ≤ longest_message) }
{
    let value = request_option(name, number);
    let algorithm = osc_context::algorithm_of(name);
    let plaintext = draft.plaintext.bytes().len();
    let size = plaintext + A::tag(algorithm);
    match write_outer(
        &mut draft.message,
        outside,
        OUTER_CODE,
        value.as_slice(),
        size,
    ) {
        Ok(()) => Some(RequestSize {
            plaintext,
            message: size_with(&draft.message, size),
        }),
        Err(_) => None,
    }
}

/// Seals a draft as `protect_request` protects the message that it is of; that message itself is never built. The number, which is the
/// room's and of its context, is spent. Takes no memory.
pub fn seal_request<A: Ciphers>(room: Room, number: SendNumber, draft: &mut Draft) -> Note
    requires number { number ≡ taken_of room.name Client number.number }
    requires about { room.number ≡ number.number }
    requires drafted { (m : Message) × IsDraft A.TAG room.name number.number m draft.old × (length (plain_bytes m) ≤ room.most) }
    ensures protected { (m : Message) → IsDraft A.TAG room.name number.number m draft.old
        → IsProtectedRequest A.is_sealing room.name number.number m draft.new.message }
    ensures noted { (m : Message) → IsDraft A.TAG room.name number.number m draft.old
        → result ≡ note_of room.name Client number.number (request_nonce room.name number.number) (plain_bytes m) }
    ensures size { (m : Message) → IsDraft A.TAG room.name number.number m draft.old
        → length (spelling draft.new.message) ≡ request_length A.TAG room.name number.number m }
{
    seal_text::<A>(room, number, draft)
}

/// Seals the plaintext of a draft as the payload of its message.
fn seal_text<A: Ciphers>(room: Room, number: SendNumber, draft: &mut Draft) -> Note
    requires number { number ≡ taken_of room.name Client number.number }
    requires about { room.number ≡ number.number }
    requires code { 0 < draft.old.message.code }
    requires payload { draft.old.message.payload ≡ None }
    requires room { length (plaintext_spelling draft.old.plaintext) ≤ room.most }
    requires fits { length (spelling (with_payload draft.old.message
        (replicate (length (plaintext_spelling draft.old.plaintext) + A.TAG (algorithm_of room.name)) 0))) ≤ longest_message }
    ensures sealed { (sealed : List ℕ)
        × A.is_sealing (algorithm_of room.name) (key_of room.name Client) (request_nonce room.name number.number) (aad_of room.name number.number) (plaintext_spelling draft.old.plaintext) sealed
        × (draft.new.message ≡ with_payload draft.old.message sealed) }
    ensures noted { result ≡ note_of room.name Client number.number (request_nonce room.name number.number) (plaintext_spelling draft.old.plaintext) }
    ensures size { length (spelling draft.new.message) ≡ length (spelling (with_payload draft.old.message
        (replicate (length (plaintext_spelling draft.old.plaintext) + A.TAG (algorithm_of room.name)) 0))) }
{
    let nonce = nonce_for(number.common_iv(), number.id(), number.get());
    let note = seal_draft::<A>(room, Side::Client, nonce, number.key(), draft);
    number.spend();
    note
}

/// Opens a protected request at the server, under the context of this name, and answers the note of the opening, whose plaintext
/// is what was sealed. Which numbers are fresh isn't asked here, and no number is accepted: that is the caller's, once it knows
/// that it goes on, and the right to a reply comes from it alone.
///
/// # Errors
///
/// `RequestNotGenuine` exactly where what is sealed is the sealing of no text. Lack of memory is no answer to that, unless more
/// is sealed than a datagram can hold.
pub fn open_request<A: Ciphers>(
    alloc: Global,
    name: &SharedName,
    recipient: &RecipientContext,
    request: &SealedRequestRef<'_>,
) -> Result<Result<Note, RequestNotGenuine>, AllocError>
    requires recipient { recipient.now ≡ recipient_of name.now Server recipient.now.window }
    requires named { IsFor name.now request.now }
    ensures opened { IfOk result (λ outcome. IfOk outcome (λ note.
        A.is_sealing (algorithm_of name.now) (key_of name.now Client) (request_nonce name.now request.now.number) (aad_of name.now request.now.number) note.plaintext request.now.sealed)) }
    ensures noted { IfOk result (λ outcome. IfOk outcome (λ note. note
        ≡ note_of name.now Server request.now.number (request_nonce name.now request.now.number) note.plaintext)) }
    ensures not_genuine { IfOk result (λ outcome. IsErr outcome
        ↔ ((text : List ℕ) → ¬ A.is_sealing (algorithm_of name.now) (key_of name.now Client) (request_nonce name.now request.now.number) (aad_of name.now request.now.number) text request.now.sealed)) }
    ensures memory { IsErr result
        → IsGenuine (A.is_sealing (algorithm_of name.now)) (key_of name.now Client) (request_nonce name.now request.now.number) (aad_of name.now request.now.number) request.now.sealed
        ⊎ (longest_message < length request.now.sealed) }
{
    let number = request.number();
    let used = KeyUse {
        side: Side::Server,
        number,
        nonce: nonce_for(recipient.common_iv(), recipient.id(), number),
    };
    match open::<A>(alloc, name, recipient.key(), used, request.sealed())? {
        Some(note) => Ok(Ok(note)),
        None => Ok(Err(RequestNotGenuine)),
    }
}
