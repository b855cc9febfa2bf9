//! Protected requests.
ghost use Rattle.std.specs.Prelude.{◌≡◌, ◌≤◌, ◌↔◌, ◌+◌, length, IfOk, IsSome, IfSome};
ghost use Rattle.osc_coap.specs.{spelling};
ghost use Rattle.osc_coap.specs.Message.{Message};
ghost use Rattle.osc_context.specs.{greatest_number};
ghost use Rattle.osc_options.specs.{request_plaintext, unprotected};
ghost use Rattle.osc_protect.specs.{HasShortContext, IsDraft, IsProtectedRequest, longest_message, plain_bytes, request_length};
ghost use Rattle.osc_client.specs.Inner.Bounds.{room_for, size_for};
ghost use Rattle.osc_client.specs.Sending.{plain_request};
ghost use Rattle.osc_client.specs.Route.{through as through_of};
ghost use Rattle.osc_run.specs.{request_note};

use crate::proxied::outside_with;
use crate::route::Origin;
use crate::waiting::OpenAsk;
use osc_authz::ClientContext;
use osc_ccm::Ciphers;
use osc_coap::MessageBuilder;
use osc_message::ReplyRoom;
use osc_model::{Note, Request};
use osc_options::laws::a_written_request;
use osc_protect::{Draft, RequestSize, Room, draft_request, seal_request};
use std::alloc::{AllocError, Global};

/// Writes the request as it is under the context's next number, beside what stays outside of it, and answers how long it is, where it fits a
/// datagram once it is protected.
#[inline(never)]
fn drafted<A: Ciphers>(
    context: &ClientContext,
    outside: &MessageBuilder,
    request: &Request,
    draft: &mut Draft,
) -> Option<RequestSize>
    requires number { context.now.next ≤ greatest_number }
    requires short { HasShortContext context.now.name }
    ensures drafted { IsSome result → IsDraft A.TAG context.now.name context.now.next (unprotected outside.now (request_plaintext request.now)) draft.new }
    ensures size { IfSome result (λ size. size ≡ size_for A.TAG context.now (unprotected outside.now (request_plaintext request.now))) }
    ensures fits { IsSome result
        ↔ (request_length A.TAG context.now.name context.now.next (unprotected outside.now (request_plaintext request.now)) ≤ longest_message) }
{
    // For the proof alone: the call tells how long the ID is.
    let _id = context.sender().id();
    draft_request::<A>(
        context.name(),
        context.sender().next_number(),
        &outside.message(),
        request,
        draft,
    )
}

/// Writes the request as it goes to the server under the context's next number, through a proxy where there is one, and answers how long it
/// is, where it fits a datagram once it is protected.
pub(crate) fn fitting<A: Ciphers>(
    context: &ClientContext,
    origin: &Option<Origin>,
    id: u16,
    token: &[u8; 8],
    request: &Request,
    draft: &mut Draft,
) -> Option<RequestSize>
    requires number { context.now.next ≤ greatest_number }
    requires short { HasShortContext context.now.name }
    ensures drafted { IsSome result
        → IsDraft A.TAG context.now.name context.now.next (through_of origin.now (plain_request id token.now request.now)) draft.new }
    ensures size { IfSome result (λ size. size ≡ size_for A.TAG context.now (through_of origin.now (plain_request id token.now request.now))) }
    ensures fits { IsSome result
        ↔ (request_length A.TAG context.now.name context.now.next (through_of origin.now (plain_request id token.now request.now)) ≤ longest_message) }
{
    a_written_request();
    let outside = outside_with(origin, id, token);
    drafted::<A>(context, &outside, request, draft)
}

/// The memory of a protected request, taken before its number.
#[derive(Drop)]
pub(crate) struct AskRoom {
    /// For its seal.
    pub seal: Room,
    /// For the datagram, and for its retransmissions.
    pub datagram: ReplyRoom,
}

impl AskRoom {
    /// Room for a request of this size under the context's next number.
    pub fn new(
        alloc: Global,
        context: &ClientContext,
        size: RequestSize,
    ) -> Result<AskRoom, AllocError>
        requires { context.now.next ≤ greatest_number }
        ensures { IfOk result (λ room. room ≡ record {
          seal = record { name = context.now.name; number = context.now.next; most = size.plaintext };
          datagram = size.message;
        }) }
    {
        // For the proof alone: the call tells how long the ID is.
        let _id = context.sender().id();
        let number = context.sender().next_number();
        Ok(AskRoom {
            seal: Room::new(alloc, context.name(), number, size.plaintext)?,
            datagram: ReplyRoom::new(alloc, size.message)?,
        })
    }
}

/// What is kept of a request that was sealed.
#[derive(Drop)]
pub(crate) struct SealedAsk {
    /// The note of its seal.
    pub note: Note,
    /// What waits for the response.
    pub ask: OpenAsk,
    /// Room for the datagram, and for its retransmissions.
    pub datagram: ReplyRoom,
}

/// Seals a draft of the request under the context's next number, which is taken; takes no memory.
#[inline(never)]
pub(crate) fn sealed<A: Ciphers>(
    context: &mut ClientContext,
    room: AskRoom,
    draft: &mut Draft,
) -> SealedAsk
    requires number { context.old.next ≤ greatest_number }
    requires drafted { (plain : Message) × IsDraft A.TAG context.old.name context.old.next plain draft.old
        × (room ≡ room_for A.TAG context.old.name context.old.next plain) }
    ensures protected { (plain : Message) → IsDraft A.TAG context.old.name context.old.next plain draft.old
        → IsProtectedRequest A.is_sealing context.old.name context.old.next plain draft.new.message }
    ensures note { (plain : Message) → IsDraft A.TAG context.old.name context.old.next plain draft.old
        → result.note ≡ request_note context.old.name context.old.next (plain_bytes plain) }
    ensures ask { result.ask ≡ record { number = context.old.next } }
    ensures lawful { result.ask.number ≤ greatest_number }
    ensures datagram { length (spelling draft.new.message) ≤ result.datagram }
    ensures next { context.new ≡ record context.old { next = context.old.next + 1 } }
{
    let AskRoom { seal, datagram } = room;
    let number = context.take_number().unwrap();
    let ask = OpenAsk {
        number: number.get(),
    };
    let note = seal_request::<A>(seal, number, draft);
    SealedAsk {
        note,
        ask,
        datagram,
    }
}
