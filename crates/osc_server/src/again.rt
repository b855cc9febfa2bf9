//! A protected request that comes again: the reply that was sealed before goes out again, in a message for the one that came.
ghost use Rattle.std.specs.Prelude.{◌≡◌, IfOk, IfSome, IfNone};
ghost use Rattle.osc_authz.specs.{LastAnswerState};
ghost use Rattle.osc_server.specs.Inner.Parts.{HasAnswer, IsSentAs};
ghost use Rattle.osc_server.specs.Table.{again_to as again_to_of};
ghost use Rattle.osc_server.specs.declared.refusal.Refusal.TheVariants.{Replayed};

use crate::Endpoint;
use crate::answer::{header_to, sent_as};
use crate::refusal::Refusal;
use crate::serving::SealedArrival;
use osc_authz::{LastAnswer, ServerDesk};
use osc_coap::MessageBuilder;
use osc_coap::laws::length_of_spelling;
use osc_message::{Arrival, ReplyRoom};
use osc_model::{Bytes, Code, Datagrams};
use osc_options::numbers::OSCORE;
use std::alloc::{AllocError, Global};

/// What answers a request that isn't served for this reason, where its context keeps the answer to it: the reply that was sealed before, as it
/// goes to the peer and as its bytes are kept for a repeat.
#[inline(never)]
pub fn answered_again(
    alloc: Global,
    desk: &ServerDesk,
    endpoint: &Endpoint,
    request: &SealedArrival<'_>,
    refusal: Refusal,
) -> Result<Option<(Datagrams, Bytes)>, AllocError>
    ensures some { IfOk result (λ sent. IfSome sent (λ sent. (refusal ≡ Replayed) × (last : LastAnswerState)
        × HasAnswer desk.now.table request.now.came.now request.now.says last
        × IsSentAs request.now.came.now.from (again_to_of endpoint.now request.now.came.now last) sent.0 sent.1)) }
    ensures none { IfOk result (λ sent. IfNone sent (refusal ≡ Replayed → (last : LastAnswerState)
        → ¬ HasAnswer desk.now.table request.now.came.now request.now.says last)) }
{
    let Some(last) = answer_for(desk, request, refusal) else {
        return Ok(None);
    };
    let came = request.came;
    let answer = again_to(endpoint, came, last);
    let room = ReplyRoom::new(alloc, answer.bytes().len())?;
    Ok(Some(sent_as(room, came.from, &answer)))
}

/// The answer that is kept for the request, where that is the reason.
fn answer_for<'a>(
    desk: &'a ServerDesk,
    request: &SealedArrival<'_>,
    refusal: Refusal,
) -> Option<&'a LastAnswer>
    ensures some { IfSome result (λ last. (refusal ≡ Replayed) × HasAnswer desk.now.table request.now.came.now request.now.says last.now) }
    ensures none { IfNone result (refusal ≡ Replayed → (last : LastAnswerState)
        → ¬ HasAnswer desk.now.table request.now.came.now request.now.says last) }
{
    match refusal {
        Refusal::Replayed => answer_to(desk, request),
        _ => None,
    }
}

/// The answer that the context with the request's kid keeps, where it is to this request.
fn answer_to<'a>(desk: &'a ServerDesk, request: &SealedArrival<'_>) -> Option<&'a LastAnswer>
    ensures some { IfSome result (λ last. HasAnswer desk.now.table request.now.came.now request.now.says last.now) }
    ensures none { IfNone result ((last : LastAnswerState) → ¬ HasAnswer desk.now.table request.now.came.now request.now.says last) }
{
    let came = request.came;
    let says = &request.says;
    let last = desk.last_answer(says.kid())?;
    if last.is_to(came.from, says.number(), says.sealed()) {
        Some(last)
    } else {
        None
    }
}

/// The message that answers the request with what the kept answer carries sealed: a protected response is 2.04 (RFC 8613 section 4.2).
fn again_to(endpoint: &Endpoint, came: &Arrival<'_>, last: &LastAnswer) -> MessageBuilder
    ensures { result ≡ again_to_of endpoint.now came.now last.now }
{
    length_of_spelling();
    let header = header_to(endpoint, came);
    let mut message = MessageBuilder::start(header.kind, Code::CHANGED.0, header.id, header.token);
    message.option(OSCORE, &[]).unwrap();
    message.payload(last.reply()).unwrap();
    message
}
