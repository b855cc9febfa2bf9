//! The result of an answer that counts.
ghost use Rattle.std.specs.Prelude.{◌≡◌, ◌≢◌, ◌≤◌, ℕ, List, [], true, None, Some, IfOk, IfErr, IsErr, OnErr, IsSome, IfSome, IfNone, unwrap_or};
ghost use Rattle.osc_context.specs.{greatest_number};
ghost use Rattle.osc_cbor.specs.{DataItem, IsWhole};
ghost use Rattle.osc_model.specs.{code};
ghost use Rattle.osc_model.specs.declared.reply.Reply.{Reply as AnyReply};
ghost use Rattle.osc_options.specs.{has_oscore as has_oscore_in, IsReplyIn};
ghost use Rattle.osc_protect.specs.{IsResponse};
ghost use Rattle.osc_run.specs.{response_note};
ghost use Rattle.osc_client.specs.Answering.{AskComes, Comes, ExchangeComes, IsFinish, IsRead, IsSealedFor, awaited_after, code_of, context_after, is_error as is_error_of, is_success as is_success_of, notes_of, waits_after};
ghost use Rattle.osc_client.specs.Inner.Bounds.{IsEnd, IsLawful, NeedsContext};
ghost use Rattle.osc_client.specs.Inner.Opened.{ComesOf};
ghost use Rattle.osc_client.specs.declared.answering.AnswerEffect.TheVariants as outcome;
ghost use Rattle.osc_client.specs.declared.waiting.Awaited.TheVariants as awaited;
ghost use Rattle.osc_model.specs.declared.step.ClientResult.TheVariants as ended;

use crate::waiting::{Awaited, OpenAsk, Waiting};
use osc_authz::{ClientContext, ClientDesk, FinishError, OpenExchange};
use osc_ccm::Ciphers;
use osc_coap::MessageRef;
use osc_coap::laws::reading;
use osc_model::{ClientResult, Code, Note, Reply, StepNotes, refusals};
use osc_options::numbers::OSCORE;
use osc_options::{PlaintextError, has_option, reply_of};
use osc_protect::{SealedResponseRef, open_response, read_response};
use std::alloc::{AllocError, Global};

/// The result of an answer that counts.
#[derive(Drop)]
pub enum AnswerEffect {
    /// What waits stays open; the note is of what opened, if anything did.
    Stays(Option<Note>),
    /// The exchange made this context.
    Makes(ClientContext),
    /// The request is answered by this reply, which was opened as noted.
    Answers(Note, Reply),
    /// What waits ends so.
    Ends(ClientResult),
}

/// The result of an answer, or lack of memory for it, and what waits then.
#[derive(Drop)]
pub(crate) struct Learnt {
    pub outcome: Result<AnswerEffect, AllocError>,
    pub waiting: Option<Waiting>,
}

/// The same of what is awaited.
#[derive(Drop)]
struct Judged {
    outcome: Result<AnswerEffect, AllocError>,
    awaited: Option<Awaited>,
}

/// Whether the code is of class 4 or 5.
fn is_error(code: u8) -> bool
    ensures { result ≡ is_error_of code }
{
    code / 32 == 4 || code / 32 == 5
}

/// Whether the code is of class 2.
fn is_success(code: u8) -> bool
    ensures { result ≡ is_success_of code }
{
    code / 32 == 2
}

/// How an unprotected error ends what waits.
fn unverified(message: &MessageRef<'_>) -> AnswerEffect
    ensures { result ≡ outcome.Ends (ended.Unverified (record { 0 = message.now.code })) }
{
    AnswerEffect::Ends(ClientResult::Unverified(Code(message.code())))
}

/// The result of an answer to an exchange: the exchange stays, and is handed back; or it is used up. Lack of memory hands it back
/// too.
fn exchange_outcome(
    alloc: Global,
    desk: &ClientDesk,
    begun: OpenExchange,
    message: &MessageRef<'_>,
) -> Result<Result<AnswerEffect, OpenExchange>, OpenExchange>
    ensures comes { IfOk result (λ came. IfOk came (λ outcome. ExchangeComes desk.now begun message.now outcome × IsEnd outcome)) }
    ensures stays { IfOk result (λ came. IfErr came (λ back. ExchangeComes desk.now begun message.now (outcome.Stays None) × (back ≡ begun))) }
    ensures memory { IfErr result (λ back. back ≡ begun) }
    ensures read { IsErr result → IsRead (awaited.Exchange begun) message.now }
{
    if has_option(message, OSCORE) {
        return Ok(Err(begun));
    }
    if is_error(message.code()) {
        return Ok(Ok(unverified(message)));
    }
    if !is_success(message.code()) {
        return Ok(Err(begun));
    }
    match finish(alloc, desk, begun, message) {
        Ok(outcome) => Ok(Ok(outcome)),
        Err(back) => Err(back),
    }
}

/// How an exchange ends by a success; lack of memory hands it back.
fn finish(
    alloc: Global,
    desk: &ClientDesk,
    begun: OpenExchange,
    message: &MessageRef<'_>,
) -> Result<AnswerEffect, OpenExchange>
    ensures finished { IfOk result (λ outcome. IsFinish desk.now begun message.now outcome × IsEnd outcome) }
    ensures memory { IfErr result (λ back. back ≡ begun) }
    ensures read { IsErr result → (code_of message.now ≡ code 2 1) × ((item : DataItem) × IsWhole (unwrap_or message.now.payload []) item) }
{
    let payload = message.payload().unwrap_or(&[]);
    match desk.finish(alloc, begun, Code(message.code()), payload) {
        Ok(made) => Ok(AnswerEffect::Makes(made)),
        Err(FinishError::Memory(back)) => Err(back),
        Err(FinishError::Fields) => Ok(AnswerEffect::Ends(ClientResult::Refused(refusals::FIELDS))),
        Err(FinishError::EqualIds) => Ok(AnswerEffect::Ends(ClientResult::Refused(
            refusals::EQUAL_IDS,
        ))),
    }
}

/// The result of an answer to a protected request.
fn ask_outcome<A: Ciphers>(
    alloc: Global,
    context: &ClientContext,
    ask: &OpenAsk,
    message: &MessageRef<'_>,
) -> Result<AnswerEffect, AllocError>
    requires { ask.now.number ≤ greatest_number }
    ensures comes { IfOk result (λ outcome. AskComes A.is_sealing context.now ask.now message.now outcome) }
    ensures read { IsErr result → IsRead (awaited.Ask ask.now) message.now }
{
    if !has_option(message, OSCORE) {
        return Ok(if is_error(message.code()) {
            unverified(message)
        } else {
            AnswerEffect::Stays(None)
        });
    }
    match read_response(message) {
        Ok(response) => opened_outcome::<A>(alloc, context, ask, message, &response),
        Err(_) => Ok(AnswerEffect::Stays(None)),
    }
}

/// The result of a protected response.
fn opened_outcome<A: Ciphers>(
    alloc: Global,
    context: &ClientContext,
    ask: &OpenAsk,
    message: &MessageRef<'_>,
    response: &SealedResponseRef<'_>,
) -> Result<AnswerEffect, AllocError>
    requires number { ask.now.number ≤ greatest_number }
    requires protected { has_oscore_in message.now.options ≡ true }
    requires response { IsResponse message.now response.now }
    ensures { IfOk result (λ outcome. AskComes A.is_sealing context.now ask.now message.now outcome) }
{
    let opened = open::<A>(alloc, context, ask, response)?;
    outcome_opened(alloc, opened)
}

/// The outcome of what was opened, or wasn't: memory is taken for a reply alone.
fn outcome_opened(alloc: Global, opened: Option<Note>) -> Result<AnswerEffect, AllocError>
    ensures comes { IfOk result (λ outcome. ComesOf opened outcome) }
    ensures memory { IsErr result → IsSome opened }
{
    match opened {
        Some(note) => match reply_in(alloc, note.plaintext.as_slice())? {
            Some(reply) => Ok(AnswerEffect::Answers(note, reply)),
            None => Ok(AnswerEffect::Stays(Some(note))),
        },
        None => Ok(AnswerEffect::Stays(None)),
    }
}

/// Opens the response to the request, if it is genuine.
fn open<A: Ciphers>(
    alloc: Global,
    context: &ClientContext,
    ask: &OpenAsk,
    response: &SealedResponseRef<'_>,
) -> Result<Option<Note>, AllocError>
    requires { ask.now.number ≤ greatest_number }
    ensures opened { IfOk result (λ opened. IfSome opened (λ note. IsSealedFor A.is_sealing context.now ask.now response.now note.plaintext)) }
    ensures noted { IfOk result (λ opened. IfSome opened (λ note. note ≡ response_note context.now.name ask.now.number response.now.own note.plaintext)) }
    ensures none { IfOk result (λ opened. IfNone opened ((text : List ℕ) → ¬ IsSealedFor A.is_sealing context.now ask.now response.now text)) }
{
    // For the proof alone: the call tells how long the ID is.
    let _id = context.sender().id();
    let name = context.name();
    let opened = open_response::<A>(alloc, name, context.recipient(), ask.number, response)?;
    Ok(opened.ok())
}

/// The reply that a plaintext is, if it is one.
fn reply_in(alloc: Global, plaintext: &[u8]) -> Result<Option<Reply>, AllocError>
    ensures some { IfOk result (λ found. IfSome found (λ reply. IsReplyIn plaintext.now reply)) }
    ensures none { IfOk result (λ found. IfNone found ((reply : AnyReply) → ¬ IsReplyIn plaintext.now reply)) }
{
    reading();
    match reply_of(alloc, plaintext) {
        Ok(reply) => Ok(Some(reply)),
        Err(PlaintextError::Memory) => Err(AllocError),
        Err(_) => Ok(None),
    }
}

/// The result of an answer to an exchange, and what is awaited then.
fn judge_exchange(
    alloc: Global,
    desk: &ClientDesk,
    begun: OpenExchange,
    message: &MessageRef<'_>,
) -> Judged
    ensures comes { IfOk result.outcome (λ outcome. ExchangeComes desk.now begun message.now outcome) }
    ensures awaited { IfOk result.outcome (λ outcome. result.awaited ≡ awaited_after outcome (awaited.Exchange begun)) }
    ensures memory { OnErr result.outcome (result.awaited ≡ Some (awaited.Exchange begun)) }
    ensures read { IsErr result.outcome → IsRead (awaited.Exchange begun) message.now }
{
    match exchange_outcome(alloc, desk, begun, message) {
        Ok(Ok(outcome)) => Judged {
            outcome: Ok(outcome),
            awaited: None,
        },
        Ok(Err(back)) => Judged {
            outcome: Ok(AnswerEffect::Stays(None)),
            awaited: Some(Awaited::Exchange(back)),
        },
        Err(back) => Judged {
            outcome: Err(AllocError),
            awaited: Some(Awaited::Exchange(back)),
        },
    }
}

/// The result of an answer to a protected request, and what is awaited then.
fn judge_ask<A: Ciphers>(
    alloc: Global,
    context: &ClientContext,
    ask: OpenAsk,
    message: &MessageRef<'_>,
) -> Judged
    requires { ask.number ≤ greatest_number }
    ensures comes { IfOk result.outcome (λ outcome. AskComes A.is_sealing context.now ask message.now outcome) }
    ensures awaited { IfOk result.outcome (λ outcome. result.awaited ≡ awaited_after outcome (awaited.Ask ask)) }
    ensures memory { OnErr result.outcome (result.awaited ≡ Some (awaited.Ask ask)) }
    ensures read { IsErr result.outcome → IsRead (awaited.Ask ask) message.now }
{
    let outcome = ask_outcome::<A>(alloc, context, &ask, message);
    let awaited = match &outcome {
        Ok(AnswerEffect::Stays(_)) | Err(_) => Some(Awaited::Ask(ask)),
        Ok(_) => None,
    };
    Judged { outcome, awaited }
}

/// The result of an answer that counts, and what waits then: all that waited, where memory runs out.
pub(crate) fn outcome_of<A: Ciphers>(
    alloc: Global,
    desk: &ClientDesk,
    context: &Option<ClientContext>,
    waiting: Waiting,
    message: &MessageRef<'_>,
) -> Learnt
    requires context { NeedsContext context.now waiting.what }
    requires number { IsLawful waiting.what }
    ensures comes { IfOk result.outcome (λ outcome. Comes A.is_sealing desk.now context.now waiting.what message.now outcome) }
    ensures waits { IfOk result.outcome (λ outcome. result.waiting ≡ waits_after outcome waiting) }
    ensures memory { OnErr result.outcome (result.waiting ≡ Some waiting) }
    ensures read { IsErr result.outcome → IsRead waiting.what message.now }
{
    let Waiting {
        token,
        id,
        until,
        what,
    } = waiting;
    let judged = match what {
        Awaited::Exchange(begun) => judge_exchange(alloc, desk, begun, message),
        Awaited::Ask(ask) => judge_ask::<A>(alloc, context.as_ref().unwrap(), ask, message),
    };
    let Judged { outcome, awaited } = judged;
    let waiting = match awaited {
        Some(what) => Some(Waiting {
            token,
            id,
            until,
            what,
        }),
        None => None,
    };
    Learnt { outcome, waiting }
}

/// What is noted of an outcome; a context that was made takes the place of the old one.
pub(crate) fn learn(context: &mut Option<ClientContext>, outcome: AnswerEffect) -> StepNotes
    ensures notes { result ≡ notes_of outcome }
    ensures context { context.new ≡ context_after outcome context.old }
{
    match outcome {
        AnswerEffect::Stays(None) => StepNotes::quiet(),
        AnswerEffect::Stays(Some(note)) => StepNotes::quiet().with_open(note),
        AnswerEffect::Makes(made) => {
            *context = Some(made);
            StepNotes::quiet().with_result(ClientResult::Made)
        }
        AnswerEffect::Answers(note, reply) => StepNotes::quiet()
            .with_open(note)
            .with_result(ClientResult::Answer(reply)),
        AnswerEffect::Ends(ending) => StepNotes::quiet().with_result(ending),
    }
}
