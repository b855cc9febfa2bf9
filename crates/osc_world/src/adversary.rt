//! What a holder may do that keeps no rule of a client: it seals any text at any number, taken or not. No node does so, and no crate below
//! seals at a number that wasn't taken.
ghost use Rattle.std.specs.Prelude.{◌≡◌, ◌≤◌, ◌+◌, ◌↔◌, ◌∷◌, [], length, IfOk, IfSome, IsErr, IsSome, Some, true};
ghost use Rattle.osc_ccm.specs.{Sealings};
ghost use Rattle.osc_coap.specs.{Spells, spelling};
ghost use Rattle.osc_model.specs.declared.context.Side.TheVariants.{Client as ClientSide};
ghost use Rattle.osc_model.specs.declared.node.Draw.{Draw as AnyDraw};
ghost use Rattle.osc_context.specs.{algorithm_of, greatest_number, longest_id, sender_of};
ghost use Rattle.osc_protect.specs.{HasShortContext, IsRequestOf, length_of_request, longest_message, note_of, request_nonce};
ghost use Rattle.osc_message.specs.{AreSendable, datagram};
ghost use Rattle.osc_client.specs.{core, refusing};
ghost use Rattle.osc_client.specs.State.{State};
ghost use Rattle.osc_run.specs.{ClientStep};
ghost use Rattle.osc_world.specs.Adversary.{Lies, TellsLie, outside_of};

use osc_authz::ClientContext;
use osc_ccm::Ciphers;
use osc_client::Client;
use osc_coap::laws::length_of_growing;
use osc_coap::{DATAGRAM_LIMIT, Kind, MessageBuilder, MessageRef};
use osc_context::{SenderContext, nonce_for};
use osc_model::limits::POST;
use osc_model::{
    Bytes, ClientResult, ContextName, Datagram, Datagrams, Draw, Note, Peer, SharedName, Side,
    Step, StepNotes, refusals,
};
use osc_options::write_protected;
use osc_protect::{associated_data, request_option};
use std::alloc::{AllocError, Global};

/// A request under a number that nobody took for it: it spends none, so its nonce may be another request's as well.
#[derive(Debug, Drop)]
pub struct UncountedRequest {
    /// The message to send.
    pub message: MessageBuilder,
    /// What was sealed, and under which name, number and nonce.
    pub note: Note,
}

/// A text sealed as a request of this number, in place of a message; `None` exactly where it is longer than a datagram may be.
fn sealed_in<A: Ciphers>(
    name: &ContextName,
    sender: &SenderContext,
    number: u64,
    message: &MessageRef<'_>,
    text: &[u8],
) -> Option<MessageBuilder>
    requires sender { sender.now ≡ sender_of name.now ClientSide sender.now.next }
    requires number { number ≤ greatest_number }
    requires short { HasShortContext name.now }
    ensures protected { IfSome result (λ made. IsRequestOf A.is_sealing text.now name.now number message.now made) }
    ensures fits { IsSome result ↔ (length_of_request (length text.now + A.TAG (algorithm_of name.now)) name.now number message.now ≤ longest_message) }
{
    length_of_growing();
    let nonce = nonce_for(sender.common_iv(), sender.id(), number);
    let aad = associated_data(name, number);
    let mut sealed = [0; DATAGRAM_LIMIT];
    let Ok(size) = A::seal(
        osc_context::algorithm_of(name),
        sender.key(),
        &nonce,
        aad.as_slice(),
        text,
        &mut sealed,
    ) else {
        return None;
    };
    let value = request_option(name, number);
    let mut made = MessageBuilder::start(message.kind(), 0, 0, &[]);
    match write_protected(&mut made, message, POST, value.as_slice(), &sealed[..size]) {
        Ok(()) => Some(made),
        Err(_) => None,
    }
}

/// Seals any text as a request of the client under any number: kind, message ID, token and class U options are the message's, its code, its
/// class E options and its payload are left out. No number is spent. `None` exactly where the request is longer than a datagram may be.
pub fn seal_any<A: Ciphers>(
    alloc: Global,
    name: &SharedName,
    sender: &SenderContext,
    number: u64,
    message: &MessageRef<'_>,
    text: &[u8],
) -> Result<Option<UncountedRequest>, AllocError>
    requires sender { sender.now ≡ sender_of name.now ClientSide sender.now.next }
    requires number { number ≤ greatest_number }
    requires short { HasShortContext name.now }
    ensures protected { IfOk result (λ found. IfSome found (λ made. IsRequestOf A.is_sealing text.now name.now number message.now made.message)) }
    ensures noted { IfOk result (λ found. IfSome found (λ made. made.note ≡ note_of name.now ClientSide number (request_nonce name.now number) text.now)) }
    ensures fits { IfOk result (λ found. IsSome found
        ↔ (length_of_request (length text.now + A.TAG (algorithm_of name.now)) name.now number message.now ≤ longest_message)) }
{
    let Some(made) = sealed_in::<A>(name, sender, number, message, text) else {
        return Ok(None);
    };
    let note = note_of_seal(alloc, name, sender, number, text)?;
    Ok(Some(UncountedRequest {
        message: made,
        note,
    }))
}

/// The note of the seal of a text as a request of this number.
fn note_of_seal(
    alloc: Global,
    name: &SharedName,
    sender: &SenderContext,
    number: u64,
    text: &[u8],
) -> Result<Note, AllocError>
    requires sender { sender.now ≡ sender_of name.now ClientSide sender.now.next }
    requires number { number ≤ greatest_number }
    ensures { IfOk result (λ note. note ≡ note_of name.now ClientSide number (request_nonce name.now number) text.now) }
{
    let nonce = nonce_for(sender.common_iv(), sender.id(), number);
    Ok(Note {
        context: name.clone()?,
        side: Side::Client,
        number,
        nonce,
        aad: associated_data(name, number),
        plaintext: Bytes::from_slice(alloc, text)?,
    })
}

/// The message's datagram.
fn message_out(alloc: Global, to: Peer, message: &MessageBuilder) -> Result<Datagrams, AllocError>
    ensures sent { IfOk result (λ out. out ≡ datagram to message.now ∷ []) }
    ensures spelled { IfOk result (λ _. Spells (spelling message.now) message.now) }
    ensures fits { IfOk result AreSendable }
{
    let bytes = Bytes::from_slice(alloc, message.bytes())?;
    let mut out = Datagrams::new(alloc);
    out.push(Datagram { to, bytes })?;
    Ok(out)
}

/// A lie that isn't told, for the reason of this number.
fn refused(alloc: Global, number: u8) -> Step
    ensures { result ≡ refusing number }
{
    Step {
        out: Datagrams::new(alloc),
        notes: StepNotes::quiet().with_result(ClientResult::Refused(number)),
    }
}

/// The message in which a client's lie is sealed.
fn outside(client: &Client, draw: &Draw) -> MessageBuilder
    ensures { result ≡ outside_of client.now.origin draw.now }
{
    client.outside(draw.message_id(), &draw.token())
}

/// Seals the text at this number under the context, in this message.
fn lie_under<A: Ciphers>(
    alloc: Global,
    to: Peer,
    context: &ClientContext,
    number: u64,
    text: &[u8],
    outside: &MessageBuilder,
) -> Result<Step, AllocError>
    requires number { number ≤ greatest_number }
    requires short { HasShortContext context.now.name }
    ensures lied { IfOk result (λ step. (client : State) (draw : AnyDraw) → client.context ≡ Some context.now → client.next_hop ≡ to
        → outside.now ≡ outside_of client.origin draw → Lies A.is_sealing A.TAG client (record { number = number; text = text.now }) draw step) }
    ensures fits { IfOk result (λ step. AreSendable step.out) }
{
    let under = context.name();
    let sender = context.sender();
    match sealed_in::<A>(under, sender, number, &outside.message(), text) {
        Some(message) => {
            let note = note_of_seal(alloc, under, sender, number, text)?;
            Ok(Step {
                out: message_out(alloc, to, &message)?,
                notes: StepNotes::quiet().with_seal(note),
            })
        }
        None => Ok(refused(alloc, refusals::DATAGRAM_TOO_LONG)),
    }
}

/// Seals any text at any lawful number in the client's context, as a holder can that keeps no rule, and sends it as a protected
/// request to the next hop. Refused by 22 without a context, and by 14 where the datagram would be longer than one may be. The
/// client stays as it is: nothing waits for an answer, nothing is sent again, and no number is taken.
pub fn lie<A: Ciphers>(
    alloc: Global,
    client: &Client,
    number: u64,
    text: &[u8],
    draw: &Draw,
) -> Result<Step, AllocError>
    requires { number ≤ greatest_number }
    ensures lied { IfOk result (λ step. TellsLie A.is_sealing A.TAG client.now (record { number = number; text = text.now }) draw.now step) }
    ensures kind { IfOk result (λ step. ClientStep true (core client.now) step.notes (core client.now)) }
    ensures needs_memory { IsErr result → IsSome client.now.context }
{
    client.has_lawful_parts();
    match client.context() {
        Some(context) => {
            let outside = outside(client, draw);
            lie_under::<A>(alloc, client.next_hop(), context, number, text, &outside)
        }
        None => Ok(refused(alloc, refusals::NO_CONTEXT)),
    }
}
