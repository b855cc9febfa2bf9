//! Requests protected and opened.

ghost use Rattle.std.specs.Prelude.{◌≡◌, None, IfOk};
ghost use Rattle.osc_model.specs.declared.context.Side.TheVariants.{Client, Server};
ghost use Rattle.osc_context.specs.{sender_of, recipient_of};
ghost use Rattle.osc_protect.specs.{IsFor};

use osc_ccm::Suite;
use osc_coap::MessageRef;
use osc_context::{NUMBER_LIMIT, RecipientContext, SenderContext, derive};
use osc_fixtures::shared_name;
use osc_model::{Request, SharedName, Side};
use osc_options::{request_of_message, survey_of};
use osc_protect::{
    Draft, Room, SealedRequestRef, draft_request, open_request, read_request, seal_request,
};
use std::alloc::{AllocError, Global};

/// Protects the request `rounds` times, each time under the next number, and answers how many bytes it made in all; 0 where
/// it is no message or there is no memory. The room of each seal is taken in the same time.
#[unsafe(no_mangle)]
pub extern "C" fn osc_bench_protect(alloc: Global, request: &[u8], rounds: u64) -> u64 {
    match MessageRef::parse(request) {
        Ok(message) => bytes_protected(alloc, &message, rounds).unwrap_or(0),
        Err(_) => 0,
    }
}

/// Protects the request once and opens it `rounds` times, and answers how many bytes of plaintext came out in all; 0 where
/// it is no message or there is no memory.
#[unsafe(no_mangle)]
pub extern "C" fn osc_bench_unprotect(alloc: Global, request: &[u8], rounds: u64) -> u64 {
    match MessageRef::parse(request) {
        Ok(message) => bytes_opened(alloc, &message, rounds).unwrap_or(0),
        Err(_) => 0,
    }
}

// A context with IDs of one byte and no id context.
fn name_of(alloc: Global) -> Result<SharedName, AllocError>
    ensures { IfOk result (λ name. name.id_context ≡ None) }
{
    shared_name(alloc, &[1; 16], &[2; 8], &[0], &[1])
}

// Seals the request under the next number as a client does, if there is one and it fits: the draft's message is then what it sends. What stays
// outside is that of `outside`.
pub(crate) fn seal_next(
    alloc: Global,
    name: &SharedName,
    sender: &mut SenderContext,
    outside: &MessageRef<'_>,
    request: &Request,
    draft: &mut Draft,
) -> Result<bool, AllocError>
    requires short { name.now.id_context ≡ None }
    requires sender { sender.old ≡ sender_of name.now Client sender.old.next }
    ensures { sender.new ≡ sender_of name.now Client sender.new.next }
{
    // For the proof alone: the call tells how long the ID is.
    let _id = sender.id();
    let next = sender.next_number();
    if next > NUMBER_LIMIT {
        return Ok(false);
    }
    let Some(size) = draft_request::<Suite>(name, next, outside, request, draft) else {
        return Ok(false);
    };
    let room = Room::new(alloc, name, next, size.plaintext)?;
    let number = sender.take_number().unwrap();
    let note = seal_request::<Suite>(room, number, draft);
    drop(note);
    Ok(true)
}

fn bytes_protected(
    alloc: Global,
    request: &MessageRef<'_>,
    rounds: u64,
) -> Result<u64, AllocError> {
    let name = name_of(alloc)?;
    bytes_protected_under(alloc, &name, request, rounds)
}

fn bytes_protected_under(
    alloc: Global,
    name: &SharedName,
    request: &MessageRef<'_>,
    rounds: u64,
) -> Result<u64, AllocError>
    requires { name.now.id_context ≡ None }
{
    match derive(alloc, name, Side::Client) {
        Ok((mut sender, _)) => protect_again(alloc, name, &mut sender, request, rounds),
        Err(_) => Ok(0),
    }
}

// Protects the request `rounds` times, each time under the next number.
fn protect_again(
    alloc: Global,
    name: &SharedName,
    sender: &mut SenderContext,
    message: &MessageRef<'_>,
    rounds: u64,
) -> Result<u64, AllocError>
    requires short { name.now.id_context ≡ None }
    requires sender { sender.old ≡ sender_of name.now Client sender.old.next }
{
    let request = request_of_message(alloc, message)?;
    let mut draft = Draft::new();
    let mut made = 0u64;
    for _ in 0..rounds {
        let length = protected_length(alloc, name, sender, message, &request, &mut draft)?;
        made = made.wrapping_add(length);
    }
    Ok(made)
}

// How long the request is under the next number; 0 where there is none, and where it doesn't fit.
fn protected_length(
    alloc: Global,
    name: &SharedName,
    sender: &mut SenderContext,
    outside: &MessageRef<'_>,
    request: &Request,
    draft: &mut Draft,
) -> Result<u64, AllocError>
    requires short { name.now.id_context ≡ None }
    requires sender { sender.old ≡ sender_of name.now Client sender.old.next }
    ensures { sender.new ≡ sender_of name.now Client sender.new.next }
{
    if seal_next(alloc, name, sender, outside, request, draft)? {
        Ok(draft.message.bytes().len() as u64)
    } else {
        Ok(0)
    }
}

fn bytes_opened(alloc: Global, request: &MessageRef<'_>, rounds: u64) -> Result<u64, AllocError> {
    let name = name_of(alloc)?;
    bytes_opened_under(alloc, &name, request, rounds)
}

fn bytes_opened_under(
    alloc: Global,
    name: &SharedName,
    message: &MessageRef<'_>,
    rounds: u64,
) -> Result<u64, AllocError>
    requires { name.now.id_context ≡ None }
{
    let request = request_of_message(alloc, message)?;
    let mut draft = Draft::new();
    if seal_once(alloc, name, message, &request, &mut draft)? {
        open_protected(alloc, name, &draft.message.message(), rounds)
    } else {
        Ok(0)
    }
}

// Seals the request under the first number, if it fits.
fn seal_once(
    alloc: Global,
    name: &SharedName,
    outside: &MessageRef<'_>,
    request: &Request,
    draft: &mut Draft,
) -> Result<bool, AllocError>
    requires { name.now.id_context ≡ None }
{
    match derive(alloc, name, Side::Client) {
        Ok((mut sender, _)) => seal_next(alloc, name, &mut sender, outside, request, draft),
        Err(_) => Ok(false),
    }
}

// Opens the protected request `rounds` times, where it is one of this name.
fn open_protected(
    alloc: Global,
    name: &SharedName,
    protected: &MessageRef<'_>,
    rounds: u64,
) -> Result<u64, AllocError> {
    let Some(value) = survey_of(protected).oscore else {
        return Ok(0);
    };
    match read_request(&value, protected) {
        Ok(sealed) if sealed.is_for(name) => open_derived(alloc, name, &sealed, rounds),
        _ => Ok(0),
    }
}

fn open_derived(
    alloc: Global,
    name: &SharedName,
    sealed: &SealedRequestRef<'_>,
    rounds: u64,
) -> Result<u64, AllocError>
    requires { IsFor name.now sealed.now }
{
    match derive(alloc, name, Side::Server) {
        Ok((_, recipient)) => open_again(alloc, name, &recipient, sealed, rounds),
        Err(_) => Ok(0),
    }
}

// Opens the request once.
fn open_once(
    alloc: Global,
    name: &SharedName,
    recipient: &RecipientContext,
    sealed: &SealedRequestRef<'_>,
) -> Result<usize, AllocError>
    requires recipient { recipient.now ≡ recipient_of name.now Server recipient.now.window }
    requires named { IsFor name.now sealed.now }
{
    match open_request::<Suite>(alloc, name, recipient, sealed)? {
        Ok(note) => Ok(note.plaintext.len()),
        Err(_) => Ok(0),
    }
}

// Opens the request `rounds` times.
fn open_again(
    alloc: Global,
    name: &SharedName,
    recipient: &RecipientContext,
    sealed: &SealedRequestRef<'_>,
    rounds: u64,
) -> Result<u64, AllocError>
    requires recipient { recipient.now ≡ recipient_of name.now Server recipient.now.window }
    requires named { IsFor name.now sealed.now }
{
    let mut opened = 0u64;
    for _ in 0..rounds {
        opened = opened.wrapping_add(open_once(alloc, name, recipient, sealed)? as u64);
    }
    Ok(opened)
}
