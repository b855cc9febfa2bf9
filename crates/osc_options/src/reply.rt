//! A message that carries a reply, and the reply that a plaintext is (RFC 7252 section 5.10, RFC 8613
//! section 5.3).
ghost use Rattle.std.specs.Prelude.{◌≡◌, ◌<◌, ◌≤◌, ◌↔◌, Err, length, IsOk, IfOk};
ghost use Rattle.osc_coap.specs.{spelling, datagram_limit, SpellsPlaintext, bare};
ghost use Rattle.osc_coap.specs.Plaintext.{Plaintext};
ghost use Rattle.osc_options.specs.Requests.{value as value_in};
ghost use Rattle.osc_options.specs.Replies.{uint_bytes as bytes_of, with_reply, with_error};
ghost use Rattle.osc_options.specs.PlaintextRequests.{IsMemoryAside};
ghost use Rattle.osc_options.specs.PlaintextReplies as spec;

use crate::error::PlaintextError;
use crate::numbers::{CONTENT_FORMAT, ETAG, MAX_AGE};
use crate::recognised::{RecognisedOptions, first_value, recognised_options, unrecognised_among};
use crate::request::uint_of;
use arrayvec::ArrayVec;
use osc_coap::laws::length_of_spelling;
use osc_coap::{DatagramTooLong, Kind, MessageBuilder, PlaintextRef, is_response_code};
use osc_model::{Bytes, Code, Reply};
use std::alloc::{AllocError, Global};

/// A whole number without leading zero bytes (RFC 7252 section 3.2).
pub(crate) fn uint_bytes(n: u16) -> ArrayVec<u8, 2>
    ensures value { result.items ≡ bytes_of n }
{
    let mut bytes = ArrayVec::new();
    if n >= 256 {
        bytes.push((n / 256) as u8);
    }
    if n > 0 {
        bytes.push((n % 256) as u8);
    }
    bytes
}

/// A message of this kind, message ID and token that is the reply; refused only where it is longer than a
/// datagram may be.
pub fn reply_message(
    kind: Kind,
    id: u16,
    token: &[u8],
    reply: &Reply,
) -> Result<MessageBuilder, DatagramTooLong>
    requires token { length token.now ≤ 8 }
    requires code { 0 < reply.now.code.0 }
    ensures ok { IfOk result (λ message. message ≡ with_reply (bare kind reply.now.code.0 id token.now) reply.now) }
    ensures fits { IsOk result ↔ (length (spelling (with_reply (bare kind reply.now.code.0 id token.now) reply.now)) ≤ datagram_limit) }
{
    length_of_spelling();
    let mut message = MessageBuilder::start(kind, reply.code.0, id, token);
    if let Some(tag) = &reply.etag {
        message.option(ETAG, tag)?;
    }
    if let Some(format) = reply.format {
        message.option(CONTENT_FORMAT, &uint_bytes(format))?;
    }
    message.payload(reply.payload.as_slice())?;
    Ok(message)
}

/// An error reply of this kind, message ID and token, with a diagnostic payload (RFC 7252 section 5.5.2) and, where it is
/// not to be kept, a Max-Age in seconds (section 5.10.5); refused only where it is longer than a datagram may be.
pub fn error_message(
    kind: Kind,
    id: u16,
    token: &[u8],
    code: Code,
    max_age: Option<u16>,
    text: &[u8],
) -> Result<MessageBuilder, DatagramTooLong>
    requires token { length token.now ≤ 8 }
    requires code { 0 < code.0 }
    ensures ok { IfOk result (λ message. message ≡ with_error (bare kind code.0 id token.now) code.0 max_age text.now) }
    ensures fits { IsOk result
        ↔ (length (spelling (with_error (bare kind code.0 id token.now) code.0 max_age text.now)) ≤ datagram_limit) }
{
    length_of_spelling();
    let mut message = MessageBuilder::start(kind, code.0, id, token);
    if let Some(seconds) = max_age {
        message.option(MAX_AGE, &uint_bytes(seconds))?;
    }
    message.payload(text)?;
    Ok(message)
}

/// The first ETag, where it has 8 bytes.
fn etag_of(options: RecognisedOptions<'_>) -> Option<[u8; 8]>
    ensures { result ≡ spec.etag_in (value_in 4 options.entry) }
{
    let tag = first_value(options, ETAG)?;
    match <[u8; 8]>::try_from(tag) {
        Ok(tag) => Some(tag),
        Err(_) => None,
    }
}

/// The reply of a plaintext's code, recognised options and payload; refused only for lack of memory.
fn reply_with(alloc: Global, plaintext: &PlaintextRef<'_>) -> Result<Reply, AllocError>
    ensures { IfOk result (λ reply. reply ≡ spec.reply_with plaintext.now) }
{
    Ok(Reply {
        code: Code(plaintext.code()),
        etag: etag_of(recognised_options(plaintext.options())),
        format: uint_of(&plaintext.options(), CONTENT_FORMAT),
        payload: Bytes::from_slice(alloc, plaintext.payload().unwrap_or(&[]))?,
    })
}

/// The reply that a plaintext is.
fn accepted(alloc: Global, plaintext: &PlaintextRef<'_>) -> Result<Reply, PlaintextError>
    ensures { IsMemoryAside PlaintextError.Memory (spec.reply_of_plaintext plaintext.now) result }
{
    if !is_response_code(plaintext.code()) {
        return Err(PlaintextError::Format);
    }
    if let Some(number) = unrecognised_among(plaintext.options()) {
        return Err(PlaintextError::BadOption(number));
    }
    reply_with(alloc, plaintext).map_err(|_| PlaintextError::Memory)
}

/// The reply that these bytes are as a plaintext (RFC 8613 section 5.3). The error is `Format` where they are no
/// plaintext or its code is none of a response, and else `BadOption` where a critical option that isn't recognised is
/// in it. What else isn't part of a reply is left out: an option of class U, and an ETag of another length than 8.
pub fn reply_of(alloc: Global, plaintext: &[u8]) -> Result<Reply, PlaintextError>
    ensures plain { (p : Plaintext) → SpellsPlaintext plaintext.now p
        → IsMemoryAside PlaintextError.Memory (spec.reply_of_plaintext p) result }
    ensures none { ((p : Plaintext) → ¬ SpellsPlaintext plaintext.now p) → result ≡ Err PlaintextError.Format }
    ensures memory { result ≡ Err PlaintextError.Memory
        → (p : Plaintext) × SpellsPlaintext plaintext.now p × IsOk (spec.reply_of_plaintext p) }
{
    match PlaintextRef::parse(plaintext) {
        Some(plaintext) => accepted(alloc, &plaintext),
        None => Err(PlaintextError::Format),
    }
}
