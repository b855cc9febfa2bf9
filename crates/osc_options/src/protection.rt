//! Messages as they go into OSCORE's protection, and as they come from it (RFC 8613 sections 4.1 and 5.3).
ghost use Rattle.std.specs.Prelude.{◌≡◌, ◌<◌, ◌≤◌, ◌↔◌, None, length, IsOk, IfOk, OnOk};
ghost use Rattle.osc_coap.specs.{spelling, plaintext_spelling, last_number, with_payload, datagram_limit};
ghost use Rattle.osc_options.specs.Split as spec;
ghost use Rattle.osc_options.specs.Inner.Merging.{message_with, with_options, with_inner_options};
ghost use Rattle.osc_options.specs.Split.{AreInOrder};

use crate::merging::{Merged, merge, with_oscore};
use crate::parts::{InnerOptions, inner_options, outer_options};
use osc_coap::laws::{
    fewer_options, length_of_plaintext, length_of_spelling, one_plaintext, one_spelling,
};
use osc_coap::{DatagramTooLong, Kind, MessageBuilder, MessageRef, PlaintextBuilder, PlaintextRef};

/// Adds options to a message.
fn add_options(message: &mut MessageBuilder, options: Merged<'_>) -> Result<(), DatagramTooLong>
    requires code { 0 < message.old.code }
    requires first { message.old.payload ≡ None }
    requires order { AreInOrder (last_number 0 message.old.options) options }
    ensures ok { OnOk result (message.new ≡ with_options message.old options.entry) }
    ensures variant { IsOk result ↔ (length (spelling (with_options message.old options.entry)) ≤ datagram_limit) }
{
    length_of_spelling();
    one_spelling();
    for (number, value) in options {
        message.option(number, value)?;
    }
    let _bytes = message.bytes();
    Ok(())
}

/// Adds options to a plaintext.
fn add_inner_options(
    plaintext: &mut PlaintextBuilder,
    options: InnerOptions<'_>,
) -> Result<(), DatagramTooLong>
    requires first { plaintext.old.payload ≡ None }
    requires order { AreInOrder (last_number 0 plaintext.old.options) options }
    ensures ok { OnOk result (plaintext.new ≡ with_inner_options plaintext.old options.entry) }
    ensures variant { IsOk result
        ↔ (length (plaintext_spelling (with_inner_options plaintext.old options.entry)) ≤ datagram_limit) }
{
    length_of_plaintext();
    one_plaintext();
    for (number, value) in options {
        plaintext.option(number, value)?;
    }
    let _bytes = plaintext.bytes();
    Ok(())
}

/// Adds options and a payload to a message.
fn fill(
    message: &mut MessageBuilder,
    options: Merged<'_>,
    payload: &[u8],
) -> Result<(), DatagramTooLong>
    requires code { 0 < message.old.code }
    requires first { message.old.payload ≡ None }
    requires order { AreInOrder (last_number 0 message.old.options) options }
    ensures ok { OnOk result (message.new ≡ with_payload (with_options message.old options.entry) payload.now) }
    ensures fits { IsOk result
        ↔ (length (spelling (with_payload (with_options message.old options.entry) payload.now)) ≤ datagram_limit) }
{
    length_of_spelling();
    add_options(message, options)?;
    message.payload(payload)
}

/// The message of these fields, options and payload.
fn message_of(
    kind: Kind,
    code: u8,
    id: u16,
    token: &[u8],
    options: Merged<'_>,
    payload: &[u8],
) -> Result<MessageBuilder, DatagramTooLong>
    requires code { 0 < code }
    requires token { length token.now ≤ 8 }
    requires order { AreInOrder 0 options }
    ensures ok { IfOk result (λ m. m ≡ message_with kind code id token.now options.entry payload.now) }
    ensures fits { IsOk result
        ↔ (length (spelling (message_with kind code id token.now options.entry payload.now)) ≤ datagram_limit) }
{
    let mut message = MessageBuilder::start(kind, code, id, token);
    fill(&mut message, options, payload)?;
    Ok(message)
}

/// What is encrypted of the message: its code, its options of class E and its payload. Refused only where that is
/// longer than a datagram may be.
pub fn plaintext_of(message: &MessageRef<'_>) -> Result<PlaintextBuilder, DatagramTooLong>
    ensures ok { IfOk result (λ p. p ≡ spec.plaintext_of message.now) }
    ensures fits { IsOk result ↔ (length (plaintext_spelling (spec.plaintext_of message.now)) ≤ datagram_limit) }
{
    length_of_plaintext();
    fewer_options();
    let mut plaintext = PlaintextBuilder::start(message.code());
    add_inner_options(&mut plaintext, inner_options(message.options()))?;
    plaintext.payload(message.payload().unwrap_or(&[]))?;
    Ok(plaintext)
}

/// Writes the message that is sent in place of one: of its kind, message ID and token, with this code, its options of class U
/// and OSCORE's own option of this value, and what was encrypted as its payload. Refused only where it is longer than a
/// datagram may be; `out` is then any message.
pub fn write_protected(
    out: &mut MessageBuilder,
    message: &MessageRef<'_>,
    code: u8,
    value: &[u8],
    payload: &[u8],
) -> Result<(), DatagramTooLong>
    requires { 0 < code }
    ensures ok { OnOk result (out.new ≡ spec.protected message.now code value.now payload.now) }
    ensures fits { IsOk result
        ↔ (length (spelling (spec.protected message.now code value.now payload.now)) ≤ datagram_limit) }
{
    fewer_options();
    let options = with_oscore(outer_options(message.options()), value);
    out.restart(message.kind(), code, message.id(), message.token());
    fill(out, options, payload)
}

/// The message that results from a protected one and the plaintext in it: kind, message ID, token and options of class U of
/// the one, code, options of class E and payload of the other. Refused only where it is longer than a datagram may be.
pub fn unprotected_message(
    outer: &MessageRef<'_>,
    inner: &PlaintextRef<'_>,
) -> Result<MessageBuilder, DatagramTooLong>
    requires { 0 < inner.now.code }
    ensures ok { IfOk result (λ m. m ≡ spec.unprotected outer.now inner.now) }
    ensures fits { IsOk result ↔ (length (spelling (spec.unprotected outer.now inner.now)) ≤ datagram_limit) }
{
    fewer_options();
    let options = merge(
        outer_options(outer.options()),
        inner_options(inner.options()),
    );
    message_of(
        outer.kind(),
        inner.code(),
        outer.id(),
        outer.token(),
        options,
        inner.payload().unwrap_or(&[]),
    )
}
