//! The request that a message or a plaintext is (RFC 7252 section 5.10, RFC 8613 section 5.3).
ghost use Rattle.std.specs.Prelude.{◌≡◌, ◌≤◌, List, length, Err, IsOk, IfOk, IfSome};
ghost use Rattle.std.specs.Option.{option_map, option_copied};
ghost use Rattle.osc_coap.specs.{NumberAndValue, SpellsPlaintext};
ghost use Rattle.osc_coap.specs.Plaintext.{Plaintext};
ghost use Rattle.osc_options.specs.Table.{rule_of};
ghost use Rattle.osc_options.specs.Recognised.{recognised};
ghost use Rattle.osc_options.specs.Requests.{request_in as asked_by, request_of as asked_of_message, uint as number_of, value as value_in};
ghost use Rattle.osc_options.specs.Inner.Fields.{AreFieldsOf};
ghost use Rattle.osc_options.specs.PlaintextRequests.{request_of_plaintext, IsMemoryAside};

use crate::error::PlaintextError;
use crate::fields::{Fields, fields_of};
use crate::inside::accepted_fields;
use crate::recognised::{first_value, recognised_options};
use osc_coap::{MessageRef, Options, PlaintextRef, is_request_code};
use osc_model::{Bytes, Code, Path, Request};
use std::alloc::{AllocError, Global};

/// The whole number that the value of an option holds: big-endian, leading zeros don't count (RFC 7252 section 3.2).
pub fn uint(bytes: &[u8]) -> u16
    requires { length bytes.now ≤ 2 }
    ensures { result ≡ number_of bytes.now }
{
    match bytes {
        [] => 0,
        [low] => *low as u16,
        [high, low, ..] => 256 * *high as u16 + *low as u16,
    }
}

/// The whole number that the first recognised option of this number holds.
pub(crate) fn uint_of(options: &Options<'_>, number: u16) -> Option<u16>
    requires { IfSome (rule_of number) (λ rule. rule.longest ≤ 2) }
    ensures { result ≡ option_map number_of (value_in number (recognised 0 options.now)) }
{
    let value = first_value(recognised_options(options.rest()), number)?;
    Some(uint(value))
}

/// The whole number that a value holds, if there is one.
fn uint_in(value: Option<&[u8]>) -> Option<u16>
    requires { IfSome value (λ v. length v.now ≤ 2) }
    ensures { result ≡ option_map number_of (option_map (λ v. v.now) value.entry) }
{
    match value {
        Some(value) => Some(uint(value)),
        None => None,
    }
}

/// The request of a code, the values of options and a payload; refused only without memory.
fn request_from(
    alloc: Global,
    code: u8,
    fields: Fields<'_>,
    payload: Option<&[u8]>,
) -> Result<Request, AllocError>
    requires { (options : List NumberAndValue) × AreFieldsOf (recognised 0 options) fields }
    ensures { IfOk result (λ request. (options : List NumberAndValue) → AreFieldsOf (recognised 0 options) fields.entry
        → request ≡ asked_by code options (option_copied payload.entry)) }
{
    let Fields {
        segments,
        format,
        accept,
        if_match,
        if_none_match,
    } = fields;
    Ok(Request {
        code: Code(code),
        path: Path::from_segments(alloc, segments.as_slice())?,
        format: uint_in(format),
        accept: uint_in(accept),
        if_match,
        if_none_match: if_none_match.is_some(),
        payload: Bytes::from_slice(alloc, payload.unwrap_or(&[]))?,
    })
}

/// The request of a message's code, recognised options and payload; refused only without memory.
///
/// Options that aren't recognised are left out: ask `unrecognised_critical` first.
pub fn request_of_message(alloc: Global, message: &MessageRef<'_>) -> Result<Request, AllocError>
    ensures { IfOk result (λ request. request ≡ asked_of_message message.now) }
{
    let fields = fields_of(alloc, recognised_options(message.options()))?;
    request_from(alloc, message.code(), fields, message.payload())
}

/// The request that a plaintext is.
fn accepted(alloc: Global, plaintext: &PlaintextRef<'_>) -> Result<Request, PlaintextError>
    ensures { IsMemoryAside PlaintextError.Memory (request_of_plaintext plaintext.now) result }
{
    if !is_request_code(plaintext.code()) {
        return Err(PlaintextError::Format);
    }
    let fields = accepted_fields(alloc, plaintext)?;
    request_from(alloc, plaintext.code(), fields, plaintext.payload()).map_err(
        |_| PlaintextError::Memory,
    )
}

/// The request that these bytes are as a plaintext (RFC 8613 section 5.3). The error is `Format` where they are no
/// plaintext or its code is none of a request, and else `BadOption` where an option of class U, or a critical one that
/// isn't recognised, is in it.
pub fn request_of(alloc: Global, plaintext: &[u8]) -> Result<Request, PlaintextError>
    ensures plain { (p : Plaintext) → SpellsPlaintext plaintext.now p
        → IsMemoryAside PlaintextError.Memory (request_of_plaintext p) result }
    ensures none { ((p : Plaintext) → ¬ SpellsPlaintext plaintext.now p) → result ≡ Err PlaintextError.Format }
    ensures memory { result ≡ Err PlaintextError.Memory
        → (p : Plaintext) × SpellsPlaintext plaintext.now p × IsOk (request_of_plaintext p) }
{
    match PlaintextRef::parse(plaintext) {
        Some(plaintext) => accepted(alloc, &plaintext),
        None => Err(PlaintextError::Format),
    }
}
