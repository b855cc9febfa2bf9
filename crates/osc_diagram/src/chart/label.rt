//! What is at an arrow.
ghost use Rattle.std.specs.Prelude.{◌≡◌, ◌++◌, IfOk, Some, string_bytes};
ghost use Rattle.hex.specs.Hex.{encode_lower};
ghost use Rattle.osc_coap.specs.{message_at};
ghost use Rattle.osc_diagram.specs.Chart.Capture.{two};
ghost use Rattle.osc_diagram.specs.Chart.Label as spec;

use crate::chart::chart::{Arrow, Way};
use osc_coap::MessageRef;
use osc_coap::laws::reading;
use osc_model::Code;
use osc_options::has_option;
use osc_options::numbers::OSCORE;
use std::alloc::{AllocError, Global};
use std::fmt;

/// What is said of an arrow: its way onto the network, and its message.
pub(crate) fn label_of(alloc: Global, arrow: &Arrow) -> Result<String, AllocError>
    ensures { IfOk result (λ text. string_bytes text ≡ spec.label arrow.now) }
{
    let mut text = way_text(arrow.way).to_string(alloc)?;
    let message = found_text(alloc, arrow.bytes.as_slice(), arrow.inner)?;
    text.push_str(&message)?;
    Ok(text)
}

/// The number of its datagram, where it has one.
pub(crate) fn number_text(alloc: Global, way: Way) -> Result<String, AllocError>
    ensures { IfOk result (λ text. string_bytes text ≡ spec.number_text way) }
{
    match way {
        Way::Sent(number) => number.to_string(alloc),
        Way::Again(number) => number.to_string(alloc),
        Way::Forged => Ok(String::new(alloc)),
    }
}

fn way_text(way: Way) -> &'static str
    ensures { result.now ≡ spec.way_text way }
{
    match way {
        Way::Sent(_) => "",
        Way::Again(_) => "again ",
        Way::Forged => "forged ",
    }
}

// The message that the bytes are, or `?` where they are none.
fn found_text(alloc: Global, bytes: &[u8], inner: Option<Code>) -> Result<String, AllocError>
    ensures { IfOk result (λ text. string_bytes text ≡ spec.found_text (message_at bytes.now) inner) }
{
    reading();
    match MessageRef::parse(bytes) {
        Ok(message) => message_text(alloc, &message, inner),
        Err(_) => "?".to_string(alloc),
    }
}

// Type, code, message ID and token, and whether it is protected.
fn message_text(
    alloc: Global,
    message: &MessageRef<'_>,
    inner: Option<Code>,
) -> Result<String, AllocError>
    ensures { IfOk result (λ text. string_bytes text ≡ spec.message_text message.now inner) }
{
    let kind = message.kind();
    let code = Code(message.code());
    let id = id_text(alloc, message.id())?;
    let token = token_text(alloc, message.token())?;
    let oscore = oscore_text(alloc, has_option(message, OSCORE), inner)?;
    format!(in alloc; "{kind} {code} id {id}{token}{oscore}")
}

fn id_text(alloc: Global, id: u16) -> Result<String, AllocError>
    ensures { IfOk result (λ text. string_bytes text ≡ encode_lower (two id)) }
{
    hex::encode(alloc, &[(id / 256 % 256) as u8, (id % 256) as u8])
}

fn token_text(alloc: Global, token: &[u8]) -> Result<String, AllocError>
    ensures { IfOk result (λ text. string_bytes text ≡ spec.token_text token.now) }
{
    if token.is_empty() {
        return Ok(String::new(alloc));
    }
    let token = hex::encode(alloc, token)?;
    format!(in alloc; " token {token}")
}

fn oscore_text(alloc: Global, has_oscore: bool, inner: Option<Code>) -> Result<String, AllocError>
    ensures { IfOk result (λ text. string_bytes text ≡ spec.oscore_text has_oscore inner) }
{
    if !has_oscore {
        return Ok(String::new(alloc));
    }
    let inner = inner_text(alloc, inner)?;
    format!(in alloc; " oscore{inner}")
}

// What is inside, where the run knows it.
fn inner_text(alloc: Global, inner: Option<Code>) -> Result<String, AllocError>
    ensures { IfOk result (λ text. string_bytes text ≡ spec.inner_text inner) }
{
    match inner {
        Some(code) => format!(in alloc; " with {code} inside"),
        None => Ok(String::new(alloc)),
    }
}
