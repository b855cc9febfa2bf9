//! The texts that lies seal.
ghost use Rattle.std.specs.Prelude.{◌≡◌, ◌++◌, None, IfOk, OnOk};
ghost use Rattle.osc_coap.specs.{bare_plaintext, payload_of, payload_spelling};
ghost use Rattle.osc_options.specs.Inner.Merging.{with_inner_options};
ghost use Rattle.osc_model.specs.{segments_of};
ghost use Rattle.osc_options.specs.{each, path_options};
ghost use Rattle.osc_simulation.specs.Events as spec;

use osc_coap::laws::{length_of_plaintext, options_in_parts};
use osc_coap::{PAYLOAD_MARKER, PlaintextBuilder};
use osc_model::laws::paths_are_cut_at_slashes;
use osc_model::{Bytes, Path, Request};
use osc_options::numbers::URI_PATH;
use std::alloc::{AllocError, Global};

/// The plaintext of a request by its method, path and payload, which are all that a line says of it; it may be longer than
/// a datagram.
pub(crate) fn text_of(alloc: Global, request: &Request) -> Result<Bytes, AllocError>
    ensures { IfOk result (λ text. text ≡ spec.text_of request.now) }
{
    let head = head_of(request);
    let mut text = Vec::from_slice(alloc, head.bytes())?;
    push_payload(&mut text, request.payload.as_slice())?;
    Ok(Bytes::from_vec(text))
}

/// Appends the marker and the payload. No bytes are no payload.
#[tactic(auto, unfolding(osc_coap::specs::Message::payload_spelling))]
fn push_payload(text: &mut Vec<u8>, payload: &[u8]) -> Result<(), AllocError>
    ensures { OnOk result (text.new.items ≡ text.old.items ++ payload_spelling (payload_of payload.now)) }
{
    if payload.is_empty() {
        return Ok(());
    }
    text.push(PAYLOAD_MARKER)?;
    text.extend_from_slice(payload)?;
    Ok(())
}

/// The plaintext without the payload, which is never longer than a datagram.
fn head_of(request: &Request) -> PlaintextBuilder
    ensures { result ≡ record { code = request.now.code.0; options = path_options request.now.path; payload = None } }
{
    let mut head = PlaintextBuilder::start(request.code.0);
    if let Some(path) = &request.path {
        add_segments(&mut head, path);
    }
    head
}

/// Adds a Uri-Path option for each segment of a path (RFC 7252 section 5.10.1).
fn add_segments(plaintext: &mut PlaintextBuilder, path: &Path)
    requires { plaintext.old ≡ bare_plaintext plaintext.old.code }
    ensures { plaintext.new ≡ with_inner_options plaintext.old (each 11 (segments_of path.now)) }
{
    length_of_plaintext();
    options_in_parts();
    paths_are_cut_at_slashes();
    for segment in path.text()[1..].split(|byte| *byte == b'/') {
        plaintext.option(URI_PATH, segment).unwrap();
    }
}
