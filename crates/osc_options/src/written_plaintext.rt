//! What is encrypted of a request, written from the request (RFC 7252 section 5.10, RFC 8613 section 5.3).
ghost use Rattle.std.specs.Prelude.{◌≡◌, ◌≤◌, ◌↔◌, None, length, IsOk, OnOk};
ghost use Rattle.osc_coap.specs.{plaintext_spelling, datagram_limit, last_number};
ghost use Rattle.osc_options.specs.Inner.Merging.{with_inner_options};
ghost use Rattle.osc_model.specs.{segments_of};
ghost use Rattle.osc_options.specs.Requests.{each, none_match_options, path_options, uint_options, request_options};
ghost use Rattle.osc_options.specs.PlaintextRequests.{request_plaintext as plaintext_of_request};

use crate::numbers::{ACCEPT, CONTENT_FORMAT, IF_MATCH, IF_NONE_MATCH, URI_PATH};
use crate::reply::uint_bytes;
use osc_coap::laws::{length_of_plaintext, one_plaintext, options_in_parts};
use osc_coap::{DatagramTooLong, PlaintextBuilder};
use osc_model::{ETags, Path, Request};

/// Adds an If-Match option for each tag (RFC 7252 section 5.10.8.1).
fn add_tags(plaintext: &mut PlaintextBuilder, tags: &ETags) -> Result<(), DatagramTooLong>
    requires first { plaintext.old.payload ≡ None }
    requires order { last_number 0 plaintext.old.options ≤ 1 }
    ensures ok { OnOk result (plaintext.new ≡ with_inner_options plaintext.old (each 1 tags.now)) }
    ensures variant { IsOk result
        ↔ (length (plaintext_spelling (with_inner_options plaintext.old (each 1 tags.now))) ≤ datagram_limit) }
{
    length_of_plaintext();
    one_plaintext();
    for tag in tags.as_slice() {
        plaintext.option(IF_MATCH, tag.as_slice())?;
    }
    let _bytes = plaintext.bytes();
    Ok(())
}

/// Adds the If-None-Match option, which is empty, where it is asked for (section 5.10.8.2).
fn add_none_match(plaintext: &mut PlaintextBuilder, asked: bool) -> Result<(), DatagramTooLong>
    requires first { plaintext.old.payload ≡ None }
    requires order { last_number 0 plaintext.old.options ≤ 5 }
    ensures ok { OnOk result (plaintext.new ≡ with_inner_options plaintext.old (none_match_options asked)) }
    ensures variant { IsOk result
        ↔ (length (plaintext_spelling (with_inner_options plaintext.old (none_match_options asked))) ≤ datagram_limit) }
{
    one_plaintext();
    if asked {
        plaintext.option(IF_NONE_MATCH, &[])?;
    }
    let _bytes = plaintext.bytes();
    Ok(())
}

/// Adds a Uri-Path option for each segment of a path (section 5.10.1).
fn add_segments(plaintext: &mut PlaintextBuilder, path: &Path) -> Result<(), DatagramTooLong>
    requires first { plaintext.old.payload ≡ None }
    requires order { last_number 0 plaintext.old.options ≤ 11 }
    ensures ok { OnOk result (plaintext.new ≡ with_inner_options plaintext.old (each 11 (segments_of path.now))) }
    ensures variant { IsOk result
        ↔ (length (plaintext_spelling (with_inner_options plaintext.old (each 11 (segments_of path.now)))) ≤ datagram_limit) }
{
    length_of_plaintext();
    one_plaintext();
    for segment in path.text()[1..].split(|byte| *byte == b'/') {
        plaintext.option(URI_PATH, segment)?;
    }
    let _bytes = plaintext.bytes();
    Ok(())
}

/// Adds the Uri-Path options of a path, where there is one.
fn add_path(plaintext: &mut PlaintextBuilder, path: &Option<Path>) -> Result<(), DatagramTooLong>
    requires first { plaintext.old.payload ≡ None }
    requires order { last_number 0 plaintext.old.options ≤ 11 }
    ensures ok { OnOk result (plaintext.new ≡ with_inner_options plaintext.old (path_options path.now)) }
    ensures variant { IsOk result
        ↔ (length (plaintext_spelling (with_inner_options plaintext.old (path_options path.now))) ≤ datagram_limit) }
{
    one_plaintext();
    if let Some(path) = path {
        add_segments(plaintext, path)?;
    }
    let _bytes = plaintext.bytes();
    Ok(())
}

/// Adds an option of this number whose value is a whole number, where there is one (section 3.2).
fn add_uint(
    plaintext: &mut PlaintextBuilder,
    number: u16,
    value: Option<u16>,
) -> Result<(), DatagramTooLong>
    requires first { plaintext.old.payload ≡ None }
    requires order { last_number 0 plaintext.old.options ≤ number }
    ensures ok { OnOk result (plaintext.new ≡ with_inner_options plaintext.old (uint_options number value)) }
    ensures variant { IsOk result
        ↔ (length (plaintext_spelling (with_inner_options plaintext.old (uint_options number value))) ≤ datagram_limit) }
{
    one_plaintext();
    if let Some(value) = value {
        plaintext.option(number, &uint_bytes(value))?;
    }
    let _bytes = plaintext.bytes();
    Ok(())
}

/// Adds the options of a request, in the order of their numbers.
fn add_options(plaintext: &mut PlaintextBuilder, request: &Request) -> Result<(), DatagramTooLong>
    requires first { plaintext.old.payload ≡ None }
    requires order { last_number 0 plaintext.old.options ≤ 1 }
    ensures ok { OnOk result (plaintext.new ≡ with_inner_options plaintext.old (request_options request.now)) }
    ensures variant { IsOk result
        ↔ (length (plaintext_spelling (with_inner_options plaintext.old (request_options request.now))) ≤ datagram_limit) }
{
    length_of_plaintext();
    options_in_parts();
    add_tags(plaintext, &request.if_match)?;
    add_none_match(plaintext, request.if_none_match)?;
    add_path(plaintext, &request.path)?;
    add_uint(plaintext, CONTENT_FORMAT, request.format)?;
    add_uint(plaintext, ACCEPT, request.accept)
}

/// Writes the plaintext of a request (RFC 8613 section 5.3): its code, its options If-Match, If-None-Match, Uri-Path, Content-Format and
/// Accept and its payload, as `plaintext_of` makes it of the message that carries the request. Refused only where it is longer than a
/// datagram may be; `plaintext` is then any plaintext.
pub fn write_request(
    plaintext: &mut PlaintextBuilder,
    request: &Request,
) -> Result<(), DatagramTooLong>
    ensures ok { OnOk result (plaintext.new ≡ plaintext_of_request request.now) }
    ensures fits { IsOk result ↔ (length (plaintext_spelling (plaintext_of_request request.now)) ≤ datagram_limit) }
{
    length_of_plaintext();
    plaintext.restart(request.code.0);
    add_options(plaintext, request)?;
    plaintext.payload(request.payload.as_slice())
}
