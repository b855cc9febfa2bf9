//! What is encrypted of a reply, written where it is kept (RFC 7252 section 5.10, RFC 8613 section 5.3).
ghost use Rattle.std.specs.Prelude.{◌≡◌, ◌<◌, ◌≤◌, ◌+◌, ◌-◌, [], ◌++◌, length, IfSome};
ghost use Rattle.std.specs.Vec.{vec_len, vec_capacity};
ghost use Rattle.osc_coap.specs.{last_number, payload_of, options_length, payload_length, option_spelling, options_spelling, payload_spelling};
ghost use Rattle.osc_options.specs.Replies.{etag_option, format_option, uint_bytes as bytes_of};
ghost use Rattle.osc_options.specs.Texts.{reply_text};

use crate::numbers::{CONTENT_FORMAT, ETAG};
use crate::reply::uint_bytes;
use osc_coap::PAYLOAD_MARKER;
use osc_coap::laws::{length_of_plaintext, options_in_parts};
use osc_model::Reply;

/// How many bytes a whole number has without leading zero bytes (RFC 7252 section 3.2).
fn uint_size(n: u16) -> usize
    ensures value { result ≡ length (bytes_of n) }
    ensures few { result ≤ 2 }
{
    if n == 0 {
        0
    } else if n < 256 {
        1
    } else {
        2
    }
}

/// How many bytes an entity-tag of a resource has.
fn tag_size(tag: &[u8; 8]) -> usize
    ensures value { result ≡ length tag.now }
    ensures eight { result ≡ 8 }
{
    tag.as_slice().len()
}

/// How many bytes the ETag takes, if there is one; its delta and its length have no extension (RFC 7252 section 3.1).
pub(crate) fn etag_size(etag: &Option<[u8; 8]>) -> usize
    ensures value { result ≡ options_length 0 (etag_option etag.now) }
    ensures few { result ≤ 9 }
{
    match etag {
        Some(tag) => 1 + tag_size(tag),
        None => 0,
    }
}

/// The number of the ETag, if there is one, or 0.
pub(crate) fn etag_number(etag: &Option<[u8; 8]>) -> u16
    ensures value { result ≡ last_number 0 (etag_option etag.now) }
    ensures low { result ≤ 4 }
{
    match etag {
        Some(_) => ETAG,
        None => 0,
    }
}

/// How many bytes the Content-Format takes, if there is one, after an option of number `before`; its delta and its length have no
/// extension.
pub(crate) fn format_size(before: u16, format: Option<u16>) -> usize
    requires { before ≤ 4 }
    ensures value { result ≡ options_length before (format_option format) }
    ensures few { result ≤ 3 }
{
    match format {
        Some(format) => 1 + uint_size(format),
        None => 0,
    }
}

/// How many bytes a payload takes, with its marker.
pub(crate) fn payload_size(payload: &[u8]) -> usize
    ensures value { result ≡ payload_length (payload_of payload.now) }
{
    match payload.len() {
        0 => 0,
        size => 1 + size,
    }
}

/// Appends an option after one of number `before`, whose delta and length have no extension (RFC 7252 section 3.1); there is room
/// for it.
#[tactic(auto, unfolding(osc_coap::specs::Message::option_spelling, osc_coap::specs::Message::nibble, osc_coap::specs::Message::extension))]
fn append_option(text: &mut Vec<u8>, before: u16, number: u16, value: &[u8])
    requires order { before ≤ number }
    requires delta { number - before < 13 }
    requires size { length value.now < 13 }
    requires room { vec_len text.old + 1 + length value.now ≤ vec_capacity text.old }
    ensures text { text.new.items ≡ text.old.items ++ option_spelling before (number, value.now) }
    ensures length { vec_len text.new ≡ vec_len text.old + 1 + length value.now }
    ensures capacity { vec_capacity text.old ≤ vec_capacity text.new }
{
    text.push(16 * (number - before) as u8 + value.len() as u8)
        .unwrap();
    text.extend_from_slice(value).unwrap();
}

/// Appends the ETag, if there is one; there is room for it.
#[tactic(auto, unfolding(osc_coap::specs::Message::options_spelling))]
pub(crate) fn append_etag(text: &mut Vec<u8>, etag: &Option<[u8; 8]>)
    requires room { vec_len text.old + options_length 0 (etag_option etag.now) ≤ vec_capacity text.old }
    ensures text { text.new.items ≡ text.old.items ++ options_spelling 0 (etag_option etag.now) }
    ensures eight { IfSome etag.now (λ tag. length tag ≡ 8) }
    ensures length { vec_len text.new ≡ vec_len text.old + options_length 0 (etag_option etag.now) }
    ensures capacity { vec_capacity text.old ≤ vec_capacity text.new }
{
    if let Some(tag) = etag {
        append_option(text, 0, ETAG, tag);
    }
}

/// Appends the Content-Format, if there is one, after an option of number `before`; there is room for it.
#[tactic(auto, unfolding(osc_coap::specs::Message::options_spelling))]
pub(crate) fn append_format(text: &mut Vec<u8>, before: u16, format: Option<u16>)
    requires low { before ≤ 4 }
    requires room { vec_len text.old + options_length before (format_option format) ≤ vec_capacity text.old }
    ensures text { text.new.items ≡ text.old.items ++ options_spelling before (format_option format) }
    ensures length { vec_len text.new ≡ vec_len text.old + options_length before (format_option format) }
    ensures capacity { vec_capacity text.old ≤ vec_capacity text.new }
{
    if let Some(format) = format {
        append_option(text, before, CONTENT_FORMAT, &uint_bytes(format));
    }
}

/// Appends the marker and the payload; there is room. No bytes are no payload.
#[tactic(auto, unfolding(osc_coap::specs::Message::payload_spelling))]
pub(crate) fn append_payload(text: &mut Vec<u8>, payload: &[u8])
    requires { vec_len text.old + payload_length (payload_of payload.now) ≤ vec_capacity text.old }
    ensures { text.new.items ≡ text.old.items ++ payload_spelling (payload_of payload.now) }
{
    if payload.is_empty() {
        return;
    }
    text.push(PAYLOAD_MARKER).unwrap();
    text.extend_from_slice(payload).unwrap();
}

/// Writes the plaintext of a reply, in room that was taken; takes no memory.
#[tactic(auto, using(crate::proofs::ReplyTextLaws::reply_spelled), unfolding(crate::specs::Texts::reply_text))]
pub fn write_reply(text: &mut Vec<u8>, reply: &Reply)
    requires empty { text.old.items ≡ [] }
    requires none { vec_len text.old ≡ 0 }
    requires room { length (reply_text reply.now) ≤ vec_capacity text.old }
    ensures { text.new.items ≡ reply_text reply.now }
{
    length_of_plaintext();
    options_in_parts();
    text.push(reply.code.0).unwrap();
    append_etag(text, &reply.etag);
    append_format(text, etag_number(&reply.etag), reply.format);
    append_payload(text, reply.payload.as_slice());
}
