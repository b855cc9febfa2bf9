//! Requests and replies as messages (RFC 7252 section 5).

use crate::line::Line;
use crate::words::Word;
use osc_coap::{Kind, MessageRef};
use osc_model::{Code, Reply, Request};
use osc_options::{
    error_message, plaintext_of, reply_message, request_message, request_of_message,
};
use std::alloc::Global;

/// `request MESSAGE`: what is asked, and the message of it with the ID 1234 and the token "t".
pub fn request(alloc: Global, words: &[Word<'_>], line: &mut Line) -> Option<()> {
    let [message] = words else {
        return None;
    };
    let message = MessageRef::parse(message.bytes()?).ok()?;
    let request = request_of_message(alloc, &message).ok()?;
    write_request(&request, line);
    write_message(&request, line)
}

/// Writes code, path, Content-Format, Accept, If-None-Match, payload and the values of If-Match.
pub fn write_request(request: &Request, line: &mut Line) {
    line.number(request.code.0.into());
    match &request.path {
        Some(path) => line.bytes(path.text()),
        None => line.text("none"),
    }
    line.value(&request.format);
    line.value(&request.accept);
    line.test(request.if_none_match);
    line.bytes(request.payload.as_slice());
    for tag in request.if_match.as_slice() {
        line.bytes(tag.as_slice());
    }
}

fn write_message(request: &Request, line: &mut Line) -> Option<()> {
    if request.code.0 == 0 {
        return None;
    }
    line.text("written");
    match request_message(Kind::Confirmable, 0x1234, b"t", request) {
        Ok(message) => line.bytes(message.bytes()),
        Err(_) => line.text("too long"),
    }
    Some(())
}

/// `reply ETAG FORMAT PAYLOAD`: the acknowledgement of the ID 1234 and the token "t" with this reply 2.05, and the plaintext of that.
pub fn reply(alloc: Global, words: &[Word<'_>], line: &mut Line) -> Option<()> {
    let [etag, format, payload] = words else {
        return None;
    };
    let etag = <[u8; 8]>::try_from(etag.bytes()?).ok()?;
    let reply = Reply {
        code: Code::CONTENT,
        etag: Some(etag),
        format: format.short(),
        payload: payload.copied(alloc)?,
    };
    let message = reply_message(Kind::Acknowledgement, 0x1234, b"t", &reply).ok()?;
    let plaintext = plaintext_of(&message.message()).ok()?;
    line.bytes(message.bytes());
    line.bytes(plaintext.bytes());
    Some(())
}

/// Writes code, Content-Format, payload and ETag.
pub fn write_reply(reply: &Reply, line: &mut Line) {
    line.number(reply.code.0.into());
    line.value(&reply.format);
    line.bytes(reply.payload.as_slice());
    match &reply.etag {
        Some(tag) => line.bytes(tag),
        None => line.text("none"),
    }
}

/// `error ID CODE MAX_AGE TEXT`: the acknowledgement of this ID with the error.
pub fn error(words: &[Word<'_>], line: &mut Line) -> Option<()> {
    let [id, code, max_age, text] = words else {
        return None;
    };
    let (id, code, max_age, text) = (id.short()?, code.byte()?, max_age.short(), text.bytes()?);
    if code == 0 {
        return None;
    }
    let message = error_message(Kind::Acknowledgement, id, b"", Code(code), max_age, text);
    line.bytes(message.ok()?.bytes());
    Some(())
}
