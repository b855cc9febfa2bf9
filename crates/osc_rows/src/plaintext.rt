//! Plaintexts of OSCORE (RFC 8613 section 5.3), and the messages round them.

use crate::line::Line;
use crate::requests::{write_reply, write_request};
use crate::words::Word;
use osc_coap::{Kind, MessageBuilder, MessageRef, PlaintextRef};
use osc_options::{
    PlaintextError, numbers, plaintext_of, reply_of, request_of, unprotected_message, value_of,
    write_protected,
};
use std::alloc::Global;

/// `protected MESSAGE VALUE SEALED`: the plaintext, and the message that is sent with this option value and what is sealed.
pub fn protected(words: &[Word<'_>], line: &mut Line) -> Option<()> {
    let [message, value, sealed] = words else {
        return None;
    };
    let message = MessageRef::parse(message.bytes()?).ok()?;
    let mut outer = MessageBuilder::start(Kind::Confirmable, 0, 0, &[]);
    write_protected(&mut outer, &message, 2, value.bytes()?, sealed.bytes()?).ok()?;
    line.bytes(plaintext_of(&message).ok()?.bytes());
    line.bytes(outer.bytes());
    Some(())
}

/// `unprotected MESSAGE PLAINTEXT`: the value of the OSCORE option, and the message of both.
pub fn unprotected(words: &[Word<'_>], line: &mut Line) -> Option<()> {
    let [outer, inner] = words else {
        return None;
    };
    let outer = MessageRef::parse(outer.bytes()?).ok()?;
    let inner = PlaintextRef::parse(inner.bytes()?)?;
    if inner.code() == 0 {
        return None;
    }
    line.some_bytes(value_of(&outer, numbers::OSCORE));
    line.bytes(unprotected_message(&outer, &inner).ok()?.bytes());
    Some(())
}

/// `request_inside PLAINTEXT`: what is asked, or the error.
pub fn request(alloc: Global, words: &[Word<'_>], line: &mut Line) -> Option<()> {
    let [plaintext] = words else {
        return None;
    };
    match request_of(alloc, plaintext.bytes()?) {
        Ok(request) => write_request(&request, line),
        Err(error) => write_error(error, line),
    }
    Some(())
}

/// `reply_inside PLAINTEXT`: what is replied, or the error.
pub fn reply(alloc: Global, words: &[Word<'_>], line: &mut Line) -> Option<()> {
    let [plaintext] = words else {
        return None;
    };
    match reply_of(alloc, plaintext.bytes()?) {
        Ok(reply) => write_reply(&reply, line),
        Err(error) => write_error(error, line),
    }
    Some(())
}

fn write_error(error: PlaintextError, line: &mut Line) {
    line.number(error.number().into());
    line.display(&error);
}
