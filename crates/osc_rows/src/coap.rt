//! Messages in bytes (RFC 7252 section 3), and OSCORE's plaintexts (RFC 8613 section 5.3).

use crate::line::Line;
use crate::words::Word;
use osc_coap::{
    MessageRef, Options, PlaintextRef, is_request_code, is_response_code, kind_and_id,
    option_length,
};

/// `message DATAGRAM`: the kind and the ID that its header says, or `none`; then the message's parts: kind, ID, code, token, length, options and
/// payload, or the error.
pub fn parsed(words: &[Word<'_>], line: &mut Line) -> Option<()> {
    let [datagram] = words else {
        return None;
    };
    let datagram = datagram.bytes()?;
    match kind_and_id(datagram) {
        Some((kind, id)) => {
            line.display(&kind);
            line.number(id.into());
        }
        None => line.text("none"),
    }
    match MessageRef::parse(datagram) {
        Ok(message) => write_message(&message, line),
        Err(error) => {
            line.number(error.number().into());
            line.display(&error);
        }
    }
    Some(())
}

fn write_message(message: &MessageRef<'_>, line: &mut Line) {
    line.display(&message.kind());
    line.number(message.id().into());
    line.number(message.code().into());
    line.bytes(message.token());
    line.number(message.length() as u64);
    write_options(message.options(), line);
    line.some_bytes(message.payload());
}

fn write_options(options: Options<'_>, line: &mut Line) {
    for (number, value) in options {
        line.number(number.into());
        line.bytes(value);
    }
}

/// `plaintext BYTES`: code, length, options and payload, where they are one.
pub fn plaintext(words: &[Word<'_>], line: &mut Line) -> Option<()> {
    let [bytes] = words else {
        return None;
    };
    match PlaintextRef::parse(bytes.bytes()?) {
        Some(plaintext) => {
            line.number(plaintext.code().into());
            line.number(plaintext.length() as u64);
            write_options(plaintext.options(), line);
            line.some_bytes(plaintext.payload());
        }
        None => line.text("none"),
    }
    Some(())
}

/// `code NUMBER`: whether it is one of a request, and of a response.
pub fn code(words: &[Word<'_>], line: &mut Line) -> Option<()> {
    let [number] = words else {
        return None;
    };
    let number = number.byte()?;
    line.test(is_request_code(number));
    line.test(is_response_code(number));
    Some(())
}

/// `option_length BEFORE NUMBER VALUE`: how many bytes an option takes behind one of another number.
pub fn length_of_option(words: &[Word<'_>], line: &mut Line) -> Option<()> {
    let [before, number, value] = words else {
        return None;
    };
    let (before, number, value) = (before.short()?, number.short()?, value.bytes()?);
    if number < before {
        return None;
    }
    line.number(option_length(before, number, value) as u64);
    Some(())
}
