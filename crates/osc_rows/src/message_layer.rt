//! The message layer (RFC 7252 section 4): one stays from row to row.
ghost use Rattle.std.specs.Prelude.{IfSome};
ghost use Rattle.osc_message.specs.{FitsDatagram, IsSendableHandling};

use crate::line::Line;
use crate::words::Word;
use osc_coap::MessageRef;
use osc_message::{Handling, Heard, MOST_OPEN, Ticked, acknowledgement};
use osc_model::Bytes;
use std::alloc::Global;

/// A message layer with places for as many confirmable messages as are ever open.
type Endpoint = osc_message::Endpoint<MOST_OPEN>;

/// `clear`: all is forgotten. How many messages are open then.
pub fn clear(endpoint: &mut Endpoint, line: &mut Line) -> Option<()> {
    endpoint.clear();
    line.number(endpoint.open_messages() as u64);
    Some(())
}

/// `hear AT PEER DATAGRAM`: what the datagram is: an empty message or another by its ID, or what the message layer sends by itself. Nothing
/// changes.
pub fn hear(alloc: Global, endpoint: &Endpoint, words: &[Word<'_>], line: &mut Line) -> Option<()> {
    let [at, from, datagram] = words else {
        return None;
    };
    let (now, from, datagram) = (at.moment()?, from.peer()?, datagram.bytes()?);
    let heard = endpoint.on_datagram(alloc, now, from, datagram).ok()?;
    write_heard(&heard, line);
    Some(())
}

fn write_heard(heard: &Heard<'_>, line: &mut Line) {
    match heard {
        Heard::Alone(out) => match out.as_slice().first() {
            Some(sent) => line.bytes(sent.bytes.as_slice()),
            None => line.text("ignored"),
        },
        Heard::Empty(_, id) => {
            line.text("empty");
            line.number((*id).into());
        }
        Heard::Message(message) => {
            line.text("message");
            line.number(message.id().into());
        }
    }
}

/// What was done with a message of ID 7 that was answered 2.05 in its acknowledgement: it may count for a request.
fn handling_of(alloc: Global, request: Option<u16>) -> Option<Handling>
    ensures { IfSome result IsSendableHandling }
{
    let reply = Bytes::from_slice(alloc, b"\x60\x45\x00\x07").ok()?;
    Some(match request {
        Some(request) => Handling::Counted(request, Some(reply)),
        None => Handling::Answered(Some(reply)),
    })
}

/// `answer AT PEER DATAGRAM REQUEST`: the datagram is answered, and may count for a request. How many messages are open then.
pub fn answer(
    alloc: Global,
    endpoint: &mut Endpoint,
    words: &[Word<'_>],
    line: &mut Line,
) -> Option<()> {
    let [at, from, datagram, request] = words else {
        return None;
    };
    let (now, from, datagram) = (at.moment()?, from.peer()?, datagram.bytes()?);
    let heard = endpoint.on_datagram(alloc, now, from, datagram).ok()?;
    let handling = handling_of(alloc, request.short())?;
    endpoint.settle(now, from, &heard, handling);
    line.number(endpoint.open_messages() as u64);
    Some(())
}

/// `send AT PEER ID DRAW`: whether a confirmable message goes out or waits, or the number of the refusal; and how many are open.
pub fn send(
    alloc: Global,
    endpoint: &mut Endpoint,
    words: &[Word<'_>],
    line: &mut Line,
) -> Option<()> {
    let [at, to, id, draw] = words else {
        return None;
    };
    let (now, to, id, draw) = (at.moment()?, to.peer()?, id.short()?, draw.draw()?);
    let message = Bytes::from_slice(alloc, b"message").ok()?;
    match endpoint.send(now, to, id, &draw, message) {
        Ok(goes_out) => line.text(if goes_out { "goes out" } else { "waits" }),
        Err(full) => line.number(full.number().into()),
    }
    line.number(endpoint.open_messages() as u64);
    Some(())
}

/// `tick AT`: to whom something is sent, how many messages are given up, and when the next tick has to come.
pub fn tick(
    alloc: Global,
    endpoint: &mut Endpoint,
    words: &[Word<'_>],
    line: &mut Line,
) -> Option<()> {
    let [at] = words else {
        return None;
    };
    let done = endpoint.on_tick(alloc, at.moment()?);
    write_ticked(&done, line);
    line.some_number(endpoint.next_deadline());
    Some(())
}

fn write_ticked(done: &Ticked, line: &mut Line) {
    for datagram in done.out.as_slice() {
        line.peer(datagram.to);
    }
    line.number(done.given_up as u64);
}

/// `noted_reply AT PEER ID`: what answered the message.
pub fn noted_reply(endpoint: &Endpoint, words: &[Word<'_>], line: &mut Line) -> Option<()> {
    let [at, from, id] = words else {
        return None;
    };
    match endpoint.noted_reply(at.moment()?, from.peer()?, id.short()?) {
        Some(reply) => line.bytes(reply.as_slice()),
        None => line.text("none"),
    }
    Some(())
}

/// `take_id DRAW`: the node's next message ID, taken.
pub fn take_id(endpoint: &mut Endpoint, words: &[Word<'_>], line: &mut Line) -> Option<()> {
    let [draw] = words else {
        return None;
    };
    line.number(endpoint.take_id(&draw.draw()?).into());
    Some(())
}

/// `own_id DRAW`: the node's next message ID.
pub fn own_id(endpoint: &Endpoint, words: &[Word<'_>], line: &mut Line) -> Option<()> {
    let [draw] = words else {
        return None;
    };
    line.number(endpoint.own_id(&draw.draw()?).into());
    Some(())
}

/// `reply_start DRAW REQUEST`: the message of a reply 2.05 as far as its token.
pub fn reply_start(endpoint: &Endpoint, words: &[Word<'_>], line: &mut Line) -> Option<()> {
    let [draw, request] = words else {
        return None;
    };
    let (draw, request) = (draw.draw()?, MessageRef::parse(request.bytes()?).ok()?);
    line.bytes(endpoint.reply_start(&draw, &request, 69).bytes());
    Some(())
}

/// `take_reply_id DRAW REQUEST`: the reply's message ID is taken; the node's next one after that.
pub fn take_reply_id(endpoint: &mut Endpoint, words: &[Word<'_>], line: &mut Line) -> Option<()> {
    let [draw, request] = words else {
        return None;
    };
    let (draw, request) = (draw.draw()?, MessageRef::parse(request.bytes()?).ok()?);
    endpoint.take_reply_id(&draw, &request);
    line.number(endpoint.own_id(&draw).into());
    Some(())
}

/// `acknowledgement RESPONSE`: what acknowledges it.
pub fn acknowledged(words: &[Word<'_>], line: &mut Line) -> Option<()> {
    let [response] = words else {
        return None;
    };
    let response = MessageRef::parse(response.bytes()?).ok()?;
    match acknowledgement(&response) {
        Some(message) => line.bytes(message.bytes()),
        None => line.text("none"),
    }
    Some(())
}
