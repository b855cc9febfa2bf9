//! Protected messages (RFC 8613 sections 5 to 8). The context is the row's first five words.
ghost use Rattle.std.specs.Prelude.{◌≡◌, ◌≤◌, length, None, IfSome, IsFalse, IsSome};
ghost use Rattle.osc_model.specs.declared.context.Side.TheVariants.{Client, Server};
ghost use Rattle.osc_context.specs.{accepted_of, algorithm_of, taken_of, recipient_of, longest_id, greatest_number};
ghost use Rattle.osc_protect.specs.{HasShortContext, IsFor, longest_message, response_length};

use crate::line::Line;
use crate::note::write_note;
use crate::words::Word;
use osc_ccm::{Ciphers, Suite};
use osc_coap::{DATAGRAM_LIMIT, MessageBuilder, MessageRef};
use osc_context::{AcceptedNumber, ID_LIMIT, NUMBER_LIMIT, RecipientContext, SendNumber, derive};
use osc_model::{Bytes, ContextName, Note, Reply, SharedName, Side, refusals};
use osc_options::{reply_message, reply_of, survey_of};
use osc_protect::{
    Header, Malformed, MessageTooLong, ProtectedRequest, ProtectedResponse, ReplyTooLong, Room,
    SealedReply, SealedRequestRef, SealedResponseRef, fits, open_request, open_response,
    protect_reply, protect_request, protect_response, read_request, read_response, seal_reply,
};
use osc_world::adversary::seal_any;
use std::alloc::Global;

/// Rows of a context whose id context and client ID are short enough.
pub fn told(
    alloc: Global,
    verb: &str,
    name: ContextName,
    words: &[Word<'_>],
    line: &mut Line,
) -> Option<()> {
    if name.client_id.len() > ID_LIMIT || is_long(&name.id_context) {
        return None;
    }
    let name = SharedName::new(alloc, name).ok()?;
    let done = told_under(alloc, verb, &name, words, line);
    drop(name);
    done
}

fn is_long(id_context: &Option<Bytes>) -> bool
    ensures { IsFalse result → IfSome id_context.now (λ bytes. length bytes ≤ 64) }
{
    match id_context {
        Some(bytes) => bytes.len() > 64,
        None => false,
    }
}

fn told_under(
    alloc: Global,
    verb: &str,
    name: &SharedName,
    words: &[Word<'_>],
    line: &mut Line,
) -> Option<()>
    requires context { HasShortContext name.now }
    requires id { length name.now.client_id ≤ longest_id }
{
    match verb {
        "protect" => request(alloc, name, words, line),
        "protect_shorter" => shorter_request(alloc, name, words, line),
        "protect_text" => text(alloc, name, words, line),
        "protect_reply" => reply(alloc, name, words, line),
        "protect_response" => response(alloc, name, words, line),
        "open" => opened(alloc, name, words, line),
        "open_response" => opened_response(alloc, name, words, line),
        "is_for" => is_for(name, words, line),
        "protected_size" => size(alloc, name, words, line),
        _ => None,
    }
}

/// A sender sequence number.
fn number_of(word: &Word<'_>) -> Option<u64>
    ensures { IfSome result (λ number. number ≤ greatest_number) }
{
    let number = word.number()?;
    if number > NUMBER_LIMIT {
        return None;
    }
    Some(number)
}

/// Writes a message that was made under a context, and its note.
fn write_made(name: &SharedName, message: &MessageBuilder, note: &Note, line: &mut Line) {
    line.bytes(message.bytes());
    write_opened(name, note, line);
}

/// Writes whether a note is of the context, and its parts.
fn write_opened(name: &SharedName, note: &Note, line: &mut Line) {
    line.test(note.context == *name);
    write_note(note, line);
}

/// The number that this side takes next, once it has skipped to this one.
fn taken(alloc: Global, name: &SharedName, side: Side, number: u64) -> Option<SendNumber>
    ensures { IfSome result (λ taken. taken ≡ taken_of name.now side number) }
{
    let (sender, recipient) = derive(alloc, name, side).ok()?;
    drop(recipient);
    let mut sender = sender;
    sender.skip_to(number);
    let taken = sender.take_number().ok();
    drop(sender);
    taken
}

/// `protect`, a context, a number and a message: the request that the client makes of it, and its note; or the number of the refusal.
fn request(alloc: Global, name: &SharedName, words: &[Word<'_>], line: &mut Line) -> Option<()>
    requires context { HasShortContext name.now }
    requires id { length name.now.client_id ≤ longest_id }
{
    let [number, message] = words else {
        return None;
    };
    let (number, message) = (
        number_of(number)?,
        MessageRef::parse(message.bytes()?).ok()?,
    );
    let room = Room::new(alloc, name, number, DATAGRAM_LIMIT).ok()?;
    let number = taken(alloc, name, Side::Client, number)?;
    write_request(name, protect_request::<Suite>(room, number, &message), line);
    Some(())
}

fn write_request(
    name: &SharedName,
    made: Result<ProtectedRequest, MessageTooLong>,
    line: &mut Line,
) {
    match made {
        Ok(made) => write_made(name, &made.message, &made.note, line),
        Err(error) => {
            line.number(error.number().into());
            let MessageTooLong { room, number } = error;
            number.spend();
            drop(room);
        }
    }
}

/// `protect_shorter`, a context, a number and two messages, of which the first is too long: room and number are handed back, and serve the
/// other.
fn shorter_request(
    alloc: Global,
    name: &SharedName,
    words: &[Word<'_>],
    line: &mut Line,
) -> Option<()>
    requires context { HasShortContext name.now }
    requires id { length name.now.client_id ≤ longest_id }
{
    let [number, too_long, message] = words else {
        return None;
    };
    let message = MessageRef::parse(message.bytes()?).ok()?;
    let MessageTooLong { room, number } = refused(alloc, name, number, too_long)?;
    line.value(&room);
    line.value(&number);
    write_request(name, protect_request::<Suite>(room, number, &message), line);
    Some(())
}

/// Room and number of a message that is too long.
fn refused(
    alloc: Global,
    name: &SharedName,
    number: &Word<'_>,
    message: &Word<'_>,
) -> Option<MessageTooLong>
    requires context { HasShortContext name.now }
    requires id { length name.now.client_id ≤ longest_id }
    ensures room { IfSome result (λ refused. refused.room ≡ record { name = name.now; number = refused.number.number; most = DATAGRAM_LIMIT }) }
    ensures number { IfSome result (λ refused. refused.number ≡ taken_of name.now Client refused.number.number) }
{
    let (number, message) = (
        number_of(number)?,
        MessageRef::parse(message.bytes()?).ok()?,
    );
    let room = Room::new(alloc, name, number, DATAGRAM_LIMIT).ok()?;
    let number = taken(alloc, name, Side::Client, number)?;
    protect_request::<Suite>(room, number, &message).err()
}

/// `protect_text`, a context, a number, a message and a text: the request in which the client seals any text, and its note; or the number of
/// the refusal.
fn text(alloc: Global, name: &SharedName, words: &[Word<'_>], line: &mut Line) -> Option<()>
    requires context { HasShortContext name.now }
    requires id { length name.now.client_id ≤ longest_id }
{
    let [number, message, text] = words else {
        return None;
    };
    let (number, message) = (
        number_of(number)?,
        MessageRef::parse(message.bytes()?).ok()?,
    );
    let text = text.bytes()?;
    let (sender, recipient) = derive(alloc, name, Side::Client).ok()?;
    drop(recipient);
    let made = seal_any::<Suite>(alloc, name, &sender, number, &message, text);
    drop(sender);
    match made.ok()? {
        Some(made) => write_made(name, &made.message, &made.note, line),
        None => line.number(refusals::DATAGRAM_TOO_LONG.into()),
    }
    Some(())
}

/// What the message says, if it is a protected request.
fn sealed_request<'a>(message: &MessageRef<'a>) -> Result<SealedRequestRef<'a>, Malformed> {
    match survey_of(message).oscore {
        Some(value) => read_request(&value, message),
        None => Err(Malformed),
    }
}

/// `open`, a context and a protected request: the note of its opening at the server, or the number of the refusal.
fn opened(alloc: Global, name: &SharedName, words: &[Word<'_>], line: &mut Line) -> Option<()> {
    let [request] = words else {
        return None;
    };
    let request = MessageRef::parse(request.bytes()?).ok()?;
    let sealed = sealed_request(&request).ok()?;
    if !sealed.is_for(name) {
        return None;
    }
    let (sender, recipient) = derive(alloc, name, Side::Server).ok()?;
    drop(sender);
    let opened = open_request::<Suite>(alloc, name, &recipient, &sealed);
    drop(recipient);
    match opened.ok()? {
        Ok(note) => write_opened(name, &note, line),
        Err(error) => line.number(error.number().into()),
    }
    Some(())
}

/// `protect_reply`, a context, a protected request and a message: the response that the server makes of it, under the request's nonce, and its
/// note. Where the message carries a reply, it is the one that the server seals as it answers, or none where that is another.
fn reply(alloc: Global, name: &SharedName, words: &[Word<'_>], line: &mut Line) -> Option<()> {
    let [request, reply] = words else {
        return None;
    };
    let request = MessageRef::parse(request.bytes()?).ok()?;
    let reply = MessageRef::parse(reply.bytes()?).ok()?;
    let sealed = sealed_request(&request).ok()?;
    if !sealed.is_for(name) {
        return None;
    }
    let made = reply_under::<Suite>(alloc, name, &sealed, &reply)?;
    match reply_of(alloc, made.note.plaintext.as_slice()) {
        Ok(carried) => {
            let header = Header {
                kind: reply.kind(),
                id: reply.id(),
                token: reply.token(),
            };
            let answer = answer_under::<Suite>(alloc, name, &sealed, header, &carried)?;
            if answer.datagram.as_slice() != made.message.bytes() {
                return None;
            }
            line.bytes(answer.datagram.as_slice());
            write_opened(name, &answer.note, line);
        }
        Err(_) => write_made(name, &made.message, &made.note, line),
    }
    Some(())
}

/// The right of the server to one reply to a request that opens, and room for it.
struct Right {
    number: AcceptedNumber,
    room: Room,
}

/// The server accepts the number of a request that opens.
fn right_to<A: Ciphers>(
    alloc: Global,
    name: &SharedName,
    recipient: RecipientContext,
    sealed: &SealedRequestRef<'_>,
) -> Option<Right>
    requires recipient { recipient ≡ recipient_of name.now Server recipient.window }
    requires named { IsFor name.now sealed.now }
    ensures number { IfSome result (λ right. right.number ≡ accepted_of name.now Server right.number.number) }
    ensures room { IfSome result (λ right. right.room ≡ record { name = name.now; number = right.number.number; most = DATAGRAM_LIMIT }) }
{
    let mut recipient = recipient;
    let room = answering::<A>(alloc, name, &recipient, sealed)?;
    if !recipient.is_fresh(sealed.number()) {
        return None;
    }
    let number = recipient.accept(sealed.number());
    drop(recipient);
    Some(Right { number, room })
}

/// The response to a request under its nonce.
fn reply_under<A: Ciphers>(
    alloc: Global,
    name: &SharedName,
    sealed: &SealedRequestRef<'_>,
    reply: &MessageRef<'_>,
) -> Option<ProtectedResponse>
    requires { IsFor name.now sealed.now }
    ensures { IsSome result → response_length (A.TAG (algorithm_of name.now)) None reply.now ≤ longest_message }
{
    let (sender, recipient) = derive(alloc, name, Side::Server).ok()?;
    let Right { number, room } = right_to::<A>(alloc, name, recipient, sealed)?;
    let made = protect_reply::<A>(room, number, &sender, reply);
    drop(sender);
    match made {
        Ok(made) => Some(made),
        Err(ReplyTooLong { room, number }) => {
            number.spend();
            drop(room);
            None
        }
    }
}

/// The same of a message that carries this reply, as the server seals it.
fn answer_under<A: Ciphers>(
    alloc: Global,
    name: &SharedName,
    sealed: &SealedRequestRef<'_>,
    header: Header<'_>,
    reply: &Reply,
) -> Option<SealedReply>
    requires named { IsFor name.now sealed.now }
    requires token { length header.token.now ≤ 8 }
{
    if reply.code.0 == 0 {
        return None;
    }
    let message = reply_message(header.kind, header.id, header.token, reply).ok()?;
    let fitting = reply_under::<A>(alloc, name, sealed, &message.message())?;
    drop(fitting);
    let out = Vec::with_capacity(alloc, DATAGRAM_LIMIT).ok()?;
    let (sender, recipient) = derive(alloc, name, Side::Server).ok()?;
    let Right { room, number } = right_to::<A>(alloc, name, recipient, sealed)?;
    let answer = seal_reply::<A>(room, number, &sender, header, reply, out);
    drop(sender);
    Some(answer)
}

/// Room for the response to a request that opens.
fn answering<A: Ciphers>(
    alloc: Global,
    name: &SharedName,
    recipient: &RecipientContext,
    sealed: &SealedRequestRef<'_>,
) -> Option<Room>
    requires recipient { recipient.now ≡ recipient_of name.now Server recipient.now.window }
    requires named { IsFor name.now sealed.now }
    ensures { IfSome result (λ room. room ≡ record { name = name.now; number = sealed.now.number; most = DATAGRAM_LIMIT }) }
{
    let opened = open_request::<A>(alloc, name, recipient, sealed).ok()?;
    let note = opened.ok()?;
    let room = Room::answering(alloc, &note, DATAGRAM_LIMIT).ok();
    drop(note);
    room
}

/// `protect_response`, a context, the number of a request, one of the server's and a message: the response under that one's nonce, and its
/// note; or the number of the refusal.
fn response(alloc: Global, name: &SharedName, words: &[Word<'_>], line: &mut Line) -> Option<()>
    requires id { length name.now.client_id ≤ longest_id }
{
    let [request, own, message] = words else {
        return None;
    };
    let (request, own) = (number_of(request)?, number_of(own)?);
    let message = MessageRef::parse(message.bytes()?).ok()?;
    let room = Room::new(alloc, name, request, DATAGRAM_LIMIT).ok()?;
    let own = taken(alloc, name, Side::Server, own)?;
    write_response(
        name,
        protect_response::<Suite>(room, request, own, &message),
        line,
    );
    Some(())
}

fn write_response(
    name: &SharedName,
    made: Result<ProtectedResponse, MessageTooLong>,
    line: &mut Line,
) {
    match made {
        Ok(made) => write_made(name, &made.message, &made.note, line),
        Err(error) => {
            line.number(error.number().into());
            let MessageTooLong { room, number } = error;
            number.spend();
            drop(room);
        }
    }
}

/// `open_response`, a context, the number of the request and a message: the note of its opening at the client, as the response to that
/// request; or the number of the refusal.
fn opened_response(
    alloc: Global,
    name: &SharedName,
    words: &[Word<'_>],
    line: &mut Line,
) -> Option<()>
    requires id { length name.now.client_id ≤ longest_id }
{
    let [number, response] = words else {
        return None;
    };
    let (number, response) = (
        number_of(number)?,
        MessageRef::parse(response.bytes()?).ok()?,
    );
    match read_response(&response) {
        Ok(sealed) => open_sealed(alloc, name, number, &sealed, line),
        Err(error) => {
            line.value(&error);
            Some(())
        }
    }
}

fn open_sealed(
    alloc: Global,
    name: &SharedName,
    number: u64,
    sealed: &SealedResponseRef<'_>,
    line: &mut Line,
) -> Option<()>
    requires id { length name.now.client_id ≤ longest_id }
    requires number { number ≤ greatest_number }
{
    let (sender, recipient) = derive(alloc, name, Side::Client).ok()?;
    drop(sender);
    let opened = open_response::<Suite>(alloc, name, &recipient, number, sealed);
    drop(recipient);
    match opened.ok()? {
        Ok(note) => write_opened(name, &note, line),
        Err(error) => line.number(error.number().into()),
    }
    Some(())
}

/// `number_in MESSAGE`: the number of a protected request.
pub fn number(words: &[Word<'_>], line: &mut Line) -> Option<()> {
    let [message] = words else {
        return None;
    };
    let message = MessageRef::parse(message.bytes()?).ok()?;
    match sealed_request(&message) {
        Ok(sealed) => line.number(sealed.number()),
        Err(error) => line.value(&error),
    }
    Some(())
}

/// `is_for`, a context and a protected request: whether the request names the context.
fn is_for(name: &SharedName, words: &[Word<'_>], line: &mut Line) -> Option<()> {
    let [message] = words else {
        return None;
    };
    let message = MessageRef::parse(message.bytes()?).ok()?;
    let sealed = sealed_request(&message).ok()?;
    line.test(sealed.is_for(name));
    Some(())
}

/// `protected_size`, a context, a number and a message: how many bytes its plaintext and it have, protected as a request, if it fits a datagram.
fn size(alloc: Global, name: &SharedName, words: &[Word<'_>], line: &mut Line) -> Option<()>
    requires context { HasShortContext name.now }
    requires id { length name.now.client_id ≤ longest_id }
{
    let [number, message] = words else {
        return None;
    };
    let (number, message) = (
        number_of(number)?,
        MessageRef::parse(message.bytes()?).ok()?,
    );
    if !fits::<Suite>(name, number, &message) {
        line.text("none");
        return Some(());
    }
    let room = Room::new(alloc, name, number, DATAGRAM_LIMIT).ok()?;
    let number = taken(alloc, name, Side::Client, number)?;
    match protect_request::<Suite>(room, number, &message) {
        Ok(made) => {
            line.number(made.note.plaintext.len() as u64);
            line.number(made.message.bytes().len() as u64);
            Some(())
        }
        Err(MessageTooLong { room, number }) => {
            number.spend();
            drop(room);
            None
        }
    }
}
