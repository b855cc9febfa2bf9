//! A token posted to a server, and protected requests under the context that it makes.
ghost use Rattle.std.specs.Prelude.{◌≡◌, ◌<◌, ◌≤◌, IfOk};
ghost use Rattle.osc_model.specs.declared.context.Side.TheVariants.{Client};
ghost use Rattle.osc_context.specs.{taken_of, greatest_number};
ghost use Rattle.osc_protect.specs.{HasShortContext};

use osc_ccm::Suite;
use osc_coap::{Kind, MessageBuilder, MessageRef};
use osc_context::{SendNumber, derive};
use osc_fixtures::{CLIENT, empty_server, sent_in, shared_name};
use osc_model::{Draw, Moment, Peer, SharedName, Side, Step};
use osc_protect::{
    MessageTooLong, ProtectedRequest, Room, open_response, protect_request, read_response,
};
use osc_server::Server;
use std::alloc::{AllocError, Global};
use std::process::Abort;
use std::test::*;

/// A post to authz-info, with a nonce that ends in 1 and the ID 00. Its token, of the secret that ends in 1, gives GET and POST
/// on `/log`; another implementation made it.
pub(crate) const POST: &[u8] =
    b"\x48\x02\x01\x00\x00\x00\x00\x00\x00\x00\x00\x01\xbaauthz-info\x11\x13\xff\xa3\x01\x58\x46\x83\x43\xa1\x01\x0a\xa1\x05\x4d\0\0\0\0\0\0\0\0\0\0\0\0\x01\x58\x2f\x7a\x0e\xde\x21\x71\xa9\xef\x96\x11\xe8\xb2\x3a\xfd\x72\x3e\x78\x79\xca\xdf\xb8\x87\xe3\xcb\x88\x90\x1d\xd4\x04\x61\xe9\xf3\x01\x24\xce\xe0\x4d\x4a\x5e\x85\x93\x1d\x22\x4b\x7c\xe6\xb4\xe2\x18\x28\x48\0\0\0\0\0\0\0\x01\x18\x2b\x41\0";

/// Its answer where the server's nonce ends in 2: 2.01, and the ID 01.
pub(crate) const POSTED: &[u8] =
    b"\x68\x41\x01\x00\x00\x00\x00\x00\x00\x00\x00\x01\xc1\x13\xff\xa2\x18\x2a\x48\0\0\0\0\0\0\0\x02\x18\x2c\x41\x01";

/// What an exchange of the token gave: the last byte of the server's nonce, and the ID that the client sends.
#[derive(Clone, Copy)]
pub(crate) struct Exchanged {
    pub nonce: u8,
    pub id: u8,
}

/// The exchange whose answer is `POSTED`.
pub(crate) const FIRST: Exchanged = Exchanged { nonce: 2, id: 1 };

/// The name of the context that the exchange makes (RFC 9203 section 4.3): the salt is the token's, which is empty, and the two
/// nonces, each as CBOR.
fn name(alloc: Global, exchanged: Exchanged) -> Result<SharedName, AllocError>
    ensures { IfOk result (λ name. HasShortContext name) }
{
    let mut salt = *b"\x40\x48\0\0\0\0\0\0\0\x01\x48\0\0\0\0\0\0\0\0";
    salt[18] = exchanged.nonce;
    let secret = b"\0\0\0\0\0\0\0\0\0\0\0\0\0\0\0\x01";
    shared_name(alloc, secret, &salt, &[exchanged.id], b"\x00")
}

/// The number that the client takes, where it has skipped to this one.
fn number_of(alloc: Global, name: &SharedName, number: u64) -> Result<SendNumber, Fail>
    ensures { IfOk result (λ taken. taken ≡ taken_of name.now Client taken.number) }
{
    let (mut sender, _) = derive(alloc, name, Side::Client)?;
    sender.skip_to(number);
    Ok(sender.take_number()?)
}

/// The client protects a message in this room.
fn protect_in(
    room: Room,
    number: SendNumber,
    message: &MessageRef<'_>,
) -> Result<ProtectedRequest, Fail>
    requires number { number ≡ taken_of room.name Client number.number }
    requires about { room.number ≡ number.number }
    requires short { HasShortContext room.name }
    requires room { 1152 ≤ room.most }
{
    match protect_request::<Suite>(room, number, message) {
        Ok(made) => Ok(made),
        Err(MessageTooLong { room: _, number }) => {
            number.spend();
            Err("too long")?
        }
    }
}

/// A confirmable request on `/log` with this code, message ID and payload, protected under this number of the first exchange's
/// context.
pub(crate) fn request(
    alloc: Global,
    code: u8,
    id: u16,
    number: u64,
    payload: &[u8],
) -> Result<Vec<u8>, Fail>
    requires { 0 < code }
{
    request_under(alloc, FIRST, code, id, number, payload)
}

/// The same under the context of this exchange.
pub(crate) fn request_under(
    alloc: Global,
    exchanged: Exchanged,
    code: u8,
    id: u16,
    number: u64,
    payload: &[u8],
) -> Result<Vec<u8>, Fail>
    requires { 0 < code }
{
    let mut message = MessageBuilder::start(Kind::Confirmable, code, id, b"");
    message.option(11, b"log")?;
    message.payload(payload)?;
    let name = name(alloc, exchanged)?;
    let made = protected(alloc, &name, number, &message.message());
    drop(name);
    made
}

/// The message, protected under this number of the context.
fn protected(
    alloc: Global,
    name: &SharedName,
    number: u64,
    message: &MessageRef<'_>,
) -> Result<Vec<u8>, Fail>
    requires { HasShortContext name.now }
{
    let taken = number_of(alloc, name, number)?;
    // For the proof alone: the call tells how long the ID is.
    let _id = taken.id();
    match Room::new(alloc, name, taken.get(), 1152) {
        Ok(room) => bytes_of(alloc, protect_in(room, taken, message)?),
        Err(error) => {
            taken.spend();
            Err(error)?
        }
    }
}

fn bytes_of(alloc: Global, made: ProtectedRequest) -> Result<Vec<u8>, Fail> {
    let bytes = Vec::from_slice(alloc, made.message.bytes());
    drop(made);
    Ok(bytes?)
}

/// What is sealed in a reply to the request of this number under the context of this exchange.
fn opened(alloc: Global, exchanged: Exchanged, number: u64, reply: &[u8]) -> Result<Vec<u8>, Fail>
    requires { number ≤ greatest_number }
{
    let message = MessageRef::parse(reply)?;
    let response = read_response(&message)?;
    let name = name(alloc, exchanged)?;
    let (_, recipient) = derive(alloc, &name, Side::Client)?;
    match open_response::<Suite>(alloc, &name, &recipient, number, &response)? {
        Ok(note) => Ok(Vec::from_slice(alloc, note.plaintext.as_slice())?),
        Err(_) => Err("not genuine")?,
    }
}

/// What the server sends for the datagram; its nonce would end in 2.
fn answer(alloc: Global, server: &mut Server, datagram: &[u8]) -> Vec<u8> {
    answer_drawn(alloc, server, datagram, 2)
}

/// The same where its nonce would end in this byte.
fn answer_drawn(alloc: Global, server: &mut Server, datagram: &[u8], nonce: u8) -> Vec<u8> {
    sent_in(alloc, hears(alloc, server, datagram, nonce))
}

/// The outcome of the datagram at the server, whose nonce would end in this byte.
fn hears(
    alloc: Global,
    server: &mut Server,
    datagram: &[u8],
    nonce: u8,
) -> Result<Step, AllocError> {
    hears_from(alloc, server, CLIENT, datagram, nonce)
}

/// The same of a datagram from this peer.
pub(crate) fn hears_from(
    alloc: Global,
    server: &mut Server,
    from: Peer,
    datagram: &[u8],
    nonce: u8,
) -> Result<Step, AllocError> {
    let mut drawn = [0; 32];
    drawn[7] = nonce;
    server.on_datagram::<Suite>(alloc, Moment::START, from, datagram, &Draw(drawn))
}

/// The server answers the datagram so.
pub(crate) fn check(
    rt: &impl Abort,
    alloc: Global,
    server: &mut Server,
    datagram: &[u8],
    reply: &[u8],
) {
    let answered = answer(alloc, server, datagram);
    assert!(rt; answered.as_slice() == reply);
}

/// The server serves the request of this number of the first exchange's context, which isn't repeated; what is sealed in its reply
/// ends so.
pub(crate) fn check_served(
    rt: &impl Abort,
    alloc: Global,
    server: &mut Server,
    number: u64,
    datagram: &[u8],
    end: &[u8],
) -> Result<(), Fail>
    requires { number ≤ greatest_number }
{
    let text = sealed_under(alloc, server, FIRST, number, datagram)?;
    assert!(rt; text.as_slice().ends_with(end));
    Ok(())
}

/// What is sealed in the server's reply to the request of this number under the context of this exchange.
pub(crate) fn sealed_under(
    alloc: Global,
    server: &mut Server,
    exchanged: Exchanged,
    number: u64,
    datagram: &[u8],
) -> Result<Vec<u8>, Fail>
    requires { number ≤ greatest_number }
{
    let reply = answer(alloc, server, datagram);
    opened(alloc, exchanged, number, &reply)
}

/// A request is served once, a repeat gets the same bytes, and the same request in another message is a replay.
fn serves_once(rt: &impl Abort, alloc: Global, server: &mut Server) -> Result<(), Fail> {
    check(rt, alloc, server, POST, POSTED);
    let post = request(alloc, 2, 0x0203, 0, b"a")?;
    check_served(rt, alloc, server, 0, &post, b"\x41")?;
    let first = answer(alloc, server, &post);
    check(rt, alloc, server, &post, &first);
    let other = request(alloc, 2, 0x0204, 0, b"a")?;
    check(
        rt,
        alloc,
        server,
        &other,
        b"\x60\x81\x02\x04\xd0\x01\xffReplay detected",
    );
    let get = request(alloc, 1, 0x0205, 1, b"")?;
    check_served(rt, alloc, server, 1, &get, b"\xffa")
}

#[test]
fn served_once(rt: HostRuntime) -> Result<(), Fail> {
    let mut server = empty_server(rt.alloc())?;
    serves_once(&rt, rt.alloc(), &mut server)
}

/// The datagram with this message ID.
pub(crate) fn numbered(alloc: Global, datagram: &[u8], id: u16) -> Result<Vec<u8>, AllocError> {
    let mut numbered = Vec::from_slice(alloc, datagram)?;
    for (at, byte) in [2, 3].into_iter().zip(id.to_be_bytes()) {
        if let Some(old) = numbered.get_mut(at) {
            *old = byte;
        }
    }
    Ok(numbered)
}

/// The datagram with this one of its bits changed, the first byte's highest bit being bit 0.
fn changed(alloc: Global, datagram: &[u8], bit: u8) -> Result<Vec<u8>, AllocError> {
    let mut changed = Vec::from_slice(alloc, datagram)?;
    if let Some(byte) = changed.get_mut((bit / 8) as usize) {
        *byte ^= 128 >> (bit % 8);
    }
    Ok(changed)
}

/// Bits of a protected request of 24 bytes, from the first to before the last, and what answers the request where one of them is
/// changed, but for the message ID. The bits are those of the version and type, the token's length, the code, the OSCORE option's
/// delta, length, flags, Partial IV and kid, the payload marker, and what is sealed.
const REFUSED: [(u8, u8, &[u8]); 15] = [
    (0, 3, b""),
    (4, 5, b"\x70\x00"),
    (5, 6, b"\x64\x81\x93\x09\x00\x01"),
    (6, 11, b"\x70\x00"),
    (14, 15, b"\x70\x00"),
    (32, 33, b"\x60\x81"),
    (33, 34, b"\x70\x00"),
    (34, 36, b"\x60\x81"),
    (36, 40, b"\x70\x00"),
    (40, 48, b"\x60\x82\xffFailed to decode COSE"),
    (48, 56, b"\x60\x80\xffDecryption failed"),
    (56, 64, b"\x60\x81\xd0\x01\xffSecurity context not found"),
    (64, 72, b"\x70\x00"),
    (72, 128, b"\x60\x80\xffDecryption failed"),
    (128, 192, b"\x60\x80\xffDecryption failed"),
];

/// Whether the answer has these bytes beside its message ID.
fn is_but_for_id(answer: &[u8], bytes: &[u8]) -> bool {
    match (answer, bytes) {
        ([], []) => true,
        ([kind, code, _, _, rest @ ..], [first, second, others @ ..]) => {
            kind == first && code == second && rest == others
        }
        _ => false,
    }
}

/// A changed bit of what is protected, or of what says how, is told, and leaves the number fresh and the tree as it is.
fn tells_changes(rt: &impl Abort, alloc: Global, server: &mut Server) -> Result<(), Fail> {
    check(rt, alloc, server, POST, POSTED);
    let post = request(alloc, 2, 0, 0, b"a")?;
    assert!(rt; post.len() == 24);
    for (first, end, told) in &REFUSED {
        for bit in *first..*end {
            let other = changed(alloc, &numbered(alloc, &post, 0x0200 + bit as u16)?, bit)?;
            let refused = answer(alloc, server, &other);
            assert!(rt; is_but_for_id(&refused, told));
            assert!(rt; server.tree().is_empty());
        }
    }
    check_served(rt, alloc, server, 0, &post, b"\x41")
}

#[test]
fn changed_bits(rt: HostRuntime) -> Result<(), Fail> {
    let mut server = empty_server(rt.alloc())?;
    tells_changes(&rt, rt.alloc(), &mut server)
}

/// The bits of a protected request that nothing protects: its type, its code among those of requests, and its message ID.
const UNPROTECTED: [u8; 21] = [
    3, 11, 12, 13, 15, 16, 17, 18, 19, 20, 21, 22, 23, 24, 25, 26, 27, 28, 29, 30, 31,
];

/// A request is served whatever its outer type, code and message ID are.
fn serves_changed(
    rt: &impl Abort,
    alloc: Global,
    server: &mut Server,
    bit: u8,
) -> Result<(), Fail> {
    check(rt, alloc, server, POST, POSTED);
    let post = request(alloc, 2, 0x0203, 0, b"a")?;
    let other = changed(alloc, &post, bit)?;
    check_served(rt, alloc, server, 0, &other, b"\x41")
}

fn served_alone(rt: &impl Abort, alloc: Global, bit: u8) -> Result<(), Fail> {
    let mut server = empty_server(alloc)?;
    serves_changed(rt, alloc, &mut server, bit)
}

#[test]
fn bits_that_nothing_protects(rt: HostRuntime) -> Result<(), Fail> {
    for bit in &UNPROTECTED {
        served_alone(&rt, rt.alloc(), *bit)?;
    }
    Ok(())
}

/// The first request makes the resource.
fn serves_first(rt: &impl Abort, alloc: Global, server: &mut Server) -> Result<(), Fail> {
    let post = request(alloc, 2, 1, 0, b"a")?;
    check_served(rt, alloc, server, 0, &post, b"\x41")
}

/// The server starts again after a tick.
fn restarted(alloc: Global, server: &mut Server) {
    let step = server.on_tick(alloc, Moment::START);
    drop(step);
    server.restart();
}

/// A server that started again has its resources, and no context.
fn starts_again(rt: &impl Abort, alloc: Global, server: &mut Server) -> Result<(), Fail> {
    check(rt, alloc, server, POST, POSTED);
    serves_first(rt, alloc, server)?;
    restarted(alloc, server);
    assert!(rt; server.tree().len() == 1);
    let get = request(alloc, 1, 2, 1, b"")?;
    check(
        rt,
        alloc,
        server,
        &get,
        b"\x60\x81\x00\x02\xd0\x01\xffSecurity context not found",
    );
    Ok(())
}

#[test]
fn started_again(rt: HostRuntime) -> Result<(), Fail> {
    let mut server = empty_server(rt.alloc())?;
    starts_again(&rt, rt.alloc(), &mut server)
}

/// The longest payloads are served, and longer ones refused, in a reply that is sealed (4.13).
fn serves_long_payloads(rt: &impl Abort, alloc: Global, server: &mut Server) -> Result<(), Fail> {
    check(rt, alloc, server, POST, POSTED);
    let post = request(alloc, 2, 1, 0, &[b'a'; 512])?;
    check_served(rt, alloc, server, 0, &post, b"\x41")?;
    let get = request(alloc, 1, 2, 1, b"")?;
    check_served(rt, alloc, server, 1, &get, &[b'a'; 512])?;
    let more = request(alloc, 2, 3, 2, b"b")?;
    check_served(rt, alloc, server, 2, &more, b"\x8d")?;
    let long = request(alloc, 2, 4, 3, &[b'a'; 1100])?;
    check_served(rt, alloc, server, 3, &long, b"\x8d")
}

#[test]
fn long_payloads(rt: HostRuntime) -> Result<(), Fail> {
    let mut server = empty_server(rt.alloc())?;
    serves_long_payloads(&rt, rt.alloc(), &mut server)
}

/// Each proper beginning of a request, in a message of its own, leaves the number fresh and the tree as it is.
fn refuses_beginnings(rt: &impl Abort, alloc: Global, server: &mut Server) -> Result<(), Fail> {
    check(rt, alloc, server, POST, POSTED);
    let post = request(alloc, 2, 0, 0, b"a")?;
    for length in 0..post.len() {
        let other = numbered(alloc, &post[..length], 0x0200 + (length % 256) as u16)?;
        answer(alloc, server, &other);
        assert!(rt; server.tree().is_empty());
    }
    let whole = request(alloc, 2, 0x0300, 0, b"a")?;
    check_served(rt, alloc, server, 0, &whole, b"\x41")
}

/// Each step notes the id of the token, where a post made a context and where a request is served, and no other does.
#[test]
fn whose_token_it_is(rt: HostRuntime) -> Result<(), Fail> {
    let alloc = rt.alloc();
    let mut server = empty_server(alloc)?;
    let posted = hears(alloc, &mut server, POST, 2)?;
    assert!(rt; posted.notes.holder() == Some(b"\x01".as_slice()));
    let asked = request(alloc, 2, 0x0300, 0, b"a")?;
    let served = hears(alloc, &mut server, &asked, 3)?;
    assert!(rt; served.notes.served().is_some());
    assert!(rt; served.notes.holder() == Some(b"\x01".as_slice()));
    let again = numbered(alloc, &asked, 0x0301)?;
    let replayed = hears(alloc, &mut server, &again, 4)?;
    assert!(rt; replayed.notes.refused().is_some());
    assert!(rt; replayed.notes.holder().is_none());
    Ok(())
}

#[test]
fn beginnings(rt: HostRuntime) -> Result<(), Fail> {
    let mut server = empty_server(rt.alloc())?;
    refuses_beginnings(&rt, rt.alloc(), &mut server)
}

/// The token is posted again in a message of this ID, and the server's nonce ends in this byte: its answer gives the ID 02.
pub(crate) fn posts_again(
    rt: &impl Abort,
    alloc: Global,
    server: &mut Server,
    id: u16,
    nonce: u8,
) -> Result<(), Fail> {
    let post = numbered(alloc, POST, id)?;
    let answered = answer_drawn(alloc, server, &post, nonce);
    assert!(rt; answered.as_slice().ends_with(&[nonce, 0x18, 0x2c, 0x41, 2]));
    Ok(())
}

/// A context that was confirmed is served until the newest post's has opened a request; the one between is gone.
fn keeps_the_confirmed(rt: &impl Abort, alloc: Global, server: &mut Server) -> Result<(), Fail> {
    check(rt, alloc, server, POST, POSTED);
    let first = request(alloc, 2, 0x0300, 0, b"a")?;
    check_served(rt, alloc, server, 0, &first, b"\x41")?;
    posts_again(rt, alloc, server, 0x0301, 3)?;
    posts_again(rt, alloc, server, 0x0302, 4)?;
    let second = request_under(alloc, Exchanged { nonce: 3, id: 2 }, 2, 0x0303, 0, b"b")?;
    check(
        rt,
        alloc,
        server,
        &second,
        b"\x60\x80\x03\x03\xffDecryption failed",
    );
    let again = request(alloc, 2, 0x0304, 1, b"c")?;
    check_served(rt, alloc, server, 1, &again, b"\x44")?;
    let third = Exchanged { nonce: 4, id: 2 };
    let newest = request_under(alloc, third, 1, 0x0305, 0, b"")?;
    let text = sealed_under(alloc, server, third, 0, &newest)?;
    assert!(rt; text.as_slice().ends_with(b"\xffac"));
    let late = request(alloc, 2, 0x0306, 2, b"d")?;
    check(
        rt,
        alloc,
        server,
        &late,
        b"\x60\x81\x03\x06\xd0\x01\xffSecurity context not found",
    );
    Ok(())
}

#[test]
fn a_token_posted_again(rt: HostRuntime) -> Result<(), Fail> {
    let mut server = empty_server(rt.alloc())?;
    keeps_the_confirmed(&rt, rt.alloc(), &mut server)
}

/// Whether the step that answers the datagram is refused memory.
pub(crate) fn is_refused_by(alloc: Global, server: &mut Server, datagram: &[u8]) -> bool {
    match hears(alloc, server, datagram, 2) {
        Ok(step) => {
            drop(step);
            false
        }
        Err(_) => true,
    }
}

/// A post that is refused memory leaves the server as it was: the same datagram then gets its answer.
fn posts_or_stays(rt: &impl Abort, alloc: Global, server: &mut Server) {
    is_refused_by(alloc, server, POST);
    check(rt, alloc, server, POST, POSTED);
}

#[test]
fn a_refused_allocation_of_a_post(rt: HostRuntime) -> Result<(), Fail> {
    let mut server = empty_server(rt.alloc())?;
    posts_or_stays(&rt, rt.alloc(), &mut server);
    Ok(())
}

/// A request that is refused memory changes nothing, and is then served. Where the tree alone lacks memory, 5.00 is sealed.
fn serves_or_stays(rt: &impl Abort, alloc: Global, server: &mut Server) -> Result<(), Fail> {
    check(rt, alloc, server, POST, POSTED);
    let post = request(alloc, 2, 0x0203, 0, b"a")?;
    if is_refused_by(alloc, server, &post) {
        assert!(rt; server.tree().is_empty());
    }
    let reply = answer(alloc, server, &post);
    let text = opened(alloc, FIRST, 0, &reply)?;
    if text.as_slice() == b"\xa0".as_slice() {
        assert!(rt; server.tree().is_empty());
    } else {
        assert!(rt; text.as_slice() == b"\x41".as_slice());
        assert!(rt; server.tree().len() == 1);
    }
    Ok(())
}

#[test]
fn a_refused_allocation_of_a_request(rt: HostRuntime) -> Result<(), Fail> {
    let mut server = empty_server(rt.alloc())?;
    serves_or_stays(&rt, rt.alloc(), &mut server)
}
