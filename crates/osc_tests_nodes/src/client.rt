//! A client and a server, each by the datagrams of the other.
ghost use Rattle.std.specs.Prelude.{◌<◌};

use osc_ccm::{Aead, Ccm, Suite};
use osc_client::Client;
use osc_context::{derive, nonce_for};
use osc_fixtures::{
    CLIENT, GET, GET_AND_POST, POST, PUT, SERVER, at, drawn, empty_server, own, request, sent,
    sent_in, shared_name, straight,
};
use osc_model::{ClientResult, Code, Moment, Request, SharedName, Side, Step};
use osc_server::Server;
use osc_world::adversary::lie;
use std::alloc::{AllocError, Global};
use std::process::Abort;
use std::test::*;

/// A client that was granted GET and POST on `/log`. Each byte of its secret is 1.
fn client(alloc: Global) -> Result<Client, AllocError> {
    osc_fixtures::client(alloc, own(1, GET_AND_POST), straight())
}

/// What the server sends for the client's datagram.
fn served(alloc: Global, server: &mut Server, datagram: &[u8]) -> Vec<u8> {
    let step = server.on_datagram::<Suite>(alloc, Moment::START, CLIENT, datagram, &drawn(9));
    sent_in(alloc, step)
}

/// What the client sends to begin an exchange.
fn begun(alloc: Global, client: &mut Client, byte: u8) -> Vec<u8> {
    sent_in(alloc, client.exchange(alloc, Moment::START, &drawn(byte)))
}

/// What the client sends to ask.
fn asked(alloc: Global, client: &mut Client, request: &Request, byte: u8) -> Vec<u8>
    requires { 0 < request.now.code.0 }
{
    let step = client.ask::<Suite>(alloc, Moment::START, request, &drawn(byte));
    sent_in(alloc, step)
}

/// What the client sends where its holder seals this text at this number.
fn lied(alloc: Global, client: &Client, number: u64, text: &[u8], byte: u8) -> Vec<u8>
    requires { number < 1_099_511_627_776 }
{
    sent_in(
        alloc,
        lie::<Suite>(alloc, client, number, text, &drawn(byte)),
    )
}

/// How a lie goes on that isn't sent.
fn refused_lie(alloc: Global, client: &Client, text: &[u8]) -> u8 {
    result_in(lie::<Suite>(alloc, client, 0, text, &drawn(7)))
}

/// How a step at the client went on, in one byte: 0 for nothing, 1 for a context, 2 and more by the class of an answer that opened
/// or didn't, 200 for silence, the number of a refusal after 100, and 255 for lack of memory.
fn result_in(step: Result<Step, AllocError>) -> u8 {
    match step {
        Ok(step) => told_in(step),
        Err(_) => 255,
    }
}

fn told_in(step: Step) -> u8 {
    let told = match step.notes.result() {
        None => 0,
        Some(ClientResult::Made) => 1,
        Some(ClientResult::Answer(reply)) => reply.code.0,
        Some(ClientResult::Unverified(code)) => code.0 / 32,
        Some(ClientResult::TimedOut) => 200,
        Some(ClientResult::Refused(number)) => (*number % 100) + 100,
    };
    drop(step);
    told
}

/// The outcome of the server's datagram at the client.
fn hears(alloc: Global, client: &mut Client, datagram: &[u8]) -> Result<Step, AllocError> {
    client.on_datagram::<Suite>(alloc, Moment::START, SERVER, datagram)
}

/// How the server's datagram goes on at the client.
fn heard(alloc: Global, client: &mut Client, datagram: &[u8]) -> u8 {
    result_in(hears(alloc, client, datagram))
}

/// How a tick at this moment in ms goes on.
fn ticked(alloc: Global, client: &mut Client, ms: u64) -> u8 {
    told_in(client.on_tick(alloc, at(ms)))
}

/// How an ask that isn't sent goes on.
fn hindered(alloc: Global, client: &mut Client, request: &Request) -> u8
    requires { 0 < request.now.code.0 }
{
    result_in(client.ask::<Suite>(alloc, Moment::START, request, &drawn(7)))
}

/// The client gets a context.
fn exchanges(rt: &impl Abort, alloc: Global, client: &mut Client, server: &mut Server) {
    let post = begun(alloc, client, 1);
    let answer = served(alloc, server, &post);
    assert!(rt; heard(alloc, client, &answer) == 1);
    assert!(rt; heard(alloc, client, &answer) == 0);
}

/// The code by which a request is answered: once, and its answer isn't taken again.
fn asks(
    rt: &impl Abort,
    alloc: Global,
    client: &mut Client,
    server: &mut Server,
    request: &Request,
    byte: u8,
) -> u8
    requires { 0 < request.now.code.0 }
{
    let protected = asked(alloc, client, request, byte);
    assert!(rt; hindered(alloc, client, request) == 117);
    let answer = served(alloc, server, &protected);
    let code = heard(alloc, client, &answer);
    assert!(rt; heard(alloc, client, &answer) == 0);
    code
}

fn serves_a_client(
    rt: &impl Abort,
    alloc: Global,
    client: &mut Client,
    server: &mut Server,
) -> Result<(), Fail> {
    let post = request(alloc, b"/log", POST, b"a")?;
    let get = request(alloc, b"/log", GET, b"")?;
    let put = request(alloc, b"/log", PUT, b"b")?;
    assert!(rt; hindered(alloc, client, &post) == 122);
    exchanges(rt, alloc, client, server);
    assert!(rt; asks(rt, alloc, client, server, &post, 2) == Code::CREATED.0);
    assert!(rt; asks(rt, alloc, client, server, &get, 3) == Code::CONTENT.0);
    assert!(rt; asks(rt, alloc, client, server, &put, 4) == Code::METHOD_NOT_ALLOWED.0);
    assert!(rt; server.tree().len() == 1);
    drop(post);
    drop(get);
    drop(put);
    Ok(())
}

#[test]
fn an_exchange_and_three_requests(rt: HostRuntime) -> Result<(), Fail> {
    let mut client = client(rt.alloc())?;
    let mut server = empty_server(rt.alloc())?;
    let served = serves_a_client(&rt, rt.alloc(), &mut client, &mut server);
    drop(server);
    drop(client);
    served
}

/// The acknowledgement of a client's message that answers it, with this code and what follows the token.
fn answering(alloc: Global, code: u8, message: &[u8], rest: &[u8]) -> Result<Vec<u8>, Fail> {
    let mut answer = Vec::from_slice(alloc, &[0x68, code])?;
    answer.extend_from_slice(message.get(2..12).ok_or("a short message")?)?;
    answer.extend_from_slice(rest)?;
    Ok(answer)
}

/// An answer to a post: a nonce of twos, and the ID 01.
const AGREED: &[u8] =
    b"\xc1\x13\xff\xa2\x18\x2a\x48\x02\x02\x02\x02\x02\x02\x02\x02\x18\x2c\x41\x01";

/// The name of the context that this answer makes of a post with a nonce of ones (RFC 9203 section 4.3).
fn agreed_name(alloc: Global) -> Result<SharedName, AllocError> {
    let salt = b"\x40\x48\x01\x01\x01\x01\x01\x01\x01\x01\x48\x02\x02\x02\x02\x02\x02\x02\x02";
    shared_name(alloc, &[1; 16], salt, b"\x01", b"\x00")
}

/// The associated data of the request of number 0 under it, and of its response (RFC 8613 section 5.4).
const AAD: &[u8] = b"\x83\x68Encrypt0\x40\x49\x85\x01\x81\x0a\x41\x01\x41\x00\x40";

/// The protected response to that request in which a server seals this text.
fn responding(alloc: Global, message: &[u8], text: &[u8]) -> Result<Vec<u8>, Fail> {
    let name = agreed_name(alloc)?;
    let (sender, _) = derive(alloc, &name, Side::Server)?;
    let nonce = nonce_for(sender.common_iv(), b"\x01", 0);
    let mut sealed = [0; 64];
    let count = Ccm::<8>::from_key(sender.key()).seal(&nonce, AAD, text, &mut sealed)?;
    drop(sender);
    drop(name);
    let mut rest = Vec::from_slice(alloc, b"\x90\xff")?;
    rest.extend_from_slice(sealed.get(..count).ok_or("a long text")?)?;
    answering(alloc, 0x44, message, &rest)
}

/// Texts that a server may seal, and how each goes on at the client: one with an unrecognised critical option, as 13 or an empty
/// Uri-Host, is no answer, and one with recognised options of class U (Uri-Host, Proxy-Uri, Proxy-Scheme) is.
const RESPONSES: [(&[u8], u8); 3] = [
    (b"\x45\xd0\x00\xffhi", 0),
    (b"\x45\x30\xffhi", 0),
    (b"\x45\x31h\xd1\x13u\x44coap\xffhi", 69),
];

fn takes_answers(rt: &impl Abort, alloc: Global, client: &mut Client) -> Result<(), Fail> {
    let get = request(alloc, b"/log", GET, b"")?;
    let post = begun(alloc, client, 1);
    let agreed = answering(alloc, 0x41, &post, AGREED)?;
    assert!(rt; heard(alloc, client, &agreed) == 1);
    let protected = asked(alloc, client, &get, 2);
    for &(text, told) in &RESPONSES {
        let response = responding(alloc, &protected, text)?;
        assert!(rt; heard(alloc, client, &response) == told, "at {text:?}");
    }
    drop(get);
    Ok(())
}

#[test]
fn an_answer_with_options_of_class_u(rt: HostRuntime) -> Result<(), Fail> {
    let mut client = client(rt.alloc())?;
    let taken = takes_answers(&rt, rt.alloc(), &mut client);
    drop(client);
    taken
}

/// What a client seals at a number that it hasn't taken yet is served, and the request that takes the number is a replay. After the
/// greatest number there is none.
fn lies_and_skips(
    rt: &impl Abort,
    alloc: Global,
    client: &mut Client,
    server: &mut Server,
) -> Result<(), Fail> {
    let post = request(alloc, b"/log", POST, b"a")?;
    assert!(rt; refused_lie(alloc, client, b"\x02") == 122);
    exchanges(rt, alloc, client, server);
    assert!(rt; refused_lie(alloc, client, [0; 1152].as_slice()) == 114);
    let told = lied(alloc, client, 0, b"\x02\xb3log\xffb", 5);
    assert!(rt; told.starts_with(b"\x48\x02\x05\x05\x05"));
    let replay = asked(alloc, client, &post, 6);
    assert!(rt; served(alloc, server, &told).starts_with(b"\x68\x44\x05\x05\x05"));
    assert!(rt; server.tree().len() == 1);
    let answer = served(alloc, server, &replay);
    assert!(rt; answer.starts_with(b"\x68\x81"));
    assert!(rt; heard(alloc, client, &answer) == 4);
    client.skip_to(1_099_511_627_775);
    client.skip_to(3);
    assert!(rt; asks(rt, alloc, client, server, &post, 8) == Code::CHANGED.0);
    assert!(rt; hindered(alloc, client, &post) == 118);
    drop(post);
    Ok(())
}

#[test]
fn a_lie_and_the_last_number(rt: HostRuntime) -> Result<(), Fail> {
    let mut client = client(rt.alloc())?;
    let mut server = empty_server(rt.alloc())?;
    let served = lies_and_skips(&rt, rt.alloc(), &mut client, &mut server);
    drop(server);
    drop(client);
    served
}

/// What nobody answers is sent five times, and given up; a restart forgets it, and a Reset ends it.
fn waits_in_vain(rt: &impl Abort, alloc: Global, client: &mut Client) {
    let post = begun(alloc, client, 0);
    assert!(rt; post.starts_with(b"\x48\x02\0\0"));
    assert!(rt; client.next_deadline() == Some(2_000));
    for &ms in &[1_999, 2_000, 6_000, 14_000, 30_000, 61_999] {
        assert!(rt; ticked(alloc, client, ms) == 0);
    }
    assert!(rt; client.next_deadline() == Some(62_000));
    assert!(rt; ticked(alloc, client, 62_000) == 200);
    assert!(rt; client.next_deadline().is_none());
    assert!(rt; begun(alloc, client, 0).starts_with(b"\x48\x02\0\x01"));
    client.restart();
    assert!(rt; begun(alloc, client, 0).starts_with(b"\x48\x02\0\0"));
    assert!(rt; heard(alloc, client, b"\x60\0\0\0") == 0);
    assert!(rt; client.next_deadline() == Some(247_000));
    assert!(rt; heard(alloc, client, b"\x70\0\0\x01") == 0);
    assert!(rt; begun(alloc, client, 0).is_empty());
    assert!(rt; matches_reset(hears(alloc, client, b"\x70\0\0\0")));
    assert!(rt; begun(alloc, client, 0).starts_with(b"\x48\x02\0\x01"));
}

/// Whether the step ends what waits as code 0.00.
fn matches_reset(step: Result<Step, AllocError>) -> bool {
    match step {
        Ok(step) => {
            let is_reset = step.notes.result() == Some(&ClientResult::Unverified(Code(0)));
            drop(step);
            is_reset
        }
        Err(_) => false,
    }
}

#[test]
fn an_exchange_that_nobody_answers(rt: HostRuntime) -> Result<(), Fail> {
    let mut client = client(rt.alloc())?;
    waits_in_vain(&rt, rt.alloc(), &mut client);
    drop(client);
    Ok(())
}

/// Whether the client sends anything for the datagram.
fn is_answered(alloc: Global, client: &mut Client, datagram: &[u8]) -> bool {
    match hears(alloc, client, datagram) {
        Ok(step) => sends(step),
        Err(_) => true,
    }
}

fn sends(step: Step) -> bool {
    let sends = !sent(&step).is_empty();
    drop(step);
    sends
}

/// An answer that isn't confirmable is acknowledged by nothing, nor is a confirmable message of the same ID then, as its repeat.
fn repeats_nothing(rt: &impl Abort, alloc: Global, client: &mut Client) -> Result<(), Fail> {
    let post = begun(alloc, client, 1);
    let mut answer = answering(alloc, 0x80, &post, b"")?;
    *answer.first_mut().ok_or("no bytes")? = 0x58;
    assert!(rt; heard(alloc, client, &answer) == 4);
    *answer.first_mut().ok_or("no bytes")? = 0x48;
    assert!(rt; !is_answered(alloc, client, &answer));
    Ok(())
}

#[test]
fn a_repeat_with_nothing_to_repeat(rt: HostRuntime) -> Result<(), Fail> {
    let mut client = client(rt.alloc())?;
    let repeated = repeats_nothing(&rt, rt.alloc(), &mut client);
    drop(client);
    repeated
}
