//! A server on which a resource below a path revokes a token: room for revocations, and who is served.
ghost use Rattle.std.specs.Prelude.{◌<◌};

use osc_ccm::Suite;
use osc_client::Client;
use osc_fixtures::{
    CLIENT, DELETE, PUT, SERVER, STRANGER, drawn, own, put, request, revoking_server, sent_in,
    straight,
};
use osc_model::{ClientResult, Code, Moment, Peer, Request, Step};
use osc_server::Server;
use osc_tree::{MOST_ELSEWHERE, MOST_RESOURCES, Tree};
use std::alloc::{AllocError, Global};
use std::process::Abort;
use std::test::*;

/// The path below which a resource revokes a token.
const ROOT: &[u8] = b"/revoked";

/// The scope of GET, POST and PUT on `/log`.
const HOLDERS: &[u8] = b"\x81\x82\x64/log\x07";

/// The scope of PUT on `/log`, and of PUT and DELETE on `/revoked` and below.
const OWNERS: &[u8] = b"\x82\x82\x64/log\x04\x82\x68/revoked\x18\x1c";

/// The bytes of the one datagram that the server sends to the client's.
fn served(alloc: Global, server: &mut Server, from: Peer, datagram: &[u8]) -> Vec<u8> {
    let step = server.on_datagram::<Suite>(alloc, Moment::START, from, datagram, &drawn(9));
    sent_in(alloc, step)
}

/// How a step at a client went on, in one byte: 1 for a context, the code of an answer that opened, 2 to 5 for the class of another,
/// and 0 for anything else.
fn told(step: Result<Step, AllocError>) -> u8 {
    match step {
        Ok(step) => {
            let told = match step.notes.result() {
                Some(ClientResult::Made) => 1,
                Some(ClientResult::Answer(reply)) => reply.code.0,
                Some(ClientResult::Unverified(code)) => code.0 / 32,
                _ => 0,
            };
            drop(step);
            told
        }
        Err(_) => 0,
    }
}

/// A client of this number with this scope, which has got a context.
fn holder(
    alloc: Global,
    server: &mut Server,
    number: u8,
    scope: &'static [u8],
) -> Result<Client, AllocError> {
    let mut client = osc_fixtures::client(alloc, own(number, scope), straight())?;
    posts(alloc, &mut client, server, number);
    Ok(client)
}

/// How the client's post of its token goes on.
fn posts(alloc: Global, client: &mut Client, server: &mut Server, number: u8) -> u8 {
    let post = sent_in(alloc, client.exchange(alloc, Moment::START, &drawn(number)));
    let answer = served(alloc, server, CLIENT, &post);
    told(client.on_datagram::<Suite>(alloc, Moment::START, SERVER, &answer))
}

/// How the client's request goes on.
fn asks(alloc: Global, client: &mut Client, server: &mut Server, asked: &Request, byte: u8) -> u8
    requires { 0 < asked.now.code.0 }
{
    let step = client.ask::<Suite>(alloc, Moment::START, asked, &drawn(byte));
    let datagram = sent_in(alloc, step);
    let answer = served(alloc, server, CLIENT, &datagram);
    told(client.on_datagram::<Suite>(alloc, Moment::START, SERVER, &answer))
}

/// Puts this number of resources below the path, each named by a number of four digits.
fn fill(alloc: Global, tree: &mut Tree, above: &[u8], many: usize) -> Result<(), AllocError> {
    for number in 0..many {
        let mut path = Vec::from_slice(alloc, above)?;
        path.push(b'/')?;
        for place in [1000, 100, 10, 1] {
            path.push(b'0' + (number / place % 10) as u8)?;
        }
        put(alloc, tree, &path, b"a")?;
    }
    Ok(())
}

/// From 960 resources on no resource is made elsewhere, and revocations are made until there are 1,024.
fn leaves_room(rt: &impl Abort, alloc: Global, server: &mut Server) -> Result<(), Fail> {
    let mut owner = holder(alloc, server, 1, OWNERS)?;
    let put = request(alloc, b"/log", PUT, b"a")?;
    assert!(rt; asks(alloc, &mut owner, server, &put, 2) == Code::SERVICE_UNAVAILABLE.0);
    let revoke = request(alloc, b"/revoked/02", PUT, b"")?;
    assert!(rt; asks(alloc, &mut owner, server, &revoke, 3) == Code::CREATED.0);
    assert!(rt; server.tree().len() == MOST_RESOURCES);
    let revoke = request(alloc, b"/revoked/03", PUT, b"")?;
    assert!(rt; asks(alloc, &mut owner, server, &revoke, 4) == Code::SERVICE_UNAVAILABLE.0);
    let allow = request(alloc, b"/revoked/02", DELETE, b"")?;
    assert!(rt; asks(alloc, &mut owner, server, &allow, 5) == Code::DELETED.0);
    assert!(rt; asks(alloc, &mut owner, server, &revoke, 6) == Code::CREATED.0);
    Ok(())
}

#[test]
fn room_for_revocations(rt: HostRuntime) -> Result<(), Fail> {
    let alloc = rt.alloc();
    let mut tree = Tree::new(alloc);
    fill(alloc, &mut tree, b"/log", MOST_ELSEWHERE)?;
    fill(alloc, &mut tree, ROOT, MOST_RESOURCES - MOST_ELSEWHERE - 1)?;
    let mut server = revoking_server(alloc, tree, ROOT)?;
    leaves_room(&rt, alloc, &mut server)
}

/// A holder is served until its token is revoked, and again once it isn't.
fn revokes_and_allows(rt: &impl Abort, alloc: Global, server: &mut Server) -> Result<(), Fail> {
    let mut owner = holder(alloc, server, 1, OWNERS)?;
    let mut client = holder(alloc, server, 2, HOLDERS)?;
    let put = request(alloc, b"/log", PUT, b"a")?;
    let revoke = request(alloc, b"/revoked/02", PUT, b"")?;
    let allow = request(alloc, b"/revoked/02", DELETE, b"")?;
    let other = request(alloc, b"/revoked/03", PUT, b"")?;
    assert!(rt; asks(alloc, &mut client, server, &put, 3) == Code::CREATED.0);
    assert!(rt; asks(alloc, &mut client, server, &revoke, 4) == Code::FORBIDDEN.0);
    assert!(rt; asks(alloc, &mut owner, server, &other, 5) == Code::CREATED.0);
    assert!(rt; asks(alloc, &mut client, server, &put, 6) == Code::CHANGED.0);
    assert!(rt; asks(alloc, &mut owner, server, &revoke, 7) == Code::CREATED.0);
    assert!(rt; asks(alloc, &mut client, server, &put, 8) == 4);
    assert!(rt; asks(alloc, &mut owner, server, &put, 9) == Code::CHANGED.0);
    assert!(rt; asks(alloc, &mut owner, server, &allow, 10) == Code::DELETED.0);
    assert!(rt; asks(alloc, &mut client, server, &put, 11) == Code::CHANGED.0);
    Ok(())
}

#[test]
fn revoked_and_allowed(rt: HostRuntime) -> Result<(), Fail> {
    let mut server = revoking_server(rt.alloc(), Tree::new(rt.alloc()), ROOT)?;
    revokes_and_allows(&rt, rt.alloc(), &mut server)
}

/// What strangers send, whatever it is, hinders no revocation.
fn revokes_in_a_flood(rt: &impl Abort, alloc: Global, server: &mut Server) -> Result<(), Fail> {
    let mut owner = holder(alloc, server, 1, OWNERS)?;
    let step = owner.ask::<Suite>(
        alloc,
        Moment::START,
        &request(alloc, b"/revoked/02", PUT, b"")?,
        &drawn(3),
    );
    let genuine = sent_in(alloc, step);
    for byte in 1..=255u8 {
        let mut forged = Vec::from_slice(alloc, &genuine)?;
        if let Some(id) = forged.get_mut(3) {
            *id = byte;
        }
        if let Some(last) = forged.last_mut() {
            *last ^= byte;
        }
        served(alloc, server, STRANGER, &forged);
        let step = server.on_tick(alloc, Moment::START);
        drop(step);
    }
    server.give_back();
    server.take_in_hand(alloc);
    let answer = served(alloc, server, CLIENT, &genuine);
    let code = told(owner.on_datagram::<Suite>(alloc, Moment::START, SERVER, &answer));
    assert!(rt; code == Code::CREATED.0);
    Ok(())
}

#[test]
fn revoked_in_a_flood(rt: HostRuntime) -> Result<(), Fail> {
    let mut server = revoking_server(rt.alloc(), Tree::new(rt.alloc()), ROOT)?;
    revokes_in_a_flood(&rt, rt.alloc(), &mut server)
}
