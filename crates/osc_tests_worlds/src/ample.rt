//! Each kind of event at each node, where there is memory: no event is answered by lack of memory. The owners' grants have salts and id
//! contexts, from none to the longest, and each of them reaches the server once straight and once through a proxy.

use crate::common::{
    Asked, SCOPE, asks_for, begun, counts, delivers, exchanges, has_proxy, injects, is_enrolled,
    lies, restarts, start, ticks,
};
use crate::quiet::settles;
use osc_client::Route;
use osc_fixtures::{
    GET, NOWHERE, PROXY, PUT, Right, SERVER, own, place, straight, targets, through,
};
use osc_model::{Algorithm, Peer};
use osc_run::Actor;
use osc_tree::Tree;
use osc_world::{Start, World};
use std::alloc::{AllocError, Global};
use std::process::Abort;
use std::test::*;

/// What comes from nowhere: nothing, no message, a confirmable message that is empty, requests and a response without protection, posts to
/// authz-info, requests with the OSCORE option, an acknowledgement and a Reset.
const DATAGRAMS: [&[u8]; 14] = [
    b"",
    b"\x40",
    b"\x80\x01\0\x01",
    b"\x40\0\0\x02",
    b"\x40\x01\0\x03\xb3log",
    b"\x50\x01\0\x04\xb3log",
    b"\x41\x02\0\x05a\xbaauthz-info",
    b"\x41\x02\0\x06a\xbaauthz-info\xff\xa0",
    b"\x40\x02\0\x07\x90\xffaaaaaaaaaaaa",
    b"\x40\x02\0\x08\x93\x09\0\x63\xffaaaaaaaaaaaa",
    b"\x40\x01\0\x09\x31s\xd4\x17coap",
    b"\x40\x45\0\x0a\xffa",
    b"\x60\0\0\x01",
    b"\x70\0\0\x01",
];

/// The rights of the client of this number: each length of salt and id context twice, and each algorithm with each way.
fn right(client: u8) -> Right {
    let own = own(client, SCOPE);
    match client / 2 {
        0 => own,
        1 => Right {
            alg: Algorithm::SixteenByteTag,
            salt: b"salt",
            id_context: Some(b""),
            ..own
        },
        2 => Right {
            salt: &[7; 64],
            id_context: Some(b"site"),
            ..own
        },
        _ => Right {
            alg: Algorithm::SixteenByteTag,
            id_context: Some(&[8; 64]),
            ..own
        },
    }
}

/// Straight to the server, or through the proxy, to which the server is `s`.
fn way(alloc: Global, client: u8) -> Result<Route, AllocError> {
    if client % 2 == 0 {
        Ok(straight())
    } else {
        through(alloc, b"s", 5683)
    }
}

/// Whether the proxy and eight clients are there.
fn is_whole(alloc: Global, start: &mut Start) -> bool {
    let mut whole = has_proxy(alloc, start, targets(alloc));
    for client in 0..8 {
        whole = whole && is_enrolled(alloc, start, right(client), way(alloc, client));
    }
    whole
}

fn world(alloc: Global) -> Result<World, Fail> {
    let mut start = start(alloc, Tree::new(alloc), "s")?;
    let whole = is_whole(alloc, &mut start);
    begun(alloc, start, whole)
}

/// A number of its own for each of ten events of each of the clients.
fn number(client: u8, event: u8) -> u8 {
    client
        .wrapping_mul(10)
        .wrapping_add(100)
        .wrapping_add(event)
}

fn asks(alloc: Global, world: &mut World, client: u8, event: u8, code: u8) -> bool {
    let asked: Asked = (client as usize, b"/log", code, b"a");
    asks_for(alloc, world, number(client, event), asked)
}

/// The client exchanges and asks, each twice, so that the second is refused, and all of it is answered.
fn is_served(rt: &impl Abort, alloc: Global, world: &mut World, client: u8) {
    let owner = client as usize;
    assert!(rt; asks(alloc, world, client, 0, GET));
    assert!(rt; exchanges(alloc, world, number(client, 1), owner));
    assert!(rt; exchanges(alloc, world, number(client, 2), owner));
    assert!(rt; settles(alloc, world));
    assert!(rt; asks(alloc, world, client, 3, PUT));
    assert!(rt; asks(alloc, world, client, 4, GET));
    assert!(rt; ticks(alloc, world, number(client, 5), Actor::Client(owner)));
    assert!(rt; settles(alloc, world));
}

#[test]
fn all_owners_are_served(rt: HostRuntime) -> Result<(), Fail> {
    let alloc = rt.alloc();
    let mut world = world(alloc)?;
    for client in 0..8 {
        is_served(&rt, alloc, &mut world, client);
    }
    let counted = counts(alloc, &world);
    let held = world.premise_holds();
    drop(world);
    assert!(rt; counted == (8, 8, 8));
    assert!(rt; held);
    Ok(())
}

/// Whether each of the datagrams comes there, twice.
fn all_come(alloc: Global, world: &mut World, number: u8, to: Peer) -> bool {
    let mut whole = true;
    for &bytes in &DATAGRAMS {
        whole = whole && injects(alloc, world, number, NOWHERE, to, bytes);
        whole = whole && injects(alloc, world, number, NOWHERE, to, bytes);
    }
    whole
}

#[test]
fn whatever_comes_to_a_node(rt: HostRuntime) -> Result<(), Fail> {
    let alloc = rt.alloc();
    let mut world = world(alloc)?;
    let server = all_come(alloc, &mut world, 1, SERVER);
    let client = all_come(alloc, &mut world, 2, place(0));
    let proxy = all_come(alloc, &mut world, 3, PROXY);
    let nobody = all_come(alloc, &mut world, 4, NOWHERE);
    let records = world.records().len();
    drop(world);
    assert!(rt; server && client && proxy && nobody);
    assert!(rt; records == 8 * DATAGRAMS.len());
    Ok(())
}

/// Whatever was sent comes again, and what was never sent doesn't.
fn all_come_again(alloc: Global, world: &mut World, number: u8) -> bool {
    let mut whole = true;
    for datagram in 0..world.sent().len() + 1 {
        whole = whole && delivers(alloc, world, number, datagram);
    }
    whole
}

/// A GET on `/log`.
const LIE: &[u8] = b"\x01\xb3log";

/// A lie, ticks, restarts and repeats at each node while a client's request is open.
fn goes_on(rt: &impl Abort, alloc: Global, world: &mut World, owner: u8) {
    is_served(rt, alloc, world, owner);
    let client = owner as usize;
    assert!(rt; lies(alloc, world, 1, client, 0, LIE));
    assert!(rt; lies(alloc, world, 2, client, 7, LIE));
    assert!(rt; lies(alloc, world, 3, client, 1 << 40, LIE));
    assert!(rt; asks_for(alloc, world, 4, (client, b"/log", GET, b"")));
    assert!(rt; all_come_again(alloc, world, 5));
    assert!(rt; ticks(alloc, world, 6, Actor::Server));
    assert!(rt; ticks(alloc, world, 7, Actor::Proxy(0)));
    assert!(rt; ticks(alloc, world, 8, Actor::Client(client)));
    assert!(rt; ticks(alloc, world, 9, Actor::Client(99)));
    assert!(rt; restarts(alloc, world, 10, Actor::Server));
    assert!(rt; all_come_again(alloc, world, 11));
    assert!(rt; restarts(alloc, world, 12, Actor::Proxy(0)));
    assert!(rt; restarts(alloc, world, 13, Actor::Client(client)));
    assert!(rt; restarts(alloc, world, 14, Actor::Proxy(99)));
    assert!(rt; all_come_again(alloc, world, 15));
}

#[test]
fn whatever_happens_to_a_node(rt: HostRuntime) -> Result<(), Fail> {
    let alloc = rt.alloc();
    let mut straight = world(alloc)?;
    goes_on(&rt, alloc, &mut straight, 4);
    drop(straight);
    let mut through = world(alloc)?;
    goes_on(&rt, alloc, &mut through, 5);
    drop(through);
    Ok(())
}
