//! Rounds through a forward proxy. What is assumed of a world before an exchange, or a request, is decided by what the world tells; then six
//! deliveries are the whole round, and what is promised has come about.

use crate::common::{SCOPE, accepted, begun, has_proxy, injects, is_enrolled, start};
use crate::quiet::is_quiet;
use crate::ready::{
    GOT, Next, POSTED, Row, at, has_a_fresh_number, is_idle, is_new, is_welcome, makes, next_id,
    place_of, serves,
};
use osc_fixtures::{NOWHERE, PROXY, SERVER, STRANGER, drawn, own, target, through};
use osc_model::Draw;
use osc_proxy::{Proxy, Targets};
use osc_tree::Tree;
use osc_world::{Start, World};
use std::alloc::{AllocError, Global};
use std::process::Abort;
use std::test::*;

/// How a proxy knows the server, and how its client names it.
#[derive(Clone, Copy)]
struct Names {
    known: &'static [u8],
    named: &'static [u8],
    port: u16,
}

// ---- what is assumed

/// The draw of the first delivery: events draw their numbers.
fn first_draw(world: &World) -> Draw {
    drawn((world.records().len().wrapping_add(1) % 256) as u8)
}

/// No message ID of the round was heard where it comes: the client's at the proxy, the proxy's first at the server, and its second at the
/// client.
fn has_new_ids(world: &World, next: Next) -> bool {
    let own = next_id(world, PROXY, first_draw(world));
    match place_of(world, next.client) {
        Some(at) => is_new(world, at, PROXY, next_id(world, at, next.draw))
            && is_new(world, PROXY, SERVER, own)
            && is_new(world, PROXY, at, own.wrapping_add(1)),
        None => false,
    }
}

/// The proxy has room for one exchange more, and no confirmable message of its own is open, to whomever.
fn is_free(proxy: &Proxy) -> bool {
    proxy.open_exchanges() < 64 && proxy.open_messages() == 0
}

fn proxy_of(world: &World) -> Option<&Proxy> {
    match world.proxy(0) {
        Some(placed) => Some(&placed.node),
        None => None,
    }
}

/// The world is ready for a round of the client through the proxy, whose target the server is by the name that the client writes.
fn is_ready(world: &World, next: Next) -> bool {
    is_idle(world, next.client, PROXY)
        && proxy_of(world).is_some_and(is_free)
        && has_new_ids(world, next)
}

// ---- the outcome

/// An exchange as it is promised.
fn makes_one(rt: &impl Abort, alloc: Global, world: &mut World, next: Next) {
    assert!(rt; is_ready(world, next));
    assert!(rt; is_welcome(world, next));
    makes(rt, alloc, world, next, 6);
}

/// A request as it is promised: one entry more, and its reply is the answer.
fn is_served_and_answered(rt: &impl Abort, alloc: Global, world: &mut World, next: Next, row: Row) {
    assert!(rt; is_ready(world, next));
    assert!(rt; has_a_fresh_number(world, next));
    serves(rt, alloc, world, next, row, 6);
}

// ---- worlds

/// The server, and one more target, by the host `n`, where nobody listens.
fn targets(alloc: Global, names: Names) -> Result<Targets, AllocError> {
    let mut targets = Targets::new(alloc);
    let server = target(alloc, names.known, names.port, SERVER)?;
    targets.push(server)?;
    let nobody = target(alloc, b"n", 5683, NOWHERE)?;
    targets.push(nobody)?;
    Ok(targets)
}

/// Whether the proxy and the client are there.
fn is_whole(alloc: Global, start: &mut Start, names: Names) -> bool {
    has_proxy(alloc, start, targets(alloc, names))
        && is_enrolled(
            alloc,
            start,
            own(0, SCOPE),
            through(alloc, names.named, names.port),
        )
}

/// A world without resources, with one client and one proxy.
fn world(alloc: Global, names: Names) -> Result<World, Fail> {
    let mut start = start(alloc, Tree::new(alloc), "s")?;
    let whole = is_whole(alloc, &mut start, names);
    begun(alloc, start, whole)
}

const BY_NAME: Names = Names {
    known: b"s",
    named: b"s",
    port: 5683,
};

/// An exchange and two requests.
fn exchanges_and_asks(rt: &impl Abort, alloc: Global, world: &mut World) {
    makes_one(rt, alloc, world, at(0, 0, 200));
    asks_twice(rt, alloc, world);
}

fn asks_twice(rt: &impl Abort, alloc: Global, world: &mut World) {
    is_served_and_answered(rt, alloc, world, at(0, 0, 201), POSTED);
    is_served_and_answered(rt, alloc, world, at(0, 0, 202), GOT);
    assert!(rt; accepted(alloc, world) == 2);
    assert!(rt; world.premise_holds());
}

#[test]
fn a_target_in_other_letters(rt: HostRuntime) -> Result<(), Fail> {
    let names = Names {
        known: b"Lock.Example",
        named: b"lOCK.eXAMPLE",
        port: 5683,
    };
    let mut world = world(rt.alloc(), names)?;
    exchanges_and_asks(&rt, rt.alloc(), &mut world);
    drop(world);
    Ok(())
}

/// The client writes a Uri-Port, since the port isn't that of the scheme.
#[test]
fn a_target_at_another_port(rt: HostRuntime) -> Result<(), Fail> {
    let names = Names {
        known: b"s",
        named: b"s",
        port: 61616,
    };
    let mut world = world(rt.alloc(), names)?;
    exchanges_and_asks(&rt, rt.alloc(), &mut world);
    drop(world);
    Ok(())
}

/// Whether a non-confirmable GET of a stranger came to the proxy, of this message ID, for the target of this host:
/// `50 01 ID, Uri-Host, Uri-Path e, Proxy-Scheme coap`.
fn comes(alloc: Global, world: &mut World, id: u8, host: u8) -> bool {
    let get = [
        0x50, 0x01, 0x00, id, 0x31, host, 0x81, b'e', 0xd4, 0x0f, b'c', b'o', b'a', b'p',
    ];
    injects(alloc, world, 190, STRANGER, PROXY, &get)
}

/// What waits is dropped.
fn drops(world: &mut World) -> bool {
    match world.next_waiting() {
        Some(number) => {
            world.drop_datagram(number);
            true
        }
        None => false,
    }
}

/// This number of exchanges is open at the proxy.
fn has_open(world: &World, count: usize) -> bool {
    match proxy_of(world) {
        Some(proxy) => proxy.open_exchanges() == count,
        None => false,
    }
}

/// With 63 exchanges of strangers open, whose target never answers, a round goes through; with 64 open nothing is promised.
fn crowds(rt: &impl Abort, alloc: Global, world: &mut World) {
    for id in 0..63u8 {
        assert!(rt; comes(alloc, world, id, b'n'));
        assert!(rt; drops(world));
    }
    assert!(rt; has_open(world, 63));
    exchanges_and_asks(rt, alloc, world);
    assert!(rt; has_open(world, 63));
    assert!(rt; comes(alloc, world, 63, b'n'));
    assert!(rt; drops(world));
    assert!(rt; !is_ready(world, at(0, 0, 203)));
}

#[test]
fn beside_63_open_exchanges(rt: HostRuntime) -> Result<(), Fail> {
    let mut world = world(rt.alloc(), BY_NAME)?;
    crowds(&rt, rt.alloc(), &mut world);
    drop(world);
    Ok(())
}

/// Between an exchange and requests a stranger's non-confirmable request goes to the server and its answer back.
fn strangers_between(rt: &impl Abort, alloc: Global, world: &mut World) {
    makes_one(rt, alloc, world, at(0, 0, 200));
    assert!(rt; comes(alloc, world, 1, b's'));
    assert!(rt; has_open(world, 1));
    assert!(rt; is_quiet(alloc, world, 0, 3) == Some(true));
    assert!(rt; has_open(world, 0));
    asks_twice(rt, alloc, world);
}

#[test]
fn strangers_between_rounds(rt: HostRuntime) -> Result<(), Fail> {
    let mut world = world(rt.alloc(), BY_NAME)?;
    strangers_between(&rt, rt.alloc(), &mut world);
    drop(world);
    Ok(())
}
