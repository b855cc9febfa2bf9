//! A client that reaches its server through a proxy, in a world.

use crate::common::{
    SCOPE, asks, begun, counts, exchanges, has_proxy, injects, is_enrolled, restarts, start, ticks,
};
use crate::quiet::is_quiet;
use osc_fixtures::{CLIENT, POST, PROXY, own, targets, through};
use osc_run::Actor;
use osc_tree::Tree;
use osc_world::{Start, World};
use std::alloc::Global;
use std::process::Abort;
use std::test::*;

/// Whether the proxy and the client are there, to which the server is `s`.
fn is_whole(alloc: Global, start: &mut Start) -> bool {
    has_proxy(alloc, start, targets(alloc))
        && is_enrolled(alloc, start, own(0, SCOPE), through(alloc, b"s", 5683))
}

/// A world without resources, with one client and one proxy.
fn world(alloc: Global) -> Result<World, Fail> {
    let mut start = start(alloc, Tree::new(alloc), "s")?;
    let whole = is_whole(alloc, &mut start);
    begun(alloc, start, whole)
}

/// Whether all is quiet after six deliveries and not before.
fn settles(alloc: Global, world: &mut World) -> bool {
    is_quiet(alloc, world, 0, 5) == Some(false) && is_quiet(alloc, world, 0, 1) == Some(true)
}

/// An exchange and a request: each goes over the proxy in four messages, and each of the proxy's two halves is acknowledged.
fn goes_through(rt: &impl Abort, alloc: Global, world: &mut World) {
    assert!(rt; exchanges(alloc, world, 201, 0));
    assert!(rt; settles(alloc, world));
    assert!(rt; asks(alloc, world, 202, POST, b"a"));
    assert!(rt; settles(alloc, world));
    assert!(rt; counts(alloc, world) == (1, 1, 1));
    assert!(rt; world.premise_holds());
}

#[test]
fn an_exchange_and_a_request_through_a_proxy(rt: HostRuntime) -> Result<(), Fail> {
    let mut world = world(rt.alloc())?;
    goes_through(&rt, rt.alloc(), &mut world);
    drop(world);
    Ok(())
}

/// What is injected comes to a proxy too, which ticks and starts again; a proxy that isn't there does nothing.
fn happens_to_it(rt: &impl Abort, alloc: Global, world: &mut World) {
    assert!(rt; injects(alloc, world, 1, CLIENT, PROXY, b"\x40\x01\0\x01"));
    assert!(rt; world.sent().len() == 1);
    assert!(rt; ticks(alloc, world, 2, Actor::Proxy(0)));
    assert!(rt; restarts(alloc, world, 3, Actor::Proxy(0)));
    assert!(rt; world.steps().len() == 3);
    assert!(rt; ticks(alloc, world, 4, Actor::Proxy(1)));
    assert!(rt; world.steps().len() == 3);
    assert!(rt; world.records().len() == 4);
}

#[test]
fn what_happens_to_a_proxy(rt: HostRuntime) -> Result<(), Fail> {
    let mut world = world(rt.alloc())?;
    happens_to_it(&rt, rt.alloc(), &mut world);
    drop(world);
    Ok(())
}
