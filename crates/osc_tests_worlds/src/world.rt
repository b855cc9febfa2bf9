//! A client and a server in a world, and the history that explains what they did.

use crate::common::{
    asks, counts, delivers, event, exchanges, has, injects, lies, restarts, world,
};
use osc_ccm::Suite;
use osc_fixtures::{GET, POST, SERVER, STRANGER, request};
use osc_model::Code;
use osc_run::Actor;
use osc_world::{Event, What, World};
use std::alloc::{AllocError, Global};
use std::process::Abort;
use std::test::*;

/// The client asks for `/log`.
fn asked(alloc: Global, code: u8, payload: &[u8]) -> Result<What, AllocError> {
    Ok(What::Ask {
        client: 0,
        request: request(alloc, b"/log", code, payload)?,
    })
}

/// An exchange, a POST and a GET, each with its two deliveries.
fn events(alloc: Global) -> Result<Vec<Event>, AllocError> {
    let mut events = Vec::new(alloc);
    events.push(event(1, What::Exchange { client: 0 }))?;
    events.push(event(2, What::Deliver { datagram: 0 }))?;
    events.push(event(3, What::Deliver { datagram: 1 }))?;
    events.push(event(4, asked(alloc, POST, b"a")?))?;
    events.push(event(5, What::Deliver { datagram: 2 }))?;
    events.push(event(6, What::Deliver { datagram: 3 }))?;
    events.push(event(7, asked(alloc, GET, b"")?))?;
    events.push(event(8, What::Deliver { datagram: 4 }))?;
    events.push(event(9, What::Deliver { datagram: 5 }))?;
    Ok(events)
}

/// What the requests of the history were answered: 2.01, and 2.05 with what was posted.
fn are_answered(alloc: Global, world: &World) -> bool {
    let Ok(history) = world.history(alloc) else {
        return false;
    };
    match history.as_slice() {
        [post, get] => {
            post.reply.code == Code::CREATED
                && get.reply.code == Code::CONTENT
                && get.reply.payload.as_slice() == b"a".as_slice()
        }
        _ => false,
    }
}

fn runs(rt: &impl Abort, alloc: Global, world: &mut World, events: &[Event]) {
    assert!(rt; world.run::<Suite>(alloc, events).is_ok());
    assert!(rt; world.sent().len() == 6);
    assert!(rt; world.records().len() == 9);
    assert!(rt; counts(alloc, world) == (2, 2, 2));
    assert!(rt; are_answered(alloc, world));
    assert!(rt; has(alloc, world, b"a"));
    assert!(rt; world.tree().len() == 1);
    assert!(rt; world.first_tree().len() == 0);
    assert!(rt; world.premise_holds());
    assert!(rt; world.next_waiting() == None);
}

#[test]
fn an_exchange_and_two_requests(rt: HostRuntime) -> Result<(), Fail> {
    let mut world = world(rt.alloc())?;
    let events = events(rt.alloc()).expect(&rt, "memory");
    runs(&rt, rt.alloc(), &mut world, &events);
    drop(events);
    drop(world);
    Ok(())
}

/// The first four datagrams: a context, and a request that isn't delivered yet.
fn begins(rt: &impl Abort, alloc: Global, world: &mut World) {
    assert!(rt; exchanges(alloc, world, 1, 0));
    assert!(rt; delivers(alloc, world, 2, 0));
    assert!(rt; delivers(alloc, world, 3, 1));
    assert!(rt; asks(alloc, world, 4, POST, b"a"));
    assert!(rt; world.sent().len() == 3);
}

fn repeats(rt: &impl Abort, alloc: Global, world: &mut World) {
    begins(rt, alloc, world);
    assert!(rt; delivers(alloc, world, 5, 2));
    assert!(rt; delivers(alloc, world, 6, 2));
    assert!(rt; counts(alloc, world) == (1, 1, 0));
    assert!(rt; delivers(alloc, world, 7, 3));
    assert!(rt; delivers(alloc, world, 8, 3));
    assert!(rt; delivers(alloc, world, 9, 100));
    assert!(rt; injects(alloc, world, 10, STRANGER, SERVER, b"\x40\x01\0\x01\xb3log"));
    assert!(rt; world.records().len() == 10);
    assert!(rt; counts(alloc, world) == (1, 1, 1));
    assert!(rt; has(alloc, world, b"a"));
    assert!(rt; world.premise_holds());
}

#[test]
fn datagrams_that_come_again(rt: HostRuntime) -> Result<(), Fail> {
    let mut world = world(rt.alloc())?;
    repeats(&rt, rt.alloc(), &mut world);
    drop(world);
    Ok(())
}

/// A request that was sealed before the server started again finds no context; a lie at a number that the client took is served where
/// it comes first, and the client's own request is then a replay.
fn lies_first(rt: &impl Abort, alloc: Global, world: &mut World) {
    begins(rt, alloc, world);
    assert!(rt; lies(alloc, world, 5, 0, 0, b"\x02\xb3log\xffb"));
    assert!(rt; delivers(alloc, world, 6, 3));
    assert!(rt; delivers(alloc, world, 7, 2));
    assert!(rt; counts(alloc, world) == (1, 2, 0));
    assert!(rt; has(alloc, world, b"b"));
    assert!(rt; restarts(alloc, world, 8, Actor::Server));
    world.skip(0, 7);
    assert!(rt; delivers(alloc, world, 9, 5));
    assert!(rt; asks(alloc, world, 10, POST, b"c"));
    assert!(rt; delivers(alloc, world, 11, 6));
    assert!(rt; counts(alloc, world) == (1, 3, 0));
    assert!(rt; has(alloc, world, b"b"));
    assert!(rt; world.premise_holds());
}

#[test]
fn a_lie_and_a_restart(rt: HostRuntime) -> Result<(), Fail> {
    let mut world = world(rt.alloc())?;
    lies_first(&rt, rt.alloc(), &mut world);
    drop(world);
    Ok(())
}

fn draws_twice(rt: &impl Abort, alloc: Global, world: &mut World) {
    assert!(rt; exchanges(alloc, world, 1, 0));
    assert!(rt; world.premise_holds());
    assert!(rt; delivers(alloc, world, 1, 0));
    assert!(rt; world.sent().len() == 2);
    assert!(rt; !world.premise_holds());
    assert!(rt; counts(alloc, world) == (0, 0, 0));
}

#[test]
fn a_draw_that_comes_twice(rt: HostRuntime) -> Result<(), Fail> {
    let mut world = world(rt.alloc())?;
    draws_twice(&rt, rt.alloc(), &mut world);
    drop(world);
    Ok(())
}
