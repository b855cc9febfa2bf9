//! A request over a network that loses: what is assumed of the world before it is decided by what the world tells; then copies and replies are
//! lost, come late and come twice, and what is promised has come about.

use crate::common::{SCOPE, accepted, history, world_of};
use crate::ready::{
    GOT, POSTED, at as next_at, has_a_fresh_number, is_answered, is_served, learnt, makes_one,
    may_ask, serves,
};
use osc_ccm::Suite;
use osc_fixtures::{GET, POST, SERVER, at, drawn, own, place, request};
use osc_model::{Bytes, ClientResult};
use osc_run::Actor;
use osc_tree::Tree;
use osc_world::{Event, What, World};
use std::alloc::{AllocError, Global};
use std::process::Abort;
use std::test::*;

fn event(ms: u64, what: What) -> Event {
    Event {
        moment: at(ms),
        draw: drawn(201),
        what,
    }
}

fn ticks(ms: u64, node: Actor) -> Event {
    event(ms, What::Tick { node })
}

fn delivers(ms: u64, datagram: usize) -> Event {
    event(ms, What::Deliver { datagram })
}

/// The first client asks. An initial timeout is 3,000 ms at most, so it sends a copy at each of these ticks.
fn asks_four_times(alloc: Global) -> Result<Vec<Event>, AllocError> {
    let request = request(alloc, b"/log", POST, b"a")?;
    let mut events = Vec::new(alloc);
    events.push(event(0, What::Ask { client: 0, request }))?;
    for ms in [3_000, 9_000, 21_000] {
        events.push(ticks(ms, Actor::Client(0)))?;
    }
    Ok(events)
}

/// Datagrams 2 to 5 are the copies. The first three don't come; the reply to the fourth is datagram 6.
fn three_copies_lost(alloc: Global) -> Result<Vec<Event>, AllocError> {
    let mut events = asks_four_times(alloc)?;
    events.push(delivers(21_100, 5))?;
    events.push(delivers(21_200, 6))?;
    Ok(events)
}

/// Then the first copy comes late, and its reply, datagram 7, later; and so does the first reply, once more.
fn late_ones(alloc: Global) -> Result<Vec<Event>, AllocError> {
    let mut events = Vec::new(alloc);
    events.push(delivers(21_300, 2))?;
    events.push(ticks(21_400, Actor::Server))?;
    events.push(delivers(246_998, 7))?;
    events.push(delivers(246_999, 6))?;
    events.push(ticks(300_000, Actor::Client(0)))?;
    Ok(events)
}

/// Whether there was memory for the events.
fn runs(alloc: Global, world: &mut World, events: Result<Vec<Event>, AllocError>) -> bool {
    match events {
        Ok(events) => world.run::<Suite>(alloc, events.as_slice()).is_ok(),
        Err(_) => false,
    }
}

/// Whether all of these datagrams have the same bytes.
fn are_same(world: &World, numbers: &[usize]) -> bool {
    let all = world.sent();
    let Some(first) = numbers.first() else {
        return true;
    };
    let Some(first) = all.get(*first) else {
        return false;
    };
    numbers.iter().all(|number| all
        .get(*number)
        .is_some_and(|sent| sent.bytes == first.bytes))
}

/// The world is ready for the request, and what happens leaves it served once, and answered.
fn is_served_once(
    rt: &impl Abort,
    alloc: Global,
    world: &mut World,
    events: Result<Vec<Event>, AllocError>,
) {
    makes_one(rt, alloc, world, next_at(0, 0, 200));
    assert!(rt; may_ask(world, next_at(0, 0, 201)));
    assert!(rt; runs(alloc, world, events));
    assert!(rt; are_same(world, &[2, 3, 4, 5]));
    assert!(rt; history(alloc, world) == 1);
    assert!(rt; is_served(alloc, world, Some(0), POSTED));
    assert!(rt; is_answered(world, POSTED));
    assert!(rt; accepted(alloc, world) == 1);
    assert!(rt;
        world
            .client(0)
            .is_some_and(|placed| !placed.node.is_waiting())
    );
    assert!(rt; world.premise_holds());
}

fn one_client(alloc: Global) -> Result<World, Fail> {
    world_of(alloc, Tree::new(alloc), &[own(0, SCOPE)])
}

#[test]
fn the_fourth_copy_is_served(rt: HostRuntime) -> Result<(), Fail> {
    let mut world = one_client(rt.alloc())?;
    is_served_once(&rt, rt.alloc(), &mut world, three_copies_lost(rt.alloc()));
    assert!(rt; world.sent().len() == 7);
    drop(world);
    Ok(())
}

#[test]
fn what_comes_late_changes_nothing(rt: HostRuntime) -> Result<(), Fail> {
    let mut world = one_client(rt.alloc())?;
    is_served_once(&rt, rt.alloc(), &mut world, three_copies_lost(rt.alloc()));
    assert!(rt; runs(rt.alloc(), &mut world, late_ones(rt.alloc())));
    assert!(rt; world.sent().len() == 8);
    assert!(rt; are_same(&world, &[6, 7]));
    assert!(rt; learnt(&world).is_none());
    assert!(rt; history(rt.alloc(), &world) == 1);
    assert!(rt; accepted(rt.alloc(), &world) == 1);
    drop(world);
    Ok(())
}

/// No copy comes, and the client gives up at its end, not before; nothing is served.
fn none_comes(alloc: Global) -> Result<Vec<Event>, AllocError> {
    let mut events = asks_four_times(alloc)?;
    events.push(ticks(45_000, Actor::Client(0)))?;
    events.push(ticks(61_999, Actor::Client(0)))?;
    Ok(events)
}

fn gives_up(rt: &impl Abort, alloc: Global, world: &mut World) {
    makes_one(rt, alloc, world, next_at(0, 0, 200));
    assert!(rt; may_ask(world, next_at(0, 0, 201)));
    assert!(rt; runs(alloc, world, none_comes(alloc)));
    assert!(rt; are_same(world, &[2, 3, 4, 5, 6]));
    assert!(rt;
        world
            .client(0)
            .is_some_and(|placed| placed.node.is_waiting())
    );
    let mut last = Vec::new(alloc);
    assert!(rt; last.push(ticks(93_000, Actor::Client(0))).is_ok());
    assert!(rt; runs(alloc, world, Ok(last)));
    assert!(rt;
        world
            .client(0)
            .is_some_and(|placed| !placed.node.is_waiting())
    );
    assert!(rt; learnt(world) == Some(&ClientResult::TimedOut));
    assert!(rt; history(alloc, world) == 0);
}

#[test]
fn a_client_gives_up_at_its_end(rt: HostRuntime) -> Result<(), Fail> {
    let mut world = one_client(rt.alloc())?;
    gives_up(&rt, rt.alloc(), &mut world);
    drop(world);
    Ok(())
}

// ---- among what else comes

/// What happens in a list, each with its moment, its draw and what it is.
#[derive(Clone, Copy)]
enum Deed {
    Ask(usize),
    Exchange(usize),
    Tick(usize),
    Deliver(usize),
    /// Someone who has no context sends a GET of `/log` with this message ID to the server.
    Stranger(u8),
}

fn what(alloc: Global, deed: Deed) -> Result<What, AllocError> {
    Ok(match deed {
        Deed::Ask(client) => What::Ask {
            client,
            request: request(alloc, b"/log", GET, b"")?,
        },
        Deed::Exchange(client) => What::Exchange { client },
        Deed::Tick(client) => What::Tick {
            node: Actor::Client(client),
        },
        Deed::Deliver(datagram) => What::Deliver { datagram },
        Deed::Stranger(id) => What::Inject {
            from: place(9),
            to: SERVER,
            bytes: Bytes::from_slice(alloc, &[0x40, 1, 7, id, 0xb3, b'l', b'o', b'g'])?,
        },
    })
}

fn all_of(alloc: Global, deeds: &[(u64, u8, Deed)]) -> Result<Vec<Event>, AllocError> {
    let mut events = Vec::new(alloc);
    for one in deeds {
        let (ms, draw, deed) = *one;
        let what = what(alloc, deed)?;
        events.push(Event {
            moment: at(ms),
            draw: drawn(draw),
            what,
        })?;
    }
    Ok(events)
}

/// The first client made a context and posted (datagrams 0, 1, 4 and 5), the second made one (2 and 3). Now the first asks (6). Before a copy
/// comes, so do its post again (answered by 7), a request of the second (8, answered by 9) and a stranger's (10); between the copy that
/// comes (11, answered by 12) and the next one (16, answered by 17), the reply to the post (7), another stranger's (13) and another request
/// of the second (14, answered by 15).
const A_SESSION: &[(u64, u8, Deed)] = &[
    (0, 201, Deed::Ask(0)),
    (100, 205, Deed::Deliver(4)),
    (200, 206, Deed::Ask(1)),
    (300, 207, Deed::Deliver(8)),
    (400, 208, Deed::Deliver(9)),
    (500, 209, Deed::Stranger(1)),
    (3_000, 210, Deed::Tick(0)),
    (3_100, 211, Deed::Deliver(11)),
    (3_200, 212, Deed::Deliver(7)),
    (3_300, 213, Deed::Stranger(2)),
    (3_400, 214, Deed::Ask(1)),
    (3_500, 215, Deed::Deliver(14)),
    (9_000, 216, Deed::Tick(0)),
    (9_100, 217, Deed::Deliver(16)),
    (9_200, 218, Deed::Deliver(17)),
];

fn is_served_in_a_session(rt: &impl Abort, alloc: Global, world: &mut World) {
    makes_one(rt, alloc, world, next_at(0, 0, 200));
    makes_one(rt, alloc, world, next_at(1, 0, 202));
    serves(rt, alloc, world, next_at(0, 0, 203), POSTED, 2);
    assert!(rt; may_ask(world, next_at(0, 0, 201)));
    assert!(rt; runs(alloc, world, all_of(alloc, A_SESSION)));
    assert!(rt; world.sent().len() == 18);
    assert!(rt; are_same(world, &[5, 7]));
    assert!(rt; are_same(world, &[6, 11, 16]));
    assert!(rt; are_same(world, &[12, 17]));
    assert!(rt; is_answered(world, GOT));
    assert!(rt; history(alloc, world) == 4);
    assert!(rt; accepted(alloc, world) == 3);
    assert!(rt;
        world
            .client(0)
            .is_some_and(|placed| !placed.node.is_waiting())
    );
    assert!(rt; world.premise_holds());
}

fn two_clients(alloc: Global) -> Result<World, Fail> {
    world_of(alloc, Tree::new(alloc), &[own(0, SCOPE), own(1, SCOPE)])
}

#[test]
fn a_request_is_served_among_others(rt: HostRuntime) -> Result<(), Fail> {
    let mut world = two_clients(rt.alloc())?;
    is_served_in_a_session(&rt, rt.alloc(), &mut world);
    drop(world);
    Ok(())
}

/// The first client posts (datagram 0). Before a copy comes, so do the second client's post (1, answered by 2) and a stranger's request (3);
/// between the copy that comes (4, answered by 5) and the next one (7, answered by 8), another stranger's (6).
const AN_EXCHANGE: &[(u64, u8, Deed)] = &[
    (0, 200, Deed::Exchange(0)),
    (100, 201, Deed::Exchange(1)),
    (200, 202, Deed::Deliver(1)),
    (300, 203, Deed::Deliver(2)),
    (400, 204, Deed::Stranger(1)),
    (3_000, 205, Deed::Tick(0)),
    (3_100, 206, Deed::Deliver(4)),
    (3_200, 207, Deed::Stranger(2)),
    (9_000, 208, Deed::Tick(0)),
    (9_100, 209, Deed::Deliver(7)),
    (9_200, 210, Deed::Deliver(8)),
];

fn is_made_among_others(rt: &impl Abort, alloc: Global, world: &mut World) {
    assert!(rt; runs(alloc, world, all_of(alloc, AN_EXCHANGE)));
    assert!(rt; world.sent().len() == 9);
    assert!(rt; are_same(world, &[0, 4, 7]));
    assert!(rt; are_same(world, &[5, 8]));
    assert!(rt; learnt(world) == Some(&ClientResult::Made));
    assert!(rt; has_a_fresh_number(world, next_at(0, 9_200, 211)));
    assert!(rt; world.premise_holds());
}

#[test]
fn an_exchange_is_made_once(rt: HostRuntime) -> Result<(), Fail> {
    let mut world = two_clients(rt.alloc())?;
    is_made_among_others(&rt, rt.alloc(), &mut world);
    drop(world);
    Ok(())
}
