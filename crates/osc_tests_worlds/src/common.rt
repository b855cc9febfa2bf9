//! Worlds, and what happens in them.

use osc_ccm::Suite;
use osc_client::Route;
use osc_fixtures::{
    KEY, PROXY, Right, SERVER, claims, drawn, iv_of, own, place, request, straight,
};
use osc_model::{Bytes, Moment, Path, Peer};
use osc_proxy::Targets;
use osc_run::Actor;
use osc_scope::Scope;
use osc_token::Audience;
use osc_tree::Tree;
use osc_world::{Event, NewHolder, Start, What, World};
use std::alloc::{AllocError, Global};
use std::test::*;

/// GET, POST and PUT on `/log`.
pub(crate) const SCOPE: &[u8] = b"\x81\x82\x64/log\x07";

/// The greatest number that a request may have (RFC 8613 section 7.2.1).
pub(crate) const GREATEST: u64 = 1_099_511_627_775;

// ---- where a world begins

/// A world with these resources before its first event, for this audience.
pub(crate) fn start(alloc: Global, first: Tree, audience: &str) -> Result<Start, AllocError> {
    let audience = Audience::new(alloc, audience)?;
    Ok(Start::new(alloc, first, Scope::new(alloc), KEY, audience, SERVER))
}

fn holder(
    alloc: Global,
    right: Right,
    way: Result<Route, AllocError>,
) -> Result<NewHolder, AllocError> {
    let way = way?;
    Ok(NewHolder {
        at: place(right.client),
        way,
        claims: claims(alloc, right)?,
        iv: iv_of(right),
    })
}

/// Whether the client of this right was enrolled, with this way to the server.
pub(crate) fn is_enrolled(
    alloc: Global,
    start: &mut Start,
    right: Right,
    way: Result<Route, AllocError>,
) -> bool {
    match holder(alloc, right, way) {
        Ok(holder) => start.enroll::<Suite>(alloc, holder).is_ok(),
        Err(_) => false,
    }
}

/// Whether a client of each of these rights was enrolled, in order, with a way straight to the server.
fn are_enrolled(alloc: Global, start: &mut Start, rights: &[Right]) -> bool {
    for right in rights {
        if !is_enrolled(alloc, start, *right, Ok(straight())) {
            return false;
        }
    }
    true
}

/// Whether the proxy was added, with these targets.
pub(crate) fn has_proxy(
    alloc: Global,
    start: &mut Start,
    targets: Result<Targets, AllocError>,
) -> bool {
    match targets {
        Ok(targets) => start.add_proxy(alloc, PROXY, targets).is_ok(),
        Err(_) => false,
    }
}

/// The world that begins so, if all are there that it should have.
pub(crate) fn begun(alloc: Global, start: Start, whole: bool) -> Result<World, Fail> {
    let world = start.begin(alloc);
    whole.then_some(()).ok_or("not whole")?;
    Ok(world?)
}

/// A world with these resources, and a client for each of these rights, which sends straight to the server.
pub(crate) fn world_of(alloc: Global, first: Tree, rights: &[Right]) -> Result<World, Fail> {
    let mut start = start(alloc, first, "s")?;
    let whole = are_enrolled(alloc, &mut start, rights);
    begun(alloc, start, whole)
}

/// A world without resources, with one client.
pub(crate) fn world(alloc: Global) -> Result<World, Fail> {
    world_of(alloc, Tree::new(alloc), &[own(0, SCOPE)])
}

// ---- what happens in it

/// The event of this number, which gives its draw.
pub(crate) fn event(number: u8, what: What) -> Event {
    Event {
        moment: Moment::START,
        draw: drawn(number),
        what,
    }
}

/// Whether there was memory for the event.
pub(crate) fn takes_place(alloc: Global, world: &mut World, event: Event) -> bool {
    let done = world.step::<Suite>(alloc, &event).is_ok();
    drop(event);
    done
}

/// Whether there was memory for what happens.
pub(crate) fn happens(alloc: Global, world: &mut World, number: u8, what: What) -> bool {
    takes_place(alloc, world, event(number, what))
}

pub(crate) fn exchanges(alloc: Global, world: &mut World, number: u8, client: usize) -> bool {
    happens(alloc, world, number, What::Exchange { client })
}

/// A client's request: its number, the path, the code and the payload.
pub(crate) type Asked = (usize, &'static [u8], u8, &'static [u8]);

/// Whether there was memory for the request.
pub(crate) fn asks_for(alloc: Global, world: &mut World, number: u8, asked: Asked) -> bool {
    let (client, path, code, payload) = asked;
    match request(alloc, path, code, payload) {
        Ok(request) => happens(alloc, world, number, What::Ask { client, request }),
        Err(_) => false,
    }
}

/// The first client's request on `/log`.
pub(crate) fn asks(
    alloc: Global,
    world: &mut World,
    number: u8,
    code: u8,
    payload: &'static [u8],
) -> bool {
    asks_for(alloc, world, number, (0, b"/log", code, payload))
}

pub(crate) fn delivers(alloc: Global, world: &mut World, number: u8, datagram: usize) -> bool {
    happens(alloc, world, number, What::Deliver { datagram })
}

pub(crate) fn injects(
    alloc: Global,
    world: &mut World,
    number: u8,
    from: Peer,
    to: Peer,
    bytes: &[u8],
) -> bool {
    match Bytes::from_slice(alloc, bytes) {
        Ok(bytes) => happens(alloc, world, number, What::Inject { from, to, bytes }),
        Err(_) => false,
    }
}

/// The client's holder seals this text at this number, in the event of that number.
pub(crate) fn lies(
    alloc: Global,
    world: &mut World,
    event: u8,
    client: usize,
    number: u64,
    text: &[u8],
) -> bool {
    match Bytes::from_slice(alloc, text) {
        Ok(text) => {
            let lie = What::Lie {
                client,
                number,
                text,
            };
            happens(alloc, world, event, lie)
        }
        Err(_) => false,
    }
}

pub(crate) fn ticks(alloc: Global, world: &mut World, number: u8, node: Actor) -> bool {
    happens(alloc, world, number, What::Tick { node })
}

pub(crate) fn restarts(alloc: Global, world: &mut World, number: u8, node: Actor) -> bool {
    happens(alloc, world, number, What::Restart { node })
}

// ---- the outcome

/// How many requests were served, asked and answered.
pub(crate) fn counts(alloc: Global, world: &World) -> (usize, usize, usize) {
    (
        history(alloc, world),
        asked(alloc, world),
        accepted(alloc, world),
    )
}

pub(crate) fn history(alloc: Global, world: &World) -> usize {
    match world.history(alloc) {
        Ok(all) => all.len(),
        Err(_) => 1000,
    }
}

pub(crate) fn asked(alloc: Global, world: &World) -> usize {
    match world.asked(alloc) {
        Ok(all) => all.len(),
        Err(_) => 1000,
    }
}

pub(crate) fn accepted(alloc: Global, world: &World) -> usize {
    match world.accepted(alloc) {
        Ok(all) => all.len(),
        Err(_) => 1000,
    }
}

/// Whether `/log` has these bytes.
pub(crate) fn has(alloc: Global, world: &World, bytes: &[u8]) -> bool {
    match Path::from_text(alloc, b"/log") {
        Ok(Some(path)) => match world.tree().get(&path) {
            Some(resource) => resource.payload.as_slice() == bytes,
            None => false,
        },
        _ => false,
    }
}
