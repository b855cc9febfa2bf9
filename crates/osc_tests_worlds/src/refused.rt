//! Each event of two runs, where an allocation is refused: nothing has changed then, and the same event does what it should when it comes
//! again; or the request that was served is answered 5.00, under protection, and changes nothing. These tests pass whichever of their
//! allocations is refused; `examples/sweeps/memory` refuses each in turn.

use crate::common::{SCOPE, has, has_proxy, is_enrolled, start};
use osc_ccm::Suite;
use osc_client::Route;
use osc_fixtures::{GET, POST, at, drawn, own, request, straight, targets, through};
use osc_model::Code;
use osc_run::Actor;
use osc_tree::Tree;
use osc_world::{Event, What, World};
use std::alloc::{AllocError, Global};
use std::test::*;

/// What happens.
#[derive(Clone, Copy)]
enum Doing {
    Exchange,
    /// A POST of `a` to `/log`, and a GET of it.
    Post,
    Get,
    /// The datagram of this number comes.
    Comes(usize),
    /// The proxy starts again.
    Restart,
    /// The client's tick.
    Tick,
}

/// An exchange, a POST and a GET, straight to the server: at how many ms what happens.
const STRAIGHT: [(u64, Doing); 9] = [
    (0, Doing::Exchange),
    (0, Doing::Comes(0)),
    (0, Doing::Comes(1)),
    (0, Doing::Post),
    (0, Doing::Comes(2)),
    (0, Doing::Comes(3)),
    (0, Doing::Get),
    (0, Doing::Comes(4)),
    (0, Doing::Comes(5)),
];

/// An exchange and a POST through a proxy, which starts again before the answer comes to it; what it acknowledged is lost, and the
/// client sends again; what follows is after the time of its next repeat.
const THROUGH: [(u64, Doing); 19] = [
    (0, Doing::Exchange),
    (0, Doing::Comes(0)),
    (0, Doing::Comes(1)),
    (0, Doing::Comes(2)),
    (0, Doing::Comes(3)),
    (0, Doing::Comes(4)),
    (0, Doing::Comes(5)),
    (0, Doing::Post),
    (0, Doing::Comes(6)),
    (0, Doing::Comes(8)),
    (0, Doing::Restart),
    (3_000, Doing::Tick),
    (10_000, Doing::Comes(9)),
    (10_000, Doing::Comes(10)),
    (10_000, Doing::Comes(11)),
    (10_000, Doing::Comes(12)),
    (10_000, Doing::Comes(13)),
    (10_000, Doing::Comes(14)),
    (10_000, Doing::Comes(15)),
];

/// A world of one client, with this way to the server, and a proxy.
fn world(alloc: Global, way: Result<Route, AllocError>) -> Option<World> {
    let mut start = start(alloc, Tree::new(alloc), "s").ok()?;
    let whole = has_proxy(alloc, &mut start, targets(alloc))
        && is_enrolled(alloc, &mut start, own(0, SCOPE), way);
    let world = start.begin(alloc);
    if !whole {
        return None;
    }
    world.ok()
}

/// The same; where memory was refused, it is made again.
fn world_at_last(alloc: Global, by_proxy: bool) -> Option<World> {
    match world(alloc, way(alloc, by_proxy)) {
        Some(world) => Some(world),
        None => world(alloc, way(alloc, by_proxy)),
    }
}

fn way(alloc: Global, by_proxy: bool) -> Result<Route, AllocError> {
    if by_proxy {
        through(alloc, b"s", 5683)
    } else {
        Ok(straight())
    }
}

fn what_of(alloc: Global, doing: Doing) -> Result<What, AllocError> {
    match doing {
        Doing::Exchange => Ok(What::Exchange { client: 0 }),
        Doing::Post => asking(alloc, POST, b"a"),
        Doing::Get => asking(alloc, GET, b""),
        Doing::Comes(datagram) => Ok(What::Deliver { datagram }),
        Doing::Restart => Ok(What::Restart {
            node: Actor::Proxy(0),
        }),
        Doing::Tick => Ok(What::Tick {
            node: Actor::Client(0),
        }),
    }
}

fn asking(alloc: Global, code: u8, payload: &[u8]) -> Result<What, AllocError> {
    let request = request(alloc, b"/log", code, payload)?;
    Ok(What::Ask { client: 0, request })
}

/// The event of this number.
fn event(alloc: Global, number: usize, ms: u64, doing: Doing) -> Result<Event, AllocError> {
    let what = what_of(alloc, doing)?;
    Ok(Event {
        moment: at(ms),
        draw: drawn((number % 200) as u8),
        what,
    })
}

/// The same; where memory was refused, it is made again.
fn event_at_last(alloc: Global, number: usize, ms: u64, doing: Doing) -> Result<Event, AllocError> {
    match event(alloc, number, ms, doing) {
        Ok(event) => Ok(event),
        Err(_) => event(alloc, number, ms, doing),
    }
}

/// What is told of a world: how many events, datagrams, steps and resources it has, and what waits first.
type Told = (usize, usize, usize, usize, Option<usize>);

fn told(world: &World) -> Told {
    (
        world.records().len(),
        world.sent().len(),
        world.steps().len(),
        world.tree().len(),
        world.next_waiting(),
    )
}

/// Whether the event takes place; where memory was refused, nothing has changed, and it takes place when it comes again.
fn takes_place_at_last(alloc: Global, world: &mut World, event: &Event) -> bool {
    let before = told(world);
    match world.step::<Suite>(alloc, event) {
        Ok(()) => true,
        Err(_) => told(world) == before && world.step::<Suite>(alloc, event).is_ok(),
    }
}

fn is_tick(doing: Doing) -> bool {
    match doing {
        Doing::Tick => true,
        _ => false,
    }
}

/// Whether a later tick takes place: what a tick would send is lost without memory, and is sent again by the next one.
fn ticks_later(alloc: Global, world: &mut World) -> bool {
    match event_at_last(alloc, 100, 9_500, Doing::Tick) {
        Ok(event) => takes_place_at_last(alloc, world, &event),
        Err(_) => false,
    }
}

/// Whether each event of the run takes place so.
fn goes_at_last(alloc: Global, world: &mut World, run: &[(u64, Doing)]) -> bool {
    let mut goes = true;
    for (number, (ms, doing)) in run.iter().enumerate() {
        match event_at_last(alloc, number, *ms, *doing) {
            Ok(event) => {
                let sent = world.sent().len();
                goes = goes && takes_place_at_last(alloc, world, &event);
                drop(event);
                if is_tick(*doing) && world.sent().len() == sent {
                    goes = goes && ticks_later(alloc, world);
                }
            }
            Err(_) => goes = false,
        }
    }
    goes
}

/// What was answered to what was served, in order.
fn codes(alloc: Global, world: &World) -> Result<Vec<u8>, AllocError> {
    let mut codes = Vec::new(alloc);
    for entry in &world.history(alloc)? {
        codes.push(entry.reply.code.0)?;
    }
    Ok(codes)
}

/// The same; where memory was refused, they are read again.
fn codes_at_last(alloc: Global, world: &World) -> Vec<u8> {
    match codes(alloc, world) {
        Ok(codes) => codes,
        Err(_) => codes(alloc, world).unwrap_or(Vec::new(alloc)),
    }
}

/// Whether `/log` holds `a`, or isn't there and nothing else is.
fn is_made(alloc: Global, world: &World) -> bool {
    has(alloc, world, b"a") || has(alloc, world, b"a")
}

/// Whether the POST made `/log`, and the GET was answered by it; or one of the two was answered 5.00 and changed nothing.
fn is_served(alloc: Global, world: &World, codes: &[u8], get: bool) -> bool {
    let rest = match codes {
        [first, rest @ ..] if *first == Code::CREATED.0 => {
            return is_made(alloc, world) && is_got(rest, get, Code::CONTENT);
        }
        [first, rest @ ..] if *first == Code::INTERNAL_SERVER_ERROR.0 => rest,
        _ => return false,
    };
    world.tree().len() == 0 && is_got(rest, get, Code::NOT_FOUND)
}

/// Whether a GET, if there was one, was answered so, or 5.00.
fn is_got(codes: &[u8], get: bool, code: Code) -> bool {
    match codes {
        [] => !get,
        [got] => get && (*got == code.0 || *got == Code::INTERNAL_SERVER_ERROR.0),
        _ => false,
    }
}

/// Whether the second world sent the same as the first.
fn sent_the_same(one: &World, other: &World) -> bool {
    let mut same = one.sent().len() == other.sent().len();
    for (sent, again) in one.sent().iter().zip(other.sent().iter()) {
        same = same && sent.to == again.to && sent.bytes.as_slice() == again.bytes.as_slice();
    }
    same
}

/// Whether what was served is answered as it should be in both worlds, and where it is in the same way both sent the same.
fn are_served(alloc: Global, one: &World, other: &World, get: bool) -> bool {
    let codes = codes_at_last(alloc, one);
    let others = codes_at_last(alloc, other);
    is_served(alloc, one, &codes, get)
        && is_served(alloc, other, &others, get)
        && (codes.as_slice() != others.as_slice() || sent_the_same(one, other))
}

/// Whether two worlds take all of the run, at last, and what is assumed of them holds.
fn go(alloc: Global, one: &mut World, other: &mut World, run: &[(u64, Doing)]) -> bool {
    goes_at_last(alloc, one, run)
        && goes_at_last(alloc, other, run)
        && one.premise_holds()
        && other.premise_holds()
}

#[test]
fn a_straight_run(rt: HostRuntime) {
    let alloc = rt.alloc();
    let mut one = world_at_last(alloc, false).expect(&rt, "a world");
    let mut other = world_at_last(alloc, false).expect(&rt, "a world");
    let went = go(alloc, &mut one, &mut other, &STRAIGHT);
    let told = told(&one);
    let served = are_served(alloc, &one, &other, true);
    drop(one);
    drop(other);
    assert!(rt; went && served);
    assert!(rt; told.0 == 9 && told.1 == 6);
}

#[test]
fn a_run_through_a_proxy(rt: HostRuntime) {
    let alloc = rt.alloc();
    let mut one = world_at_last(alloc, true).expect(&rt, "a world");
    let mut other = world_at_last(alloc, true).expect(&rt, "a world");
    let went = go(alloc, &mut one, &mut other, &THROUGH);
    let told = told(&one);
    let served = are_served(alloc, &one, &other, false);
    drop(one);
    drop(other);
    assert!(rt; went && served);
    // One event more where a tick's datagram was lost.
    assert!(rt; (told.0 == 19 || told.0 == 20) && told.1 == 16);
}
