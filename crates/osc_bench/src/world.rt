//! A world of four clients, which ask in turn.

use crate::tokens::right_of;
use osc_ccm::Suite;
use osc_fixtures::{GET, KEY, POST, SERVER, claims, drawn, iv_of, place, request, straight};
use osc_model::{Draw, Moment, Request};
use osc_scope::Scope;
use osc_token::Audience;
use osc_tree::Tree;
use osc_world::{Draws, Event, NewHolder, Start, What, World};
use std::alloc::{AllocError, Global};

/// Four clients begin an exchange each, and then `requests` requests are asked by them in turn, with a quiet round after each
/// exchange and each request: the first is a POST of 64 bytes, which makes the resource, the others are GETs of it. Answers
/// how many events that were; 0 for lack of memory, and unless each request's reply is accepted.
#[unsafe(no_mangle)]
pub extern "C" fn osc_bench_world(alloc: Global, requests: u64) -> u64 {
    match world_of_four(alloc) {
        Ok(mut world) => {
            let events = events_of(alloc, &mut world, requests);
            drop(world);
            events.unwrap_or(0)
        }
        Err(_) => 0,
    }
}

const CLIENTS: u8 = 4;

// How many bytes the resource has.
const PAYLOAD: usize = 64;

// The most deliveries of a quiet round: each has two.
const QUIET_LIMIT: usize = 4;

// A world without resources, before its first event.
fn world_of_four(alloc: Global) -> Result<World, AllocError> {
    let audience = Audience::new(alloc, "s")?;
    let (first, open_scope) = (Tree::new(alloc), Scope::new(alloc));
    let mut start = Start::new(alloc, first, open_scope, KEY, audience, SERVER);
    enroll_all(alloc, &mut start)?;
    start.begin(alloc)
}

fn enroll_all(alloc: Global, start: &mut Start) -> Result<(), AllocError> {
    for client in 0..CLIENTS {
        enroll(alloc, start, client)?;
    }
    Ok(())
}

fn enroll(alloc: Global, start: &mut Start, client: u8) -> Result<(), AllocError> {
    let holder = holder_of(alloc, client)?;
    match start.enroll::<Suite>(alloc, holder) {
        Ok(()) => Ok(()),
        Err(_) => Err(AllocError),
    }
}

// The client's token has its number as its id.
fn holder_of(alloc: Global, client: u8) -> Result<NewHolder, AllocError> {
    let right = right_of(client);
    Ok(NewHolder {
        at: place(client),
        way: straight(),
        claims: claims(alloc, right)?,
        iv: iv_of(right),
    })
}

// All events in order, and how many they are; 0 unless each request's reply is accepted.
fn events_of(alloc: Global, world: &mut World, requests: u64) -> Result<u64, AllocError> {
    for client in 0..CLIENTS {
        exchange(alloc, world, client)?;
    }
    for number in 0..requests {
        ask(alloc, world, number)?;
    }
    if accepted(alloc, world)? == requests {
        Ok(world.records().len() as u64)
    } else {
        Ok(0)
    }
}

// How many replies were accepted.
fn accepted(alloc: Global, world: &World) -> Result<u64, AllocError> {
    let accepted = world.accepted(alloc)?;
    Ok(accepted.len() as u64)
}

// The client's exchange. The server draws other bytes than the client.
fn exchange(alloc: Global, world: &mut World, client: u8) -> Result<(), AllocError> {
    let what = What::Exchange {
        client: client as usize,
    };
    happens(alloc, world, drawn(client), what)?;
    quiet(alloc, world, drawn(0x80 | client))
}

// The request of this number, from 0, by the client whose turn it is.
fn ask(alloc: Global, world: &mut World, number: u64) -> Result<(), AllocError> {
    let request = request_of(alloc, number)?;
    let what = What::Ask {
        client: (number % CLIENTS as u64) as usize,
        request,
    };
    let draw = drawn(0x40);
    happens(alloc, world, draw, what)?;
    quiet(alloc, world, draw)
}

fn request_of(alloc: Global, number: u64) -> Result<Request, AllocError> {
    if number == 0 {
        request(alloc, b"/log", POST, &[b'p'; PAYLOAD])
    } else {
        request(alloc, b"/log", GET, b"")
    }
}

// One event.
fn happens(alloc: Global, world: &mut World, draw: Draw, what: What) -> Result<(), AllocError> {
    let event = Event {
        moment: Moment::START,
        draw,
        what,
    };
    let happened = world.step::<Suite>(alloc, &event);
    drop(event);
    happened
}

// What waits is delivered, each time with these random bytes.
fn quiet(alloc: Global, world: &mut World, draw: Draw) -> Result<(), AllocError> {
    let draws = OneDraw(draw);
    world.quiet::<Suite, OneDraw>(alloc, Moment::START, &draws, QUIET_LIMIT)?;
    Ok(())
}

// Each event's random bytes are these.
#[derive(Clone, Copy)]
struct OneDraw(Draw);

impl Draws for OneDraw {
    ghost drawn = { λ draws event. draws.0 };

    fn draw(&self, _event: usize) -> Draw {
        self.0
    }
}
