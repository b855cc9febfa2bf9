//! Ticks beside open messages.

use osc_fixtures::SERVER;
use osc_message::{Endpoint, MOST_OPEN};
use osc_model::{Bytes, Draw, Moment, Peer};
use std::alloc::{AllocError, Global};

/// Ticks `rounds` times beside `open` open messages of 64 bytes, at most 1,008, at the moment at which they were sent: nothing is due.
/// They were sent to one peer after the other: one to each is outstanding, and 15 wait, fewer for the last. Two endpoints have them, and
/// take turns. Answers how many messages are open at both in the end; 0 for lack of memory.
#[unsafe(no_mangle)]
pub extern "C" fn osc_bench_tick(alloc: Global, open: u16, rounds: u64) -> u64 {
    match endpoints_with(alloc, open) {
        Ok(mut endpoints) => {
            let open = open_behind(alloc, &mut endpoints, rounds);
            drop(endpoints);
            open.unwrap_or(0)
        }
        Err(_) => 0,
    }
}

/// Asks `rounds` times for the next deadline beside `open` open messages, by turns of the two endpoints that `osc_bench_tick` has.
/// Answers the sum of the deadlines, in ms; 0 for lack of memory.
#[unsafe(no_mangle)]
pub extern "C" fn osc_bench_deadline(alloc: Global, open: u16, rounds: u64) -> u64 {
    match endpoints_with(alloc, open) {
        Ok(endpoints) => {
            let sum = sum_of_deadlines(&endpoints, rounds);
            drop(endpoints);
            sum
        }
        Err(_) => 0,
    }
}

// How many messages are open to a peer.
const EACH: u16 = 16;

// To how many peers.
const PEERS: u16 = 63;

// What is drawn: timeouts of two seconds, and the first message ID is 0.
const DRAW: Draw = Draw([0; 32]);

// Two endpoints: what the same one answers each time might be asked once for all by a compiler.
fn endpoints_with(alloc: Global, open: u16) -> Result<Vec<Endpoint<MOST_OPEN>>, AllocError> {
    let mut endpoints = Vec::new(alloc);
    for _ in 0..2 {
        endpoints.push(endpoint_with(alloc, open)?)?;
    }
    Ok(endpoints)
}

// An endpoint to which this number of messages was given at the first moment, as far as it took them.
fn endpoint_with(alloc: Global, open: u16) -> Result<Endpoint<MOST_OPEN>, AllocError> {
    let mut endpoint = Endpoint::<MOST_OPEN>::new(alloc)?;
    let filled = fill(alloc, &mut endpoint, open.min(EACH * PEERS));
    filled?;
    Ok(endpoint)
}

fn fill(alloc: Global, endpoint: &mut Endpoint<MOST_OPEN>, open: u16) -> Result<(), AllocError> {
    for number in 0..open {
        send(alloc, endpoint, number)?;
    }
    Ok(())
}

// Sends the message of this number, the 16th to a peer before the first to the next.
fn send(alloc: Global, endpoint: &mut Endpoint<MOST_OPEN>, number: u16) -> Result<(), AllocError> {
    let bytes = Bytes::from_slice(alloc, &[b'p'; 64])?;
    let to = Peer {
        port: 7001 + number / EACH,
        ..SERVER
    };
    let id = endpoint.take_id(&DRAW);
    let _ = endpoint.send(Moment::START, to, id, &DRAW, bytes);
    Ok(())
}

// How many messages are open at all of them after this number of ticks.
fn open_behind(
    alloc: Global,
    endpoints: &mut [Endpoint<MOST_OPEN>],
    rounds: u64,
) -> Result<u64, AllocError> {
    for round in 0..rounds {
        if let Some(endpoint) = endpoints.get_mut((round % 2) as usize) {
            tick(alloc, endpoint);
        }
    }
    Ok(open_at(endpoints))
}

fn tick(alloc: Global, endpoint: &mut Endpoint<MOST_OPEN>) {
    let ticked = endpoint.on_tick(alloc, Moment::START);
    drop(ticked);
}

// How many messages are open at all of them.
fn open_at(endpoints: &[Endpoint<MOST_OPEN>]) -> u64 {
    let mut open = 0u64;
    for endpoint in endpoints {
        open = open.wrapping_add(endpoint.open_messages() as u64);
    }
    open
}

// The sum of this number of deadlines.
fn sum_of_deadlines(endpoints: &[Endpoint<MOST_OPEN>], rounds: u64) -> u64 {
    let mut sum = 0u64;
    for round in 0..rounds {
        if let Some(endpoint) = endpoints.get((round % 2) as usize) {
            sum = sum.wrapping_add(endpoint.next_deadline().unwrap_or(0));
        }
    }
    sum
}
