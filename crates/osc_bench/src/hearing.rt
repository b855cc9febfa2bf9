//! One datagram that a node hears again and again, for what a call takes: a server, a client, or a proxy. The node is the same before each.

use crate::asking::{DRAW, client_of, make_context, request_of};
use crate::flood::{mark, origin};
use crate::messages::server_of;
use crate::proxy_flood::forward;
use crate::server_flood::begin;
use osc_ccm::Suite;
use osc_client::Client;
use osc_fixtures::{SERVER, STRANGER, drawn, place, proxy};
use osc_model::{Bytes, Moment, Step};
use osc_proxy::Proxy;
use osc_server::Server;
use std::alloc::{AllocError, Global};

/// A server of one resource, `/r000`, which is open, has a context, that of the client of `osc_bench_flood_server`. It hears the datagram `rounds` times, each
/// time under a message ID of its own, and when all that it noted of those before is dead. Answers the code of what it sent the last time;
/// 256 where it sent nothing, and 1,000 where there was no memory.
///
/// A block of 65,521 bytes is taken and given back before and after each call of `on_datagram`.
#[unsafe(no_mangle)]
pub extern "C" fn osc_bench_hear_server(alloc: Global, datagram: &[u8], rounds: u32) -> u64 {
    server_hears(alloc, datagram, rounds).unwrap_or(WANTING)
}

/// A client, of which a message waits for its answer, hears the datagram `rounds` times from its server, as at `osc_bench_hear_server`; before each it
/// starts again. What waits is its post of a token where `asks` is 0, and else a protected request; the message's token is the byte 1, 8 times.
#[unsafe(no_mangle)]
pub extern "C" fn osc_bench_hear_client(
    alloc: Global,
    asks: u8,
    datagram: &[u8],
    rounds: u32,
) -> u64 {
    client_hears(alloc, asks != 0, datagram, rounds).unwrap_or(WANTING)
}

/// A proxy of one target, `s`, with `open` exchanges open, hears the datagram `rounds` times, as at `osc_bench_hear_server`; before each it starts again, and
/// the exchanges are opened again. The datagram comes from the target where `from` is 255, and else from the peer of that number; those below `open` have
/// the exchanges. To the target, the token of the first exchange is the byte 0, 8 times, and that of the next one the byte 1.
#[unsafe(no_mangle)]
pub extern "C" fn osc_bench_hear_proxy(
    alloc: Global,
    open: u8,
    from: u8,
    datagram: &[u8],
    rounds: u32,
) -> u64 {
    proxy_hears(alloc, open, from, datagram, rounds).unwrap_or(WANTING)
}

// More than a code is.
const NOTHING: u64 = 256;

// More than what is answered else.
pub(crate) const WANTING: u64 = 1000;

// What was noted this number of ms ago is dead.
const LIFETIME: u64 = 247_000;

// ---- what they have in common

fn moment_of(round: u32) -> Moment {
    Moment {
        ms: LIFETIME * round as u64,
    }
}

// Gives the datagram the message ID of this round, where it is so long that it has one.
fn number(datagram: &mut [u8], round: u32) {
    if datagram.len() >= 4 {
        datagram[2..4].copy_from_slice(&((round % 65536) as u16).to_be_bytes());
    }
}

// Marks the end of the call that gave this step. The code of what it sends first, or that it sends nothing.
pub(crate) fn told(alloc: Global, step: Step) -> Result<u64, AllocError> {
    let marked = mark(alloc);
    let code = code_in(&step);
    drop(step);
    match marked {
        Ok(()) => Ok(code),
        Err(error) => Err(error),
    }
}

fn code_in(step: &Step) -> u64 {
    match step.out.as_slice() {
        [first, ..] => code_of(&first.bytes),
        [] => NOTHING,
    }
}

fn code_of(datagram: &Bytes) -> u64 {
    match datagram.as_slice() {
        [_, code, ..] => *code as u64,
        _ => NOTHING,
    }
}

// ---- the server

fn server_hears(alloc: Global, datagram: &[u8], rounds: u32) -> Result<u64, AllocError> {
    let mut server = server_of(alloc, 1)?;
    let told = server_hears_all(alloc, &mut server, datagram, rounds);
    drop(server);
    told
}

fn server_hears_all(
    alloc: Global,
    server: &mut Server,
    datagram: &[u8],
    rounds: u32,
) -> Result<u64, AllocError> {
    begin(alloc, server)?;
    hears_again(alloc, server, datagram, rounds)
}

/// The server hears the datagram `rounds` times, as `osc_bench_hear_server` says.
pub(crate) fn hears_again(
    alloc: Global,
    server: &mut Server,
    datagram: &[u8],
    rounds: u32,
) -> Result<u64, AllocError> {
    let mut copy = Vec::from_slice(alloc, datagram)?;
    let mut told = NOTHING;
    for round in 0..rounds {
        number(&mut copy, round);
        told = server_hears_one(alloc, server, moment_of(round), &copy)?;
    }
    Ok(told)
}

fn server_hears_one(
    alloc: Global,
    server: &mut Server,
    now: Moment,
    datagram: &[u8],
) -> Result<u64, AllocError> {
    mark(alloc)?;
    let step = server.on_datagram::<Suite>(alloc, now, STRANGER, datagram, &drawn(9))?;
    told(alloc, step)
}

// ---- the client

fn client_hears(
    alloc: Global,
    asks: bool,
    datagram: &[u8],
    rounds: u32,
) -> Result<u64, AllocError> {
    let mut client = client_of(alloc)?;
    let told = client_hears_all(alloc, &mut client, asks, datagram, rounds);
    drop(client);
    told
}

fn client_hears_all(
    alloc: Global,
    client: &mut Client,
    asks: bool,
    datagram: &[u8],
    rounds: u32,
) -> Result<u64, AllocError> {
    let mut copy = Vec::from_slice(alloc, datagram)?;
    let mut told = NOTHING;
    for round in 0..rounds {
        number(&mut copy, round);
        client.restart();
        if asks {
            wait_for_reply(alloc, client)?;
        } else {
            wait_for_context(alloc, client)?;
        }
        told = client_hears_one(alloc, client, &copy)?;
    }
    Ok(told)
}

// Posts its token.
fn wait_for_context(alloc: Global, client: &mut Client) -> Result<(), AllocError> {
    let step = client.exchange(alloc, Moment::START, &DRAW)?;
    drop(step);
    Ok(())
}

// Makes a context, and asks.
fn wait_for_reply(alloc: Global, client: &mut Client) -> Result<(), AllocError> {
    make_context(alloc, client)?;
    let request = request_of(alloc)?;
    let asked = client.ask::<Suite>(alloc, Moment::START, &request, &DRAW);
    drop(request);
    let step = asked?;
    drop(step);
    Ok(())
}

fn client_hears_one(
    alloc: Global,
    client: &mut Client,
    datagram: &[u8],
) -> Result<u64, AllocError> {
    mark(alloc)?;
    let step = client.on_datagram::<Suite>(alloc, Moment::START, SERVER, datagram)?;
    told(alloc, step)
}

// ---- the proxy

fn proxy_hears(
    alloc: Global,
    open: u8,
    from: u8,
    datagram: &[u8],
    rounds: u32,
) -> Result<u64, AllocError> {
    let mut proxy = proxy(alloc)?;
    let told = proxy_hears_all(alloc, &mut proxy, open, from, datagram, rounds);
    drop(proxy);
    told
}

fn proxy_hears_all(
    alloc: Global,
    proxy: &mut Proxy,
    open: u8,
    from: u8,
    datagram: &[u8],
    rounds: u32,
) -> Result<u64, AllocError> {
    let mut copy = Vec::from_slice(alloc, datagram)?;
    let mut told = NOTHING;
    for round in 0..rounds {
        number(&mut copy, round);
        proxy.restart();
        open_all(alloc, proxy, open)?;
        told = proxy_hears_one(alloc, proxy, from, &copy)?;
    }
    Ok(told)
}

// Opens this number of exchanges.
fn open_all(alloc: Global, proxy: &mut Proxy, open: u8) -> Result<(), AllocError> {
    for number in 0..open {
        forward(alloc, proxy, Moment::START, place(number), number)?;
    }
    Ok(())
}

fn proxy_hears_one(
    alloc: Global,
    proxy: &mut Proxy,
    from: u8,
    datagram: &[u8],
) -> Result<u64, AllocError> {
    mark(alloc)?;
    let step = proxy.on_datagram(alloc, Moment::START, origin(from), datagram, &drawn(9))?;
    told(alloc, step)
}
