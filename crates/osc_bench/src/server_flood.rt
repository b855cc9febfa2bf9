//! A flood at a server.

use crate::flood::{
    SERVED, draw_of, ended, first_in, mark, moment_of, origin, ticks_at, token_post,
};
use crate::messages::{answer, server_of};
use crate::protected::{length_of_reply, requests_under};
use osc_ccm::Suite;
use osc_model::{Bytes, Method, Moment};
use osc_server::Server;
use std::alloc::{AllocError, Global};

/// A server of one resource, `/r000`, which is open, serves a client under the context of its token; then comes the flood: a number of
/// datagrams, each after a byte that says who sends and its length in two bytes, ten in a millisecond, and a tick each second; and after
/// it the client asks again. Answers how many datagrams of the flood were answered, and one more; 0 for lack of memory, and where
/// the client isn't served.
///
/// A block of 65,521 bytes is taken and given back before the server is made, before and after each datagram of the flood, after the flood, and
/// after all.
#[unsafe(no_mangle)]
pub extern "C" fn osc_bench_flood_server(alloc: Global, flood: &[u8], count: u32) -> u64 {
    served_behind(alloc, flood, count).unwrap_or(0)
}

fn served_behind(alloc: Global, flood: &[u8], count: u32) -> Result<u64, AllocError> {
    let requests = requests_under(alloc, SERVED, Method::Get)?;
    let answered = serve_around(alloc, &requests, flood, count);
    drop(requests);
    answered
}

fn serve_around(
    alloc: Global,
    requests: &[Bytes],
    flood: &[u8],
    count: u32,
) -> Result<u64, AllocError> {
    mark(alloc)?;
    let mut server = server_of(alloc, 1)?;
    let answered = serve_first(alloc, &mut server, requests, flood, count);
    drop(server);
    answered
}

// Makes the client's context, and serves its first request, before the flood.
fn serve_first(
    alloc: Global,
    server: &mut Server,
    requests: &[Bytes],
    flood: &[u8],
    count: u32,
) -> Result<u64, AllocError> {
    begin(alloc, server)?;
    if is_served(alloc, server, Moment::START, requests, 0)? {
        serve_last(alloc, server, requests, flood, count)
    } else {
        Ok(0)
    }
}

// Posts the client's token.
pub(crate) fn begin(alloc: Global, server: &mut Server) -> Result<(), AllocError> {
    let datagram = token_post(alloc, SERVED as u16)?;
    let step = answer(
        alloc,
        server,
        Moment::START,
        [SERVED; 32],
        datagram.as_slice(),
    );
    drop(datagram);
    let step = step?;
    drop(step);
    Ok(())
}

// Serves the client's third request after the flood.
fn serve_last(
    alloc: Global,
    server: &mut Server,
    requests: &[Bytes],
    flood: &[u8],
    count: u32,
) -> Result<u64, AllocError> {
    let answered = hear_all(alloc, server, flood, count)?;
    mark(alloc)?;
    let served = is_served(alloc, server, moment_of(count), requests, 2)?;
    mark(alloc)?;
    Ok(if served { answered.wrapping_add(1) } else { 0 })
}

// Whether the client's request of this place gets a protected reply.
fn is_served(
    alloc: Global,
    server: &mut Server,
    now: Moment,
    requests: &[Bytes],
    place: usize,
) -> Result<bool, AllocError> {
    match requests.get(place) {
        Some(request) => {
            let step = answer(alloc, server, now, [0; 32], request.as_slice())?;
            Ok(length_of_reply(step) > 0)
        }
        None => Ok(false),
    }
}

// How many datagrams of the flood were answered.
fn hear_all(
    alloc: Global,
    server: &mut Server,
    flood: &[u8],
    count: u32,
) -> Result<u64, AllocError> {
    let mut answered = 0u64;
    let mut rest = flood;
    for place in 0..count {
        if let Some((from, datagram, behind)) = first_in(rest) {
            rest = behind;
            if hear(alloc, server, place, from, datagram)? {
                answered = answered.wrapping_add(1);
            }
        }
    }
    Ok(answered)
}

// Hears the datagram of this place, with the tick that comes before it. Whether it is answered.
fn hear(
    alloc: Global,
    server: &mut Server,
    place: u32,
    from: u8,
    datagram: &[u8],
) -> Result<bool, AllocError> {
    let now = moment_of(place);
    if ticks_at(place) {
        tick(alloc, server, now);
    }
    mark(alloc)?;
    let step = server.on_datagram::<Suite>(alloc, now, origin(from), datagram, &draw_of(place))?;
    ended(alloc, step)
}

fn tick(alloc: Global, server: &mut Server, now: Moment) {
    let step = server.on_tick(alloc, now);
    drop(step);
}
