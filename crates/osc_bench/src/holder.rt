//! One protected request that a server serves again and again, for what a call takes: its holder seals what it likes.

use crate::asking::{DRAW, client_of};
use crate::flood::mark;
use crate::hearing::told;
use crate::messages::server_of;
use osc_ccm::Suite;
use osc_client::Client;
use osc_fixtures::{SERVER, STRANGER, drawn, sent};
use osc_model::{Bytes, Moment, Step};
use osc_server::Server;
use osc_world::adversary::lie;
use std::alloc::{AllocError, Global};

/// A server of one resource, `/r000`, hears `rounds` times a request in which this text is sealed, at number 0 under a client's context; before each it starts
/// again, and the client's token, which grants GET, POST and DELETE on `/log`, is posted again. Answers the code of what it sent the last time; 256 where it
/// sent nothing, and 1,000 where there was no memory.
///
/// A block of 65,521 bytes is taken and given back before and after each call of `on_datagram` that hears the request.
#[unsafe(no_mangle)]
pub extern "C" fn osc_bench_hear_holder(alloc: Global, text: &[u8], rounds: u32) -> u64 {
    served_often(alloc, text, rounds).unwrap_or(1000)
}

fn served_often(alloc: Global, text: &[u8], rounds: u32) -> Result<u64, AllocError> {
    let mut server = server_of(alloc, 1)?;
    let told = serve_client(alloc, &mut server, text, rounds);
    drop(server);
    told
}

fn serve_client(
    alloc: Global,
    server: &mut Server,
    text: &[u8],
    rounds: u32,
) -> Result<u64, AllocError> {
    let mut client = client_of(alloc)?;
    let told = serve_holder(alloc, server, &mut client, text, rounds);
    drop(client);
    told
}

// Posts the client's token, and has its answer make the client's context.
fn serve_holder(
    alloc: Global,
    server: &mut Server,
    client: &mut Client,
    text: &[u8],
    rounds: u32,
) -> Result<u64, AllocError> {
    let post = exchanged(alloc, client)?;
    let answer = heard(alloc, server, &post)?;
    let step = client.on_datagram::<Suite>(alloc, Moment::START, SERVER, answer.as_slice())?;
    drop(step);
    drop(answer);
    let request = sealed(alloc, client, text)?;
    serve_all(alloc, server, &post, &request, rounds)
}

// What goes out in this step; no bytes where it sends nothing.
fn copied(alloc: Global, step: Step) -> Result<Bytes, AllocError> {
    let bytes = Bytes::from_slice(alloc, sent(&step));
    drop(step);
    bytes
}

fn exchanged(alloc: Global, client: &mut Client) -> Result<Bytes, AllocError> {
    let step = client.exchange(alloc, Moment::START, &DRAW)?;
    copied(alloc, step)
}

fn sealed(alloc: Global, client: &Client, text: &[u8]) -> Result<Bytes, AllocError> {
    let step = lie::<Suite>(alloc, client, 0, text, &drawn(3))?;
    copied(alloc, step)
}

// What the server answers to the post.
fn heard(alloc: Global, server: &mut Server, post: &Bytes) -> Result<Bytes, AllocError> {
    let step = server.on_datagram::<Suite>(
        alloc,
        Moment::START,
        STRANGER,
        post.as_slice(),
        &drawn(2),
    )?;
    copied(alloc, step)
}

fn serve_all(
    alloc: Global,
    server: &mut Server,
    post: &Bytes,
    request: &Bytes,
    rounds: u32,
) -> Result<u64, AllocError> {
    let mut code = 256;
    for _ in 0..rounds {
        server.restart();
        let answer = heard(alloc, server, post)?;
        drop(answer);
        code = serve_one(alloc, server, request)?;
    }
    Ok(code)
}

fn serve_one(alloc: Global, server: &mut Server, request: &Bytes) -> Result<u64, AllocError> {
    mark(alloc)?;
    let step = server.on_datagram::<Suite>(
        alloc,
        Moment::START,
        STRANGER,
        request.as_slice(),
        &drawn(9),
    )?;
    told(alloc, step)
}
