//! One datagram that a server hears again and again which has all that it may have.

use crate::flood::token_post;
use crate::hearing::{WANTING, hears_again};
use crate::messages::answer;
use crate::protected::requests_under;
use osc_fixtures::{put, revoking_server};
use osc_model::{Bytes, Method, Moment};
use osc_server::Server;
use osc_tree::{MOST_RESOURCES, Tree};
use std::alloc::{AllocError, Global};

/// A server with a revocation path of four segments of 32 bytes, 1,024 resources below it, and two contexts of each of 64 token ids, those of the posts
/// 1 to 64 of `osc_bench_flood_valid`, hears the datagram `rounds` times, as at `osc_bench_hear_server`.
#[unsafe(no_mangle)]
pub extern "C" fn osc_bench_hear_full(alloc: Global, datagram: &[u8], rounds: u32) -> u64 {
    full_hears(alloc, datagram, rounds).unwrap_or(WANTING)
}

// Where resources revoke tokens.
const REVOKED: &[u8] =
    b"/aaaaaaaaaaaaaaaaaaaaaaaaaaaaaaaa/aaaaaaaaaaaaaaaaaaaaaaaaaaaaaaaa/aaaaaaaaaaaaaaaaaaaaaaaaaaaaaaaa/aaaaaaaaaaaaaaaaaaaaaaaaaaaaaaaa";

// How many token ids have contexts.
const IDS: u8 = 64;

fn full_hears(alloc: Global, datagram: &[u8], rounds: u32) -> Result<u64, AllocError> {
    let mut server = server_of_all(alloc)?;
    let told = hears_with_contexts(alloc, &mut server, datagram, rounds);
    drop(server);
    told
}

fn server_of_all(alloc: Global) -> Result<Server, AllocError> {
    let mut tree = Tree::new(alloc);
    for number in 0..MOST_RESOURCES {
        let text = below(alloc, number as u16)?;
        put(alloc, &mut tree, &text, b"")?;
    }
    revoking_server(alloc, tree, REVOKED)
}

// A path below, which stands for no token of those that have contexts.
fn below(alloc: Global, number: u16) -> Result<Vec<u8>, AllocError> {
    let mut text = Vec::from_slice(alloc, REVOKED)?;
    let id = format!(in alloc; "/f{number:03x}")?;
    text.extend_from_slice(id.as_bytes())?;
    Ok(text)
}

fn hears_with_contexts(
    alloc: Global,
    server: &mut Server,
    datagram: &[u8],
    rounds: u32,
) -> Result<u64, AllocError> {
    for id in 1..=IDS {
        post(alloc, server, id, id)?;
    }
    for id in 1..=IDS {
        confirm(alloc, server, id)?;
    }
    for id in 1..=IDS {
        post(alloc, server, id, IDS + id)?;
    }
    hears_again(alloc, server, datagram, rounds)
}

// Posts the token of this id, where this byte is drawn.
fn post(alloc: Global, server: &mut Server, id: u8, drawn: u8) -> Result<(), AllocError> {
    let datagram = token_post(alloc, id as u16)?;
    let step = answer(
        alloc,
        server,
        Moment::START,
        [drawn; 32],
        datagram.as_slice(),
    );
    drop(datagram);
    let step = step?;
    drop(step);
    Ok(())
}

// The first request under the context of this id, which is confirmed by it.
fn confirm(alloc: Global, server: &mut Server, id: u8) -> Result<(), AllocError> {
    let requests = requests_under(alloc, id, Method::Get)?;
    let served = serve_first(alloc, server, &requests);
    drop(requests);
    served
}

fn serve_first(alloc: Global, server: &mut Server, requests: &[Bytes]) -> Result<(), AllocError> {
    if let Some(request) = requests.first() {
        let step = answer(alloc, server, Moment::START, [0; 32], request.as_slice())?;
        drop(step);
    }
    Ok(())
}
