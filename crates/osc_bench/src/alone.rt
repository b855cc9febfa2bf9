//! A client and a proxy by themselves, for what they keep.

use osc_authz::ClientDesk;
use osc_client::Client;
use osc_fixtures::{drawn, place, proxy, straight};
use osc_model::{Algorithm, Bytes, Moment};
use osc_proxy::Proxy;
use std::alloc::{AllocError, Global};

/// Makes a client with a token of 73 bytes, which posts it unless `posts` is 0. Answers how many messages are open then; 0 for lack of memory.
#[unsafe(no_mangle)]
pub extern "C" fn osc_bench_client(alloc: Global, posts: u8) -> u64 {
    match client_of(alloc) {
        Ok(mut client) => {
            let open = open_at(alloc, &mut client, posts != 0);
            drop(client);
            open.unwrap_or(0)
        }
        Err(_) => 0,
    }
}

/// Forwards this number of non-confirmable GETs, each from a peer of its own. Answers how many exchanges are open then; 0 for lack of memory.
#[unsafe(no_mangle)]
pub extern "C" fn osc_bench_forward(alloc: Global, requests: u8) -> u64 {
    match proxy(alloc) {
        Ok(mut proxy) => {
            let open = forward_all(alloc, &mut proxy, requests);
            drop(proxy);
            open.unwrap_or(0)
        }
        Err(_) => 0,
    }
}

// ---- the client

fn client_of(alloc: Global) -> Result<Client, AllocError> {
    let desk = desk_of(alloc)?;
    Client::new(alloc, desk, straight())
}

fn desk_of(alloc: Global) -> Result<ClientDesk, AllocError> {
    let token = Bytes::from_slice(alloc, &[b't'; 73])?;
    let secret = Bytes::from_slice(alloc, &[b's'; 16])?;
    match ClientDesk::new(
        token,
        secret,
        Bytes::new(alloc),
        None,
        Algorithm::EightByteTag,
    ) {
        Ok(desk) => Ok(desk),
        Err(_) => Err(AllocError),
    }
}

// How many messages are open.
fn open_at(alloc: Global, client: &mut Client, posts: bool) -> Result<u64, AllocError> {
    if posts {
        post(alloc, client)?;
    }
    Ok(client.open_messages() as u64)
}

fn post(alloc: Global, client: &mut Client) -> Result<(), AllocError> {
    let step = client.exchange(alloc, Moment::START, &drawn(1))?;
    drop(step);
    Ok(())
}

// ---- the proxy

// A GET of `/e` at the host `s`, whose message ID ends with a byte of its own.
const GET: [u8; 14] = *b"\x50\x01\x00\x00\x31s\x81e\xd4\x0fcoap";

// How many exchanges are open once these came.
fn forward_all(alloc: Global, proxy: &mut Proxy, requests: u8) -> Result<u64, AllocError> {
    for number in 0..requests {
        forward(alloc, proxy, number)?;
    }
    Ok(proxy.open_exchanges() as u64)
}

fn forward(alloc: Global, proxy: &mut Proxy, number: u8) -> Result<(), AllocError> {
    let mut datagram = GET;
    datagram[3] = number;
    let from = place(number);
    let step = proxy.on_datagram(alloc, Moment::START, from, &datagram, &drawn(number))?;
    drop(step);
    Ok(())
}
