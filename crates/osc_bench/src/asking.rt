//! A client that asks.

ghost use Rattle.std.specs.Prelude.{◌<◌, IfOk};

use crate::messages::answer;
use crate::tokens::right_of;
use osc_ccm::Suite;
use osc_client::Client;
use osc_fixtures::{POST, SERVER, empty_server, request, sent, straight};
use osc_model::{Bytes, Draw, Moment, Request, Step};
use std::alloc::{AllocError, Global};

/// A client makes a context by an exchange with a server, and then asks `rounds` times: a POST of 64 bytes on `/log`, confirmable and
/// protected under the next number. What each opens is ended by a Reset of its message, so that the client may ask again. Answers how
/// many bytes it sent in all; 0 for lack of memory.
#[unsafe(no_mangle)]
pub extern "C" fn osc_bench_ask(alloc: Global, rounds: u64) -> u64 {
    match client_of(alloc) {
        Ok(mut client) => {
            let sent = ask_often(alloc, &mut client, rounds);
            drop(client);
            sent.unwrap_or(0)
        }
        Err(_) => 0,
    }
}

// How many bytes a request carries.
const PAYLOAD: usize = 64;

pub(crate) const DRAW: Draw = Draw([1; 32]);

// A client that was granted a token.
pub(crate) fn client_of(alloc: Global) -> Result<Client, AllocError> {
    osc_fixtures::client(alloc, right_of(1), straight())
}

// Makes a context, and asks `rounds` times. How many bytes the requests have.
fn ask_often(alloc: Global, client: &mut Client, rounds: u64) -> Result<u64, AllocError> {
    make_context(alloc, client)?;
    let request = request_of(alloc)?;
    let sent = ask_all(alloc, client, &request, rounds);
    drop(request);
    sent
}

// An exchange with a server of its own.
pub(crate) fn make_context(alloc: Global, client: &mut Client) -> Result<(), AllocError> {
    let post = client.exchange(alloc, Moment::START, &DRAW)?;
    let answered = served(alloc, sent(&post));
    drop(post);
    let answered = answered?;
    let heard = hear(alloc, client, answered.as_slice());
    drop(answered);
    heard
}

// What a new server answers.
fn served(alloc: Global, datagram: &[u8]) -> Result<Bytes, AllocError> {
    let mut server = empty_server(alloc)?;
    let step = answer(alloc, &mut server, Moment::START, [2; 32], datagram);
    drop(server);
    copied(alloc, step?)
}

// What the step sends, where that is one datagram.
fn copied(alloc: Global, step: Step) -> Result<Bytes, AllocError> {
    let bytes = Bytes::from_slice(alloc, sent(&step));
    drop(step);
    bytes
}

// The client hears the server's datagram.
fn hear(alloc: Global, client: &mut Client, datagram: &[u8]) -> Result<(), AllocError> {
    let step = client.on_datagram::<Suite>(alloc, Moment::START, SERVER, datagram)?;
    drop(step);
    Ok(())
}

pub(crate) fn request_of(alloc: Global) -> Result<Request, AllocError>
    ensures { IfOk result (λ request. 0 < request.code.0) }
{
    request(alloc, b"/log", POST, &[b'p'; PAYLOAD])
}

// Asks `rounds` times. How many bytes the requests have.
fn ask_all(
    alloc: Global,
    client: &mut Client,
    request: &Request,
    rounds: u64,
) -> Result<u64, AllocError>
    requires { 0 < request.now.code.0 }
{
    let mut sent = 0u64;
    for _ in 0..rounds {
        sent = sent.wrapping_add(ask_once(alloc, client, request)?);
    }
    Ok(sent)
}

// Asks, and ends what that opened. How many bytes the request has.
fn ask_once(alloc: Global, client: &mut Client, request: &Request) -> Result<u64, AllocError>
    requires { 0 < request.now.code.0 }
{
    let step = client.ask::<Suite>(alloc, Moment::START, request, &DRAW)?;
    let (length, reset) = sent_by(step);
    hear(alloc, client, &reset)?;
    Ok(length)
}

// How many bytes the step sends, and what resets the message; where it sends nothing, none and the Reset of the message 0.
fn sent_by(step: Step) -> (u64, [u8; 4]) {
    let bytes = sent(&step);
    let told = (bytes.len() as u64, reset_of(bytes));
    drop(step);
    told
}

// What resets this message.
fn reset_of(datagram: &[u8]) -> [u8; 4] {
    match datagram {
        [_, _, high, low, ..] => [0x70, 0, *high, *low],
        _ => [0x70, 0, 0, 0],
    }
}
