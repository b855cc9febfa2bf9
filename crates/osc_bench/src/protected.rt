//! Protected requests served.

ghost use Rattle.std.specs.Prelude.{◌≡◌, ◌≤◌, None, IfOk};
ghost use Rattle.osc_model.specs.declared.context.Side.TheVariants.{Client};
ghost use Rattle.osc_context.specs.{sender_of};

use crate::messages::answer;
use crate::protection::seal_next;
use crate::tokens::post_of;
use osc_coap::MessageRef;
use osc_context::{SenderContext, derive, joined_salt};
use osc_fixtures::{empty_server, sent, shared_name};
use osc_model::{Bytes, Method, Moment, Path, SharedName, Side, Step};
use osc_options::request_of_message;
use osc_protect::Draft;
use osc_server::Server;
use osc_tree::Tree;
use std::alloc::{AllocError, Global};

/// Serves `rounds` protected GETs of a resource of 64 bytes, at most 4,608, by a server that holds `contexts` contexts, at most 64:
/// tokens of that number of ids were posted to it, and the requests are under the context of the last one. Answers how many bytes
/// the protected replies have in all; 0 for lack of memory, and where the resource doesn't have 64 bytes in the end.
///
/// Whatever `rounds` is, 4,609 requests are protected first, and the first one, a POST that makes the resource, is served.
#[unsafe(no_mangle)]
pub extern "C" fn osc_bench_serve_gets(alloc: Global, contexts: u8, rounds: u16) -> u64 {
    bytes_served(alloc, contexts, Method::Get, rounds)
}

/// As `osc_bench_serve_gets`, but for what is asked: POSTs of 64 bytes, which are appended to the resource, and a DELETE
/// of it after each eighth of them, since a resource has at most 512 bytes. In the end the resource has to have what was
/// posted after the last DELETE.
#[unsafe(no_mangle)]
pub extern "C" fn osc_bench_serve_posts(alloc: Global, contexts: u8, rounds: u16) -> u64 {
    bytes_served(alloc, contexts, Method::Post, rounds)
}

/// Serves `rounds` forged requests, at most 4,608, by a server that holds one context: POSTs of 64 bytes and DELETEs, as
/// `osc_bench_serve_posts` asks, each under a number of its own and with a bit of its tag turned over. Answers how many bytes the
/// refusals have in all, which aren't protected; 0 for lack of memory, and where the resource doesn't have 64 bytes in the end.
///
/// Whatever `rounds` is, 4,609 requests are protected first, and the first one, a POST that makes the resource, is served as it is.
#[unsafe(no_mangle)]
pub extern "C" fn osc_bench_serve_forged(alloc: Global, rounds: u16) -> u64 {
    match empty_server(alloc) {
        Ok(mut server) => {
            let sent = refuse_under_first(alloc, &mut server, rounds);
            drop(server);
            sent.unwrap_or(0)
        }
        Err(_) => 0,
    }
}

// How many requests are served at most.
const MOST_ROUNDS: u16 = 4608;

// How many bytes a POST carries.
const PAYLOAD: usize = 64;

fn bytes_served(alloc: Global, contexts: u8, asked: Method, rounds: u16) -> u64 {
    match empty_server(alloc) {
        Ok(mut server) => {
            let sent = serve_under_last(alloc, &mut server, contexts, asked, rounds);
            drop(server);
            sent.unwrap_or(0)
        }
        Err(_) => 0,
    }
}

// Posts `contexts` tokens, protects the requests under the context of the last one, and serves `rounds` of them.
fn serve_under_last(
    alloc: Global,
    server: &mut Server,
    contexts: u8,
    asked: Method,
    rounds: u16,
) -> Result<u64, AllocError> {
    for id in 1..=contexts {
        post(alloc, server, id)?;
    }
    let requests = requests_under(alloc, contexts, asked)?;
    let sent = serve_some(alloc, server, &requests, asked, rounds.min(MOST_ROUNDS));
    drop(requests);
    sent
}

// Posts the token of this id.
fn post(alloc: Global, server: &mut Server, id: u8) -> Result<(), AllocError> {
    let datagram = post_datagram(alloc, id)?;
    let step = answer(alloc, server, Moment::START, [id; 32], &datagram)?;
    drop(step);
    Ok(())
}

// A post of the token of this id to authz-info; the ID ends in that byte.
fn post_datagram(alloc: Global, id: u8) -> Result<Vec<u8>, AllocError> {
    let body = post_of(alloc, id)?;
    let mut datagram = Vec::from_slice(alloc, &[0x44, 2, 0xff, id, 1, 2, 3, 4])?;
    datagram.extend_from_slice(b"\xbaauthz-info\x11\x13\xff")?;
    datagram.extend_from_slice(&body)?;
    Ok(datagram)
}

// The name of the context that the post of this token id makes where those of the ids from 1 on were posted before: the server takes
// the least recipient ID that is free and isn't the client's, which is 0.
fn name_of(alloc: Global, id: u8) -> Result<SharedName, AllocError>
    ensures { IfOk result (λ name. name.id_context ≡ None) }
{
    let salt = joined_salt(alloc, &[], &[id; 8], &[id; 8])?;
    shared_name(alloc, &[id; 16], salt.as_slice(), &[id], &[0])
}

// The requests, protected under the context of this token id.
pub(crate) fn requests_under(
    alloc: Global,
    id: u8,
    asked: Method,
) -> Result<Vec<Bytes>, AllocError> {
    let name = name_of(alloc, id)?;
    let requests = requests_of(alloc, &name, asked);
    drop(name);
    requests
}

fn requests_of(alloc: Global, name: &SharedName, asked: Method) -> Result<Vec<Bytes>, AllocError>
    requires { name.now.id_context ≡ None }
{
    match derive(alloc, name, Side::Client) {
        Ok((mut sender, _)) => protect_all(alloc, name, &mut sender, asked),
        Err(_) => Ok(Vec::new(alloc)),
    }
}

// The requests, each under the next number; its message ID is its place.
fn protect_all(
    alloc: Global,
    name: &SharedName,
    sender: &mut SenderContext,
    asked: Method,
) -> Result<Vec<Bytes>, AllocError>
    requires short { name.now.id_context ≡ None }
    requires sender { sender.old ≡ sender_of name.now Client sender.old.next }
{
    let mut requests = Vec::new(alloc);
    for place in 0..=MOST_ROUNDS {
        let method = method_at(asked, place);
        requests.push(protected_request(alloc, name, sender, method, place)?)?;
    }
    Ok(requests)
}

// What the request of this place asks: the first POST makes the resource.
fn method_at(asked: Method, place: u16) -> Method {
    match asked {
        Method::Get if place > 0 => Method::Get,
        _ if place % 9 == 8 => Method::Delete,
        _ => Method::Post,
    }
}

// The request of this message ID under the next number; no bytes where there is no number left.
fn protected_request(
    alloc: Global,
    name: &SharedName,
    sender: &mut SenderContext,
    method: Method,
    id: u16,
) -> Result<Bytes, AllocError>
    requires short { name.now.id_context ≡ None }
    requires sender { sender.old ≡ sender_of name.now Client sender.old.next }
    ensures { sender.new ≡ sender_of name.now Client sender.new.next }
{
    let datagram = plain_request(alloc, method, id)?;
    match MessageRef::parse(&datagram) {
        Ok(message) => protected_bytes(alloc, name, sender, &message),
        Err(_) => Ok(Bytes::new(alloc)),
    }
}

fn protected_bytes(
    alloc: Global,
    name: &SharedName,
    sender: &mut SenderContext,
    message: &MessageRef<'_>,
) -> Result<Bytes, AllocError>
    requires short { name.now.id_context ≡ None }
    requires sender { sender.old ≡ sender_of name.now Client sender.old.next }
    ensures { sender.new ≡ sender_of name.now Client sender.new.next }
{
    let request = request_of_message(alloc, message)?;
    let mut draft = Draft::new();
    if seal_next(alloc, name, sender, message, &request, &mut draft)? {
        Bytes::from_slice(alloc, draft.message.bytes())
    } else {
        Ok(Bytes::new(alloc))
    }
}

// The request of this method and message ID on `/log`, which is to be protected.
fn plain_request(alloc: Global, method: Method, id: u16) -> Result<Vec<u8>, AllocError> {
    let [high, low] = id.to_be_bytes();
    let mut datagram = Vec::from_slice(alloc, &[0x44, method.code().0, high, low, 1, 2, 3, 4])?;
    datagram.extend_from_slice(b"\xb3log")?;
    if method == Method::Post {
        datagram.push(0xff)?;
        datagram.extend_from_slice(&[b'p'; PAYLOAD])?;
    }
    Ok(datagram)
}

// Serves the first request, and `rounds` of those after it. How many bytes the protected replies to those have; 0 where the
// resource doesn't have what was asked in the end.
fn serve_some(
    alloc: Global,
    server: &mut Server,
    requests: &[Bytes],
    asked: Method,
    rounds: u16,
) -> Result<u64, AllocError>
    requires { rounds ≤ MOST_ROUNDS }
{
    serve_places(alloc, server, requests, 0, 1)?;
    let sent = serve_places(alloc, server, requests, 1, rounds + 1)?;
    if stored(alloc, server)? == length_after(asked, rounds) {
        Ok(sent)
    } else {
        Ok(0)
    }
}

// Serves the requests of these places, a millisecond after one another. How many bytes the protected replies have.
fn serve_places(
    alloc: Global,
    server: &mut Server,
    requests: &[Bytes],
    start: u16,
    end: u16,
) -> Result<u64, AllocError> {
    let mut sent = 0u64;
    for place in start..end {
        if let Some(request) = requests.get(place as usize) {
            let now = Moment { ms: place as u64 };
            let step = answer(alloc, server, now, [0; 32], request.as_slice())?;
            sent = sent.wrapping_add(length_of_reply(step));
        }
    }
    Ok(sent)
}

// Posts a token, protects the requests under its context, and serves the first one and `rounds` forged ones.
fn refuse_under_first(alloc: Global, server: &mut Server, rounds: u16) -> Result<u64, AllocError> {
    post(alloc, server, 1)?;
    let requests = requests_under(alloc, 1, Method::Post)?;
    let sent = refuse_some(alloc, server, &requests, rounds.min(MOST_ROUNDS));
    drop(requests);
    sent
}

// Serves the first request, and `rounds` forgeries of those after it. How many bytes the refusals have; 0 where the resource doesn't
// have the payload of the first one in the end.
fn refuse_some(
    alloc: Global,
    server: &mut Server,
    requests: &[Bytes],
    rounds: u16,
) -> Result<u64, AllocError>
    requires { rounds ≤ MOST_ROUNDS }
{
    serve_places(alloc, server, requests, 0, 1)?;
    let forgeries = forgeries_of(alloc, requests)?;
    let sent = refuse_places(alloc, server, &forgeries, rounds);
    drop(forgeries);
    let sent = sent?;
    if stored(alloc, server)? == PAYLOAD {
        Ok(sent)
    } else {
        Ok(0)
    }
}

// The requests, each with the last bit of its tag turned over.
fn forgeries_of(alloc: Global, requests: &[Bytes]) -> Result<Vec<Bytes>, AllocError> {
    let mut forgeries = Vec::new(alloc);
    for request in requests {
        forgeries.push(forgery_of(alloc, request.as_slice())?)?;
    }
    Ok(forgeries)
}

// The request with its last bit turned over.
fn forgery_of(alloc: Global, request: &[u8]) -> Result<Bytes, AllocError> {
    let mut forgery = Vec::from_slice(alloc, request)?;
    if let Some(last) = forgery.last_mut() {
        *last ^= 1;
    }
    Ok(Bytes::from_vec(forgery))
}

// Serves `rounds` of the forgeries, from the second on, a millisecond after one another. How many bytes the refusals have.
fn refuse_places(
    alloc: Global,
    server: &mut Server,
    forgeries: &[Bytes],
    rounds: u16,
) -> Result<u64, AllocError>
    requires { rounds ≤ MOST_ROUNDS }
{
    let mut sent = 0u64;
    for place in 1..rounds + 1 {
        if let Some(forgery) = forgeries.get(place as usize) {
            let now = Moment { ms: place as u64 };
            let step = answer(alloc, server, now, [0; 32], forgery.as_slice())?;
            sent = sent.wrapping_add(length_of_refusal(step));
        }
    }
    Ok(sent)
}

// How many bytes the step sends, where that is a refusal of what isn't genuine.
fn length_of_refusal(step: Step) -> u64 {
    let bytes = sent(&step);
    let length = if is_refusal(bytes) { bytes.len() } else { 0 };
    drop(step);
    length as u64
}

// Whether this is an acknowledgement of 4.00 with the requests' token and, unprotected, a payload.
fn is_refusal(datagram: &[u8]) -> bool {
    matches!(datagram, [0x64, 0x80, _, _, 1, 2, 3, 4, 0xff, ..])
}

// How many bytes the step sends, where that is a protected reply.
pub(crate) fn length_of_reply(step: Step) -> u64 {
    let bytes = sent(&step);
    let length = if is_protected(bytes) { bytes.len() } else { 0 };
    drop(step);
    length as u64
}

// Whether this is an acknowledgement of 2.04 with the requests' token, an empty option OSCORE, and a payload.
fn is_protected(datagram: &[u8]) -> bool {
    matches!(datagram, [0x64, 0x44, _, _, 1, 2, 3, 4, 0x90, 0xff, ..])
}

// How many bytes the resource has; 0 where there is none.
fn stored(alloc: Global, server: &Server) -> Result<usize, AllocError> {
    let Some(path) = Path::from_text(alloc, b"/log")? else {
        return Ok(0);
    };
    Ok(length_at(server.tree(), &path))
}

fn length_at(tree: &Tree, path: &Path) -> usize {
    match tree.get(path) {
        Some(resource) => resource.payload.len(),
        None => 0,
    }
}

// How many bytes the resource has once `rounds` requests after the first one are served; 0 where there is none.
fn length_after(asked: Method, rounds: u16) -> usize
    requires { rounds ≤ MOST_ROUNDS }
{
    match asked {
        Method::Get => PAYLOAD,
        _ => PAYLOAD * ((rounds as usize + 1) % 9),
    }
}
