//! Floods: what those at a server and at a proxy have in common, and the valid datagrams that a harness alters.

use crate::protected::requests_under;
use crate::tokens::first_post;
use osc_authz::ClientDesk;
use osc_ccm::Ccm;
use osc_fixtures::{KEY, Right, SERVER, claims, drawn, own, place};
use osc_model::{Algorithm, Bytes, Draw, Method, Moment, Peer, Step};
use osc_token::{Claims, MintError, mint};
use std::alloc::{AllocError, Global};

/// Writes a valid datagram: number 0 is the second request of the client that `osc_bench_flood_server` serves, a protected GET; each other one
/// posts a token of its own to authz-info, whose id is the number's two bytes, and that of 65,535 has a scope of 163 subtrees. Answers how many bytes it
/// has; 0 for lack of memory or room.
#[unsafe(no_mangle)]
pub extern "C" fn osc_bench_flood_valid(alloc: Global, number: u16, out: &mut [u8]) -> u64 {
    match valid(alloc, number) {
        Ok(datagram) => {
            let length = written(datagram.as_slice(), out);
            drop(datagram);
            length
        }
        Err(_) => 0,
    }
}

// GET and POST on `/log`.
const SCOPE: &[u8] = b"\x81\x82\x64/log\x03";

// The token of the client that is served. Its secret and its nonce are that byte over and over.
pub(crate) const SERVED: u8 = 1;

// The size of the block that marks where a call begins or ends. Nothing else takes one of this size.
const MARK: usize = 65521;

// How many datagrams come in a millisecond.
const PACE: u32 = 10;

// The token that has a scope of many subtrees, and how many.
const MANY: u16 = 65535;

const SUBTREES: u8 = 163;

// A tick comes after this number of datagrams: once in a second.
const EACH_TICK: u32 = 10_000;

/// Whether a tick comes before the datagram of this place.
pub(crate) fn ticks_at(place: u32) -> bool {
    place % EACH_TICK == 0
}

/// When the datagram of this place comes.
pub(crate) fn moment_of(place: u32) -> Moment {
    Moment {
        ms: (place / PACE) as u64,
    }
}

/// What is drawn for the datagram of this place.
pub(crate) fn draw_of(place: u32) -> Draw {
    drawn((place % 256) as u8)
}

/// Takes a block and gives it back, by which the harness knows where a call begins or ends.
pub(crate) fn mark(alloc: Global) -> Result<(), AllocError> {
    let block: Vec<u8> = Vec::with_capacity(alloc, MARK)?;
    drop(block);
    Ok(())
}

/// Marks the end of the call that gave this step. Whether the step sends anything.
pub(crate) fn ended(alloc: Global, step: Step) -> Result<bool, AllocError> {
    let marked = mark(alloc);
    let sends = !step.out.as_slice().is_empty();
    drop(step);
    match marked {
        Ok(()) => Ok(sends),
        Err(error) => Err(error),
    }
}

/// What is first in a flood: who sends, as a byte, a datagram after its length in two bytes, and the rest; none at the end.
pub(crate) fn first_in(flood: &[u8]) -> Option<(u8, &[u8], &[u8])> {
    let [from, high, low, rest @ ..] = flood else {
        return None;
    };
    let size = u16::from_be_bytes([*high, *low]) as usize;
    if rest.len() < size {
        return None;
    }
    let (datagram, behind) = rest.split_at(size);
    Some((*from, datagram, behind))
}

/// Where this byte's sender is: 255 is the server, behind a proxy its target.
pub(crate) fn origin(from: u8) -> Peer {
    if from == 255 { SERVER } else { place(from) }
}

fn valid(alloc: Global, number: u16) -> Result<Bytes, AllocError> {
    if number == 0 {
        second_request(alloc)
    } else {
        token_post(alloc, number)
    }
}

fn second_request(alloc: Global) -> Result<Bytes, AllocError> {
    let requests = requests_under(alloc, SERVED, Method::Get)?;
    let second = copy_of(alloc, &requests, 1);
    drop(requests);
    second
}

// A copy of the datagram of this place; no bytes where there is none.
fn copy_of(alloc: Global, datagrams: &[Bytes], place: usize) -> Result<Bytes, AllocError> {
    match datagrams.get(place) {
        Some(datagram) => Bytes::from_slice(alloc, datagram.as_slice()),
        None => Ok(Bytes::new(alloc)),
    }
}

/// The datagram that posts the token of this number.
pub(crate) fn token_post(alloc: Global, number: u16) -> Result<Bytes, AllocError> {
    let body = body_of(alloc, number)?;
    let datagram = post_of(alloc, number, &body);
    drop(body);
    datagram
}

// A confirmable post of this payload to authz-info, whose message ID is the number.
fn post_of(alloc: Global, number: u16, body: &[u8]) -> Result<Bytes, AllocError> {
    let [high, low] = number.to_be_bytes();
    let mut datagram = Vec::from_slice(alloc, &[0x44, 2, high, low, 1, 2, 3, 4])?;
    datagram.extend_from_slice(b"\xbaauthz-info\x11\x13\xff")?;
    datagram.extend_from_slice(body)?;
    Ok(Bytes::from_vec(datagram))
}

// What the post of this token carries.
fn body_of(alloc: Global, number: u16) -> Result<Vec<u8>, AllocError> {
    let desk = desk_of(alloc, number)?;
    let body = first_post(alloc, &desk, right_of(number).client);
    drop(desk);
    body
}

// What the token of this number gives, for ever. The secret is told by the number's last byte.
fn right_of(number: u16) -> Right {
    let [_, low] = number.to_be_bytes();
    own(low, SCOPE)
}

fn desk_of(alloc: Global, number: u16) -> Result<ClientDesk, AllocError> {
    let token = token_of(alloc, number)?;
    let secret = Bytes::from_slice(alloc, &[right_of(number).secret; 16])?;
    match ClientDesk::new(
        token,
        secret,
        Bytes::new(alloc),
        None,
        Algorithm::EightByteTag,
    ) {
        Ok(desk) => Ok(desk),
        Err(_) => Err(AllocError),
    }
}

fn token_of(alloc: Global, number: u16) -> Result<Bytes, AllocError> {
    let claims = claims_of(alloc, number)?;
    let token = minted(alloc, &claims, number);
    drop(claims);
    token
}

fn claims_of(alloc: Global, number: u16) -> Result<Claims, AllocError> {
    let mut claims = claims(alloc, right_of(number))?;
    claims.material.id = Bytes::from_slice(alloc, &number.to_be_bytes())?;
    if number == MANY {
        claims.scope = many_subtrees(alloc)?;
    }
    Ok(claims)
}

// GET on a path of two letters and on each below it, once for each of `SUBTREES` paths.
fn many_subtrees(alloc: Global) -> Result<Bytes, AllocError> {
    let mut scope = Vec::from_slice(alloc, &[0x98, SUBTREES])?;
    for number in 0..SUBTREES {
        scope.extend_from_slice(&[
            0x82,
            0x63,
            b'/',
            b'a' + number / 16,
            b'a' + number % 16,
            0x11,
        ])?;
    }
    Ok(Bytes::from_vec(scope))
}

// The claims under the server's key, and an IV that ends in the number.
fn minted(alloc: Global, claims: &Claims, number: u16) -> Result<Bytes, AllocError> {
    let [high, low] = number.to_be_bytes();
    let iv = [0, 0, 0, 0, 0, 0, 0, 0, 0, 0, 0, high, low];
    let mut token = Vec::new(alloc);
    match mint::<Ccm<8>>(alloc, claims, &KEY, &iv, &mut token) {
        Err(MintError::Memory) => Err(AllocError),
        _ => Ok(Bytes::from_vec(token)),
    }
}

// Writes the bytes at the beginning of `out`. How many; 0 where there is no room for them.
fn written(bytes: &[u8], out: &mut [u8]) -> u64 {
    if bytes.len() > out.len() {
        return 0;
    }
    out[..bytes.len()].copy_from_slice(bytes);
    bytes.len() as u64
}
