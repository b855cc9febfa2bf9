//! A proxy with one target, row by row of what happens at it and what it sends then.

use osc_fixtures::{CLIENT, SERVER, at, proxy};
use osc_model::{Draw, Moment, Peer, Step};
use osc_proxy::Proxy;
use std::alloc::{AllocError, Global};
use std::process::Abort;
use std::test::*;

/// Draws of zeros but for the ID of the first message, which is 0100: the tokens are a key and seven zeros, and the timeout is 2 seconds.
const DRAW: Draw = Draw([
    0, 0, 0, 0, 0, 0, 0, 0, 0, 0, 0, 0, 0, 0, 0, 0, 0, 0, 1, 0, 0, 0, 0, 0, 0, 0, 0, 0, 0, 0, 0, 0,
]);

/// What happens at a proxy.
#[derive(Clone, Copy, Debug)]
pub(crate) enum Event<'a> {
    /// These bytes come from there.
    Comes(Peer, &'a [u8]),
    Tick,
}

/// At how many ms something happens, and what; to whom the proxy sends which bytes then, in this order.
pub(crate) type Row<'a> = (u64, Event<'a>, &'a [(Peer, &'a [u8])]);

/// A confirmable request for `s`.
pub(crate) const ASKED: &[u8] = b"\x42\x01\0\x01\xaa\xbb\x31s\x81e\xd4\x0fcoap";

/// What a proxy forwards of it.
pub(crate) const FORWARDED: &[u8] = b"\x48\x01\x01\0\0\0\0\0\0\0\0\0\x31s\x81e";

/// It is acknowledged and forwarded.
pub(crate) const FORWARDS: [Row<'static>; 1] = [(
    0,
    Event::Comes(CLIENT, ASKED),
    &[(CLIENT, b"\x60\0\0\x01"), (SERVER, FORWARDED)],
)];

/// The request of this kind and message ID for `s`.
pub(crate) fn request(first: u8, id: u8) -> [u8; 12] {
    [
        first, 1, 2, id, 0x31, b's', 0xd4, 0x17, b'c', b'o', b'a', b'p',
    ]
}

/// Whether the step sends these, in this order.
fn sends(step: Step, expected: &[(Peer, &[u8])]) -> bool {
    let out = step.out.as_slice();
    let mut same = out.len() == expected.len();
    for (sent, one) in out.iter().zip(expected.iter()) {
        same = same && sent.to == one.0 && sent.bytes.as_slice() == one.1;
    }
    drop(step);
    same
}

fn happens(
    alloc: Global,
    proxy: &mut Proxy,
    ms: u64,
    event: Event<'_>,
) -> Result<Step, AllocError> {
    match event {
        Event::Comes(from, bytes) => proxy.on_datagram(alloc, at(ms), from, bytes, &DRAW),
        Event::Tick => Ok(proxy.on_tick(alloc, at(ms), &DRAW)),
    }
}

/// Whether the row is so.
fn is_so(alloc: Global, proxy: &mut Proxy, row: &Row<'_>) -> bool {
    let (ms, event, expected) = row;
    match happens(alloc, proxy, *ms, *event) {
        Ok(step) => sends(step, expected),
        Err(_) => false,
    }
}

/// The same; what is refused memory happens again. What sends nothing is never refused any.
fn is_so_at_last(alloc: Global, proxy: &mut Proxy, row: &Row<'_>) -> bool {
    let (ms, event, expected) = row;
    match happens(alloc, proxy, *ms, *event) {
        Ok(step) => sends(step, expected),
        Err(_) => !expected.is_empty() && is_so(alloc, proxy, row),
    }
}

/// The rows are so, one after another.
pub(crate) fn goes(rt: &impl Abort, alloc: Global, proxy: &mut Proxy, rows: &[Row<'_>]) {
    for row in rows {
        assert!(rt; is_so(alloc, proxy, row), "at {row:?}");
    }
}

/// The same; what is refused memory happens again.
pub(crate) fn goes_at_last(rt: &impl Abort, alloc: Global, proxy: &mut Proxy, rows: &[Row<'_>]) {
    for row in rows {
        assert!(rt; is_so_at_last(alloc, proxy, row), "at {row:?}");
    }
}

/// The rows are so at a new proxy.
pub(crate) fn goes_from_new(
    rt: &impl Abort,
    alloc: Global,
    rows: &[Row<'_>],
) -> Result<(), AllocError> {
    let mut proxy = proxy(alloc)?;
    goes(rt, alloc, &mut proxy, rows);
    drop(proxy);
    Ok(())
}

/// The code of the first datagram that the proxy sends for bytes that come from there; 0 where it sends none.
pub(crate) fn first_code(alloc: Global, proxy: &mut Proxy, from: Peer, bytes: &[u8]) -> u8 {
    let step = proxy.on_datagram(alloc, Moment::START, from, bytes, &DRAW);
    let mut code = 0;
    if let Ok(step) = &step {
        if let [sent, ..] = step.out.as_slice() {
            if let [_, second, ..] = sent.bytes.as_slice() {
                code = *second;
            }
        }
    }
    drop(step);
    code
}
