//! What comes back, and what doesn't.

use crate::stage::Event::{Comes, Tick};
use crate::stage::{FORWARDED, FORWARDS, Row, first_code, goes, goes_from_new, request};
use osc_fixtures::{CLIENT, SERVER, STRANGER, proxy};
use osc_proxy::Proxy;
use std::alloc::{AllocError, Global};
use std::process::Abort;
use std::test::*;

/// The rows are so at a proxy that has forwarded a confirmable request.
fn goes_on(rt: &impl Abort, alloc: Global, rows: &[Row<'_>]) -> Result<(), AllocError> {
    let mut proxy = proxy(alloc)?;
    goes(rt, alloc, &mut proxy, &FORWARDS);
    goes(rt, alloc, &mut proxy, rows);
    drop(proxy);
    Ok(())
}

/// Responses in acknowledgements.
const IN_ACKNOWLEDGEMENTS: [Row<'static>; 8] = [
    // From another peer, with another token, with another message ID: none counts.
    (
        0,
        Comes(STRANGER, b"\x68\x45\x01\0\0\0\0\0\0\0\0\0\xff1"),
        &[],
    ),
    (
        0,
        Comes(STRANGER, b"\x48\x45\0\x07\0\0\0\0\0\0\0\0\xff1"),
        &[(STRANGER, b"\x70\0\0\x07")],
    ),
    (
        0,
        Comes(SERVER, b"\x58\x45\0\x08\x01\0\0\0\0\0\0\0\xff1"),
        &[],
    ),
    (
        0,
        Comes(SERVER, b"\x48\x45\0\x09\x01\0\0\0\0\0\0\0\xff1"),
        &[(SERVER, b"\x70\0\0\x09")],
    ),
    (
        0,
        Comes(SERVER, b"\x68\x45\x01\x01\0\0\0\0\0\0\0\0\xff1"),
        &[],
    ),
    // With the client's token, and a message ID of the proxy's own; once.
    (
        0,
        Comes(SERVER, b"\x68\x45\x01\0\0\0\0\0\0\0\0\0\xff1"),
        &[(CLIENT, b"\x42\x45\x01\x01\xaa\xbb\xff1")],
    ),
    (
        0,
        Comes(SERVER, b"\x68\x45\x01\0\0\0\0\0\0\0\0\0\xff1"),
        &[],
    ),
    (0, Comes(CLIENT, b"\x60\0\x01\x01"), &[]),
];

#[test]
fn responses_in_acknowledgements(rt: HostRuntime) -> Result<(), Fail> {
    Ok(goes_on(&rt, rt.alloc(), &IN_ACKNOWLEDGEMENTS)?)
}

/// A response in a message of its own, which is acknowledged each time and goes back once.
const APART: [Row<'static>; 3] = [
    (0, Comes(SERVER, b"\x60\0\x01\0"), &[]),
    (
        0,
        Comes(SERVER, b"\x48\x45\0\x42\0\0\0\0\0\0\0\0\xff1"),
        &[
            (SERVER, b"\x60\0\0\x42"),
            (CLIENT, b"\x42\x45\x01\x01\xaa\xbb\xff1"),
        ],
    ),
    (
        0,
        Comes(SERVER, b"\x48\x45\0\x42\0\0\0\0\0\0\0\0\xff1"),
        &[(SERVER, b"\x60\0\0\x42")],
    ),
];

#[test]
fn responses_in_messages_of_their_own(rt: HostRuntime) -> Result<(), Fail> {
    Ok(goes_on(&rt, rt.alloc(), &APART)?)
}

/// A Reset, of which a stranger's counts for nothing: 5.02, once.
const REJECTED: [Row<'static>; 3] = [
    (0, Comes(STRANGER, b"\x70\0\x01\0"), &[]),
    (
        0,
        Comes(SERVER, b"\x70\0\x01\0"),
        &[(CLIENT, b"\x42\xa2\x01\x01\xaa\xbb")],
    ),
    (0, Comes(SERVER, b"\x70\0\x01\0"), &[]),
];

#[test]
fn resets(rt: HostRuntime) -> Result<(), Fail> {
    Ok(goes_on(&rt, rt.alloc(), &REJECTED)?)
}

/// Also a Reset of what was acknowledged before: 5.02.
const REJECTED_LATE: [Row<'static>; 2] = [
    (0, Comes(SERVER, b"\x60\0\x01\0"), &[]),
    (
        0,
        Comes(SERVER, b"\x70\0\x01\0"),
        &[(CLIENT, b"\x42\xa2\x01\x01\xaa\xbb")],
    ),
];

#[test]
fn resets_behind_acknowledgements(rt: HostRuntime) -> Result<(), Fail> {
    Ok(goes_on(&rt, rt.alloc(), &REJECTED_LATE)?)
}

/// A response with an option that nobody here knows and that is unsafe to forward: 5.02.
const UNSAFE: [Row<'static>; 1] = [(
    0,
    Comes(SERVER, b"\x68\x45\x01\0\0\0\0\0\0\0\0\0\x20"),
    &[(CLIENT, b"\x42\xa2\x01\x01\xaa\xbb")],
)];

#[test]
fn responses_that_cannot_be_forwarded(rt: HostRuntime) -> Result<(), Fail> {
    Ok(goes_on(&rt, rt.alloc(), &UNSAFE)?)
}

/// A request that nobody acknowledges is retransmitted four times, and given up 62 seconds after it went out.
const GIVEN_UP: [Row<'static>; 7] = [
    (1_999, Tick, &[]),
    (2_000, Tick, &[(SERVER, FORWARDED)]),
    (6_000, Tick, &[(SERVER, FORWARDED)]),
    (14_000, Tick, &[(SERVER, FORWARDED)]),
    (30_000, Tick, &[(SERVER, FORWARDED)]),
    (61_999, Tick, &[]),
    (62_000, Tick, &[(CLIENT, b"\x42\xa4\x01\x01\xaa\xbb")]),
];

#[test]
fn requests_that_nobody_acknowledges(rt: HostRuntime) -> Result<(), Fail> {
    Ok(goes_on(&rt, rt.alloc(), &GIVEN_UP)?)
}

/// Once a request was acknowledged its answer is awaited for 247 seconds.
const UNANSWERED: [Row<'static>; 4] = [
    (0, Comes(SERVER, b"\x60\0\x01\0"), &[]),
    (2_000, Tick, &[]),
    (246_999, Tick, &[]),
    (247_000, Tick, &[(CLIENT, b"\x42\xa4\x01\x01\xaa\xbb")]),
];

#[test]
fn requests_that_nobody_answers(rt: HostRuntime) -> Result<(), Fail> {
    Ok(goes_on(&rt, rt.alloc(), &UNANSWERED)?)
}

/// A request that isn't confirmable is neither acknowledged nor retransmitted, and gets an answer of its kind.
const NON_CONFIRMABLE: [Row<'static>; 7] = [
    (
        0,
        Comes(CLIENT, b"\x52\x01\0\x01\xaa\xbb\x31s\x81e\xd4\x0fcoap"),
        &[(SERVER, b"\x58\x01\x01\0\0\0\0\0\0\0\0\0\x31s\x81e")],
    ),
    (0, Comes(SERVER, b"\x70\0\x01\0"), &[]),
    (246_999, Tick, &[]),
    (247_000, Tick, &[(CLIENT, b"\x52\xa4\x01\x01\xaa\xbb")]),
    (494_000, Tick, &[]),
    (
        494_000,
        Comes(CLIENT, b"\x52\x01\0\x02\xaa\xbb\x31s\x81e\xd4\x0fcoap"),
        &[(SERVER, b"\x58\x01\x01\x02\0\0\0\0\0\0\0\0\x31s\x81e")],
    ),
    (
        494_000,
        Comes(SERVER, b"\x58\x45\0\x43\0\0\0\0\0\0\0\0\xff1"),
        &[(CLIENT, b"\x52\x45\x01\x03\xaa\xbb\xff1")],
    ),
];

#[test]
fn requests_that_are_not_confirmable(rt: HostRuntime) -> Result<(), Fail> {
    Ok(goes_from_new(&rt, rt.alloc(), &NON_CONFIRMABLE)?)
}

/// A second confirmable request waits until the first is acknowledged; its 247 seconds count from when it came all the same.
const IN_TURN: [Row<'static>; 8] = [
    (
        0,
        Comes(CLIENT, b"\x42\x01\0\x02\xcc\xdd\x31s\x81e\xd4\x0fcoap"),
        &[(CLIENT, b"\x60\0\0\x02")],
    ),
    (0, Comes(SERVER, b"\x60\0\x01\0"), &[]),
    (
        1_000,
        Tick,
        &[(SERVER, b"\x48\x01\x01\x01\x01\0\0\0\0\0\0\0\x31s\x81e")],
    ),
    (1_000, Comes(SERVER, b"\x60\0\x01\x01"), &[]),
    (246_999, Tick, &[]),
    (247_000, Tick, &[(CLIENT, b"\x42\xa4\x01\x02\xaa\xbb")]),
    (247_000, Comes(CLIENT, b"\x60\0\x01\x02"), &[]),
    (247_000, Tick, &[(CLIENT, b"\x42\xa4\x01\x03\xcc\xdd")]),
];

#[test]
fn requests_that_wait_for_their_turn(rt: HostRuntime) -> Result<(), Fail> {
    Ok(goes_on(&rt, rt.alloc(), &IN_TURN)?)
}

/// Nobody acknowledges the first request, and a second one waits after it. After 247 seconds without a tick both have ended, and neither is sent
/// to the target again, nor when that acknowledges them.
const OVER: [Row<'static>; 6] = [
    (
        0,
        Comes(CLIENT, b"\x42\x01\0\x02\xcc\xdd\x31s\x81e\xd4\x0fcoap"),
        &[(CLIENT, b"\x60\0\0\x02")],
    ),
    (247_000, Tick, &[(CLIENT, b"\x42\xa4\x01\x02\xaa\xbb")]),
    (247_000, Comes(SERVER, b"\x60\0\x01\0"), &[]),
    (247_000, Comes(CLIENT, b"\x60\0\x01\x02"), &[]),
    (247_000, Tick, &[(CLIENT, b"\x42\xa4\x01\x03\xcc\xdd")]),
    (248_000, Tick, &[]),
];

#[test]
fn what_is_over_is_sent_no_more(rt: HostRuntime) -> Result<(), Fail> {
    Ok(goes_on(&rt, rt.alloc(), &OVER)?)
}

/// A confirmable response to the first request that was forwarded counts for nothing.
const UNKNOWN: [Row<'static>; 1] = [(
    0,
    Comes(SERVER, b"\x48\x45\0\x42\0\0\0\0\0\0\0\0\xff1"),
    &[(SERVER, b"\x70\0\0\x42")],
)];

fn starts_again(rt: &impl Abort, alloc: Global, proxy: &mut Proxy) {
    proxy.restart();
    assert!(rt; proxy.open_exchanges() == 0);
    goes(rt, alloc, proxy, &UNKNOWN);
}

/// What was heard and forwarded is forgotten: a response counts for nothing, and the request is new.
#[test]
fn restarts(rt: HostRuntime) -> Result<(), Fail> {
    let mut proxy = proxy(rt.alloc())?;
    goes(&rt, rt.alloc(), &mut proxy, &FORWARDS);
    starts_again(&rt, rt.alloc(), &mut proxy);
    goes(&rt, rt.alloc(), &mut proxy, &FORWARDS);
    drop(proxy);
    Ok(())
}

/// Whether the request of this number, which is forwarded and answered, gets its answer back.
fn round(alloc: Global, proxy: &mut Proxy, number: u8) -> bool {
    let response = [0x58, 0x45, 4, number, 0, 0, 0, 0, 0, 0, 0, 0];
    let _code = first_code(alloc, proxy, CLIENT, &request(0x40, number));
    first_code(alloc, proxy, SERVER, &response) == 0x45
}

/// Whether none of the requests of these numbers gets its answer back.
fn none_back(alloc: Global, proxy: &mut Proxy, from: u8, to: u8) -> bool {
    let mut none = true;
    for number in from..to {
        none = !round(alloc, proxy, number) && none;
    }
    none
}

fn unacknowledged(rt: &impl Abort, alloc: Global, proxy: &mut Proxy) {
    assert!(rt; round(alloc, proxy, 0));
    assert!(rt; none_back(alloc, proxy, 1, 18));
    assert!(rt; proxy.open_messages() == 17);
    assert!(rt; proxy.open_exchanges() == 0);
}

/// A client that acknowledges nothing: the first answer is outstanding, 16 wait, and the next is dropped, with its exchange.
#[test]
fn answers_that_nobody_acknowledges(rt: HostRuntime) -> Result<(), Fail> {
    let mut proxy = proxy(rt.alloc())?;
    unacknowledged(&rt, rt.alloc(), &mut proxy);
    drop(proxy);
    Ok(())
}
