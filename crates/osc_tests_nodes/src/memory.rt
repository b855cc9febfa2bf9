//! Each kind of event at a proxy, where an allocation is refused: nothing has changed then, and the same event is answered when it comes
//! again. What sends nothing is never refused.

use crate::stage::Event::{Comes, Tick};
use crate::stage::{ASKED, FORWARDED, FORWARDS, Row, goes_at_last};
use osc_fixtures::{CLIENT, SERVER, STRANGER, proxy};
use osc_proxy::Proxy;
use std::alloc::Global;
use std::process::Abort;
use std::test::*;

/// What is ignored, rejected, refused, and repeated.
const REFUSED: [Row<'static>; 4] = [
    (0, Comes(STRANGER, b"\x01"), &[]),
    (
        0,
        Comes(STRANGER, b"\x44\x01\0\x09\0"),
        &[(STRANGER, b"\x70\0\0\x09")],
    ),
    (
        0,
        Comes(CLIENT, b"\x40\x01\0\x11\xb1e"),
        &[(CLIENT, b"\x60\x84\0\x11")],
    ),
    (
        0,
        Comes(CLIENT, b"\x40\x01\0\x11\xb1e"),
        &[(CLIENT, b"\x60\x84\0\x11")],
    ),
];

/// A request that is forwarded was before these: it is repeated. One that is noted with nothing is repeated by nothing.
const REPEATED: [Row<'static>; 5] = [
    (0, Comes(CLIENT, ASKED), &[(CLIENT, b"\x60\0\0\x01")]),
    (
        0,
        Comes(CLIENT, b"\x52\x01\0\x03\xcc\xdd\x31s\x81e\xd4\x0fcoap"),
        &[(SERVER, b"\x58\x01\x01\x01\x01\0\0\0\0\0\0\0\x31s\x81e")],
    ),
    (0, Comes(CLIENT, b"\x42\x01\0\x03\xcc\xdd"), &[]),
    (1_999, Tick, &[]),
    (2_000, Tick, &[(SERVER, FORWARDED)]),
];

/// A response that doesn't count, and one that does.
const ANSWERED: [Row<'static>; 3] = [
    (
        2_000,
        Comes(STRANGER, b"\x58\x45\0\x08\0\0\0\0\0\0\0\0\xff1"),
        &[],
    ),
    (
        2_000,
        Comes(SERVER, b"\x48\x45\0\x42\0\0\0\0\0\0\0\0\xff1"),
        &[
            (SERVER, b"\x60\0\0\x42"),
            (CLIENT, b"\x42\x45\x01\x02\xaa\xbb\xff1"),
        ],
    ),
    (2_000, Comes(CLIENT, b"\x60\0\x01\x02"), &[]),
];

/// A forwarded request that is rejected, and one that nobody answers.
const ENDED: [Row<'static>; 6] = [
    (
        2_000,
        Comes(CLIENT, b"\x42\x01\0\x04\xaa\xbb\x31s\x81e\xd4\x0fcoap"),
        &[
            (CLIENT, b"\x60\0\0\x04"),
            (SERVER, b"\x48\x01\x01\x03\0\0\0\0\0\0\0\0\x31s\x81e"),
        ],
    ),
    (
        2_000,
        Comes(SERVER, b"\x70\0\x01\x03"),
        &[(CLIENT, b"\x42\xa2\x01\x04\xaa\xbb")],
    ),
    (2_000, Comes(CLIENT, b"\x60\0\x01\x04"), &[]),
    (246_999, Tick, &[]),
    (247_000, Tick, &[(CLIENT, b"\x52\xa4\x01\x05\xcc\xdd")]),
    (247_000, Tick, &[]),
];

fn goes_through_all(rt: &impl Abort, alloc: Global, proxy: &mut Proxy) {
    goes_at_last(rt, alloc, proxy, &REFUSED);
    goes_at_last(rt, alloc, proxy, &FORWARDS);
    goes_at_last(rt, alloc, proxy, &REPEATED);
    goes_at_last(rt, alloc, proxy, &ANSWERED);
    goes_at_last(rt, alloc, proxy, &ENDED);
}

#[test]
fn a_refused_allocation_of_a_proxy(rt: HostRuntime) -> Result<(), Fail> {
    let mut proxy = proxy(rt.alloc())?;
    goes_through_all(&rt, rt.alloc(), &mut proxy);
    drop(proxy);
    Ok(())
}
