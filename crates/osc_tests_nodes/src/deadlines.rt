//! When the next tick of a proxy has to come.

use crate::stage::Event::{Comes, Tick};
use crate::stage::{ASKED, FORWARDED, Row, goes};
use osc_fixtures::{CLIENT, SERVER, proxy};
use osc_proxy::Proxy;
use std::alloc::Global;
use std::process::Abort;
use std::test::*;

/// What happens, one after another, and at how many ms the next tick has to come then, if at all.
const DUE: [(Row<'static>, Option<u64>); 11] = [
    // A confirmable request goes out at the start, and is due again 2 seconds later.
    (
        (
            0,
            Comes(CLIENT, ASKED),
            &[(CLIENT, b"\x60\0\0\x01"), (SERVER, FORWARDED)],
        ),
        Some(2_000),
    ),
    ((2_000, Tick, &[(SERVER, FORWARDED)]), Some(6_000)),
    // A second one to the same target waits; once the first is acknowledged it is due at any time, and then its own end and repeats
    // count.
    (
        (
            3_000,
            Comes(CLIENT, b"\x42\x01\0\x02\xcc\xdd\x31s\x81e\xd4\x0fcoap"),
            &[(CLIENT, b"\x60\0\0\x02")],
        ),
        Some(6_000),
    ),
    ((3_000, Comes(SERVER, b"\x60\0\x01\0"), &[]), Some(0)),
    (
        (
            3_000,
            Tick,
            &[(SERVER, b"\x48\x01\x01\x01\x01\0\0\0\0\0\0\0\x31s\x81e")],
        ),
        Some(5_000),
    ),
    // What was acknowledged is awaited for 247 seconds since it went out; nothing is due then until the answer to the client comes
    // again.
    (
        (3_000, Comes(SERVER, b"\x60\0\x01\x01"), &[]),
        Some(247_000),
    ),
    ((246_999, Tick, &[]), Some(247_000)),
    (
        (247_000, Tick, &[(CLIENT, b"\x42\xa4\x01\x02\xaa\xbb")]),
        Some(249_000),
    ),
    (
        (247_000, Comes(CLIENT, b"\x60\0\x01\x02"), &[]),
        Some(250_000),
    ),
    (
        (250_000, Tick, &[(CLIENT, b"\x42\xa4\x01\x03\xcc\xdd")]),
        Some(252_000),
    ),
    ((250_000, Comes(CLIENT, b"\x60\0\x01\x03"), &[]), None),
];

fn are_due(rt: &impl Abort, alloc: Global, proxy: &mut Proxy) {
    assert!(rt; proxy.next_deadline().is_none());
    for &(row, deadline) in &DUE {
        goes(rt, alloc, proxy, &[row]);
        assert!(rt; proxy.next_deadline() == deadline, "behind {row:?}");
    }
}

#[test]
fn next_deadlines(rt: HostRuntime) -> Result<(), Fail> {
    let mut proxy = proxy(rt.alloc())?;
    are_due(&rt, rt.alloc(), &mut proxy);
    drop(proxy);
    Ok(())
}
