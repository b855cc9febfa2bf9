//! What is forwarded, and what isn't.

use crate::stage::Event::Comes;
use crate::stage::{Row, first_code, goes_from_new, request};
use osc_fixtures::{CLIENT, SERVER, proxy};
use osc_proxy::Proxy;
use std::alloc::{AllocError, Global};
use std::process::Abort;
use std::test::*;

/// Requests, one after another at one proxy.
const ASKED: [Row<'static>; 19] = [
    // Forwarded: by Proxy-Uri; by Proxy-Scheme; and with the port.
    (
        0,
        Comes(CLIENT, b"\x40\x01\0\x01\xb1e\xd9\x0bcoap://s/"),
        &[
            (CLIENT, b"\x60\0\0\x01"),
            (SERVER, b"\x48\x01\x01\0\0\0\0\0\0\0\0\0"),
        ],
    ),
    (
        0,
        Comes(CLIENT, b"\x50\x01\0\x02\x31s\x81e\xd4\x0fcoap"),
        &[(SERVER, b"\x58\x01\x01\x01\x01\0\0\0\0\0\0\0\x31s\x81e")],
    ),
    (
        0,
        Comes(CLIENT, b"\x50\x01\0\x03\x31s\x42\x16\x33\x41e\xd4\x0fcoap"),
        &[(SERVER, b"\x58\x01\x01\x02\x02\0\0\0\0\0\0\0\x31s\x81e")],
    ),
    // With options that nobody here knows and that are safe to forward; and with a payload.
    (
        0,
        Comes(
            CLIENT,
            b"\x50\x01\0\x04\x31s\x81e\xd1\0\xaa\x11\xbb\xd4\x01coap",
        ),
        &[(
            SERVER,
            b"\x58\x01\x01\x03\x03\0\0\0\0\0\0\0\x31s\x81e\xd1\0\xaa\x11\xbb",
        )],
    ),
    (
        0,
        Comes(
            CLIENT,
            b"\x52\x03\0\x05\xaa\xbb\x31s\x81e\xd4\x0fcoap\xff\x01\x02",
        ),
        &[(
            SERVER,
            b"\x58\x03\x01\x04\x04\0\0\0\0\0\0\0\x31s\x81e\xff\x01\x02",
        )],
    ),
    // To a host in capital letters.
    (
        0,
        Comes(CLIENT, b"\x50\x01\0\x06\x31S\x81e\xd4\x0fcoap"),
        &[(SERVER, b"\x58\x01\x01\x05\x05\0\0\0\0\0\0\0\x31S\x81e")],
    ),
    // Refused: an option that nobody here knows and that is unsafe to forward.
    (
        0,
        Comes(CLIENT, b"\x40\x01\0\x10\x20\x11\x73\x81e\xd4\x0fcoap"),
        &[(CLIENT, b"\x60\x82\0\x10")],
    ),
    // No proxy is named.
    (
        0,
        Comes(CLIENT, b"\x40\x01\0\x11\xb1e"),
        &[(CLIENT, b"\x60\x84\0\x11")],
    ),
    // Another scheme, another host, and another port.
    (
        0,
        Comes(CLIENT, b"\x40\x01\0\x12\x31s\xd5\x17coaps"),
        &[(CLIENT, b"\x60\xa5\0\x12")],
    ),
    (
        0,
        Comes(CLIENT, b"\x40\x01\0\x13\x31t\x81e\xd4\x0fcoap"),
        &[(CLIENT, b"\x60\xa5\0\x13")],
    ),
    (
        0,
        Comes(CLIENT, b"\x40\x01\0\x14\x31s\x42\x16\x34\x41e\xd4\x0fcoap"),
        &[(CLIENT, b"\x60\xa5\0\x14")],
    ),
    // No host; a port of no bytes; and a Proxy-Uri with a path.
    (
        0,
        Comes(CLIENT, b"\x40\x01\0\x15\xd4\x1acoap"),
        &[(CLIENT, b"\x60\xa5\0\x15")],
    ),
    (
        0,
        Comes(CLIENT, b"\x40\x01\0\x16\x31s\x40\x41e\xd4\x0fcoap"),
        &[(CLIENT, b"\x60\xa5\0\x16")],
    ),
    (
        0,
        Comes(CLIENT, b"\x40\x01\0\x17\xda\x16coap://s/e"),
        &[(CLIENT, b"\x60\xa5\0\x17")],
    ),
    // No proxy is named, with a token, and in a message that isn't confirmable.
    (
        0,
        Comes(CLIENT, b"\x42\x01\0\x18\xaa\xbb\xb1e"),
        &[(CLIENT, b"\x62\x84\0\x18\xaa\xbb")],
    ),
    (
        0,
        Comes(CLIENT, b"\x50\x01\0\x19\xb1e"),
        &[(CLIENT, b"\x50\x84\x01\x06")],
    ),
    // Repeated: a confirmable request is answered by the same bytes, and isn't forwarded again; others are ignored.
    (
        0,
        Comes(CLIENT, b"\x40\x01\0\x01\xb1e\xd9\x0bcoap://s/"),
        &[(CLIENT, b"\x60\0\0\x01")],
    ),
    (
        0,
        Comes(CLIENT, b"\x50\x01\0\x02\x31s\x81e\xd4\x0fcoap"),
        &[],
    ),
    (
        0,
        Comes(CLIENT, b"\x40\x01\0\x11\xb1e"),
        &[(CLIENT, b"\x60\x84\0\x11")],
    ),
];

#[test]
fn requests(rt: HostRuntime) -> Result<(), Fail> {
    Ok(goes_from_new(&rt, rt.alloc(), &ASKED)?)
}

/// Whether none of `count` requests, each of its own message ID, is answered by 5.03.
fn takes(alloc: Global, proxy: &mut Proxy, first: u8, count: u8) -> bool {
    let mut taken = true;
    for id in 0..count {
        taken = first_code(alloc, proxy, CLIENT, &request(first, id)) != 0xa3 && taken;
    }
    taken
}

fn sixty_four(rt: &impl Abort, alloc: Global, proxy: &mut Proxy) {
    assert!(rt; takes(alloc, proxy, 0x50, 64));
    assert!(rt; proxy.open_exchanges() == 64);
    assert!(rt; !takes(alloc, proxy, 0x50, 65));
    assert!(rt; first_code(alloc, proxy, CLIENT, &request(0x40, 65)) == 0xa3);
    assert!(rt; proxy.open_exchanges() == 64);
}

/// 64 exchanges are open at most.
#[test]
fn sixty_five_exchanges(rt: HostRuntime) -> Result<(), Fail> {
    let mut proxy = proxy(rt.alloc())?;
    sixty_four(&rt, rt.alloc(), &mut proxy);
    drop(proxy);
    Ok(())
}

fn seventeen(rt: &impl Abort, alloc: Global, proxy: &mut Proxy) {
    assert!(rt; takes(alloc, proxy, 0x40, 17));
    assert!(rt; first_code(alloc, proxy, CLIENT, &request(0x40, 17)) == 0xa3);
    assert!(rt; proxy.open_exchanges() == 17);
    assert!(rt; proxy.open_messages() == 17);
}

/// To one target one confirmable message is outstanding and 16 wait.
#[test]
fn eighteen_confirmable_requests(rt: HostRuntime) -> Result<(), Fail> {
    let mut proxy = proxy(rt.alloc())?;
    seventeen(&rt, rt.alloc(), &mut proxy);
    drop(proxy);
    Ok(())
}

/// A request for `s` with this number of bytes of payload.
fn long_request(alloc: Global, id: u8, payload: usize) -> Result<Vec<u8>, AllocError> {
    let mut bytes = Vec::new(alloc);
    bytes.extend_from_slice(&request(0x50, id))?;
    bytes.push(0xff)?;
    for _ in 0..payload {
        bytes.push(b'a')?;
    }
    Ok(bytes)
}

fn longest(rt: &impl Abort, alloc: Global, proxy: &mut Proxy, takes: &[u8], refuses: &[u8]) {
    assert!(rt; first_code(alloc, proxy, CLIENT, takes) == 1);
    assert!(rt; first_code(alloc, proxy, CLIENT, refuses) == 0x8d);
    assert!(rt; proxy.open_exchanges() == 1);
}

/// The forwarded message has 8 bytes of token more and 6 bytes of Proxy-Scheme less: with 1137 bytes of payload it has 1152.
#[test]
fn forwarded_messages_of_1152_bytes_and_of_1153(rt: HostRuntime) -> Result<(), Fail> {
    let mut proxy = proxy(rt.alloc())?;
    let fits = long_request(rt.alloc(), 1, 1137).expect(&rt, "memory");
    let longer = long_request(rt.alloc(), 2, 1138).expect(&rt, "memory");
    longest(&rt, rt.alloc(), &mut proxy, &fits, &longer);
    drop(proxy);
    Ok(())
}
