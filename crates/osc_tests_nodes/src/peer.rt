//! Peers that several tests name, and their texts.
use osc_model::Peer;
use std::alloc::{AllocError, Global};

pub const PEER: Peer = Peer {
    address: [0, 0, 0, 0, 0, 0, 0, 0, 0, 0, 0xff, 0xff, 192, 0, 2, 1],
    scope: 0,
    port: 5683,
};

pub const OTHER_ADDRESS: Peer = Peer {
    address: [0, 0, 0, 0, 0, 0, 0, 0, 0, 0, 0xff, 0xff, 192, 0, 2, 2],
    scope: 0,
    port: 5683,
};

pub const OTHER_PORT: Peer = Peer {
    address: [0, 0, 0, 0, 0, 0, 0, 0, 0, 0, 0xff, 0xff, 192, 0, 2, 1],
    scope: 0,
    port: 5684,
};

fn is_written(alloc: Global, peer: Peer, text: &str) -> Result<bool, AllocError> {
    Ok(peer.to_string(alloc)?.as_str() == text)
}

/// RFC 5952 section 6, RFC 4007 section 11.
#[test]
fn peers_are_written(rt: HostRuntime) {
    let v4 = Peer::v4([192, 0, 2, 1], 5683);
    let v6 = Peer::v6(
        [0x20, 1, 0x0d, 0xb8, 0, 0, 0, 0, 0, 0, 0, 0, 0, 0, 0, 1],
        0,
        5683,
    );
    let local = Peer::v6(
        [0xfe, 0x80, 0, 0, 0, 0, 0, 0, 0, 0, 0, 0, 0, 0, 0, 1],
        3,
        61616,
    );
    let written = is_written(rt.alloc(), v4, "192.0.2.1:5683").expect(&rt, "memory");
    assert!(rt; written);
    let written = is_written(rt.alloc(), v6, "[2001:db8::1]:5683").expect(&rt, "memory");
    assert!(rt; written);
    let written = is_written(rt.alloc(), local, "[fe80::1%3]:61616").expect(&rt, "memory");
    assert!(rt; written);
}

/// RFC 5952 sections 4.2 and 5.
#[test]
fn zeros_and_mapped_addresses_are_written(rt: HostRuntime) {
    let written = is_written(rt.alloc(), Peer::v6([0; 16], 0, 0), "[::]:0").expect(&rt, "memory");
    assert!(rt; written);
    let mapped = Peer::v6(PEER.address, 0, 5683);
    let written = is_written(rt.alloc(), mapped, "192.0.2.1:5683").expect(&rt, "memory");
    assert!(rt; written);
}

/// RFC 4291 section 2.5.5.2.
#[test]
fn mapped_addresses_are_of_ipv4(rt: HostRuntime) {
    assert!(rt; Peer::v4([192, 0, 2, 1], 5683) == PEER);
    assert!(rt; PEER.octets() == Some([192, 0, 2, 1]));
    let zoned = Peer { scope: 1, ..PEER };
    assert!(rt; zoned.octets().is_none() && zoned != PEER);
}
