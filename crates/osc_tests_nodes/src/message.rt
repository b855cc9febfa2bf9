//! Rooms in which a node sends, datagrams in their order, and the first moment.
use crate::peer::{OTHER_ADDRESS, PEER};
use osc_message::{MessageRoom, Outbox, ReplyRoom};
use osc_model::{Bytes, Datagram, Datagrams, Moment};
use std::alloc::{AllocError, Global};

#[test]
fn what_is_sent_has_its_room(rt: HostRuntime) {
    let mut outbox = Outbox::new(rt.alloc(), 2).expect(&rt, "memory");
    let room = MessageRoom::new(rt.alloc(), 8).expect(&rt, "memory");
    outbox.send(PEER, room.fill(b"first"));
    outbox.send(
        OTHER_ADDRESS,
        Bytes::from_slice(rt.alloc(), b"second").expect(&rt, "memory"),
    );
    assert!(rt; outbox.into_datagrams().as_slice().len() == 2);
}

#[test]
fn a_reply_goes_out_from_where_it_is_written(rt: HostRuntime) {
    let room = ReplyRoom::new(rt.alloc(), 8).expect(&rt, "memory");
    let (bytes, copy) = room.open();
    let (out, noted) = copy.fill(PEER, bytes.fill(b"reply"));
    assert!(rt; out.as_slice().len() == 1);
    assert!(rt; noted.as_slice() == b"reply".as_slice());
    let empty = MessageRoom::new(rt.alloc(), 8).expect(&rt, "memory");
    assert!(rt; empty.into_vec().is_empty());
}

/// A datagram of these bytes.
fn datagram(alloc: Global, bytes: &[u8]) -> Result<Datagram, AllocError> {
    Ok(Datagram {
        to: PEER,
        bytes: Bytes::from_slice(alloc, bytes)?,
    })
}

/// One datagram alone, and two.
fn some(alloc: Global) -> Result<(Datagrams, Datagrams), AllocError> {
    let one = Datagrams::one(alloc, datagram(alloc, b"first")?);
    let mut two = Datagrams::new(alloc);
    two.push(datagram(alloc, b"first")?)?;
    two.push(datagram(alloc, b"second")?)?;
    Ok((one, two))
}

#[test]
fn datagrams_go_in_their_order(rt: HostRuntime) {
    let (one, two) = some(rt.alloc()).expect(&rt, "memory");
    assert!(rt; one.as_slice().len() == 1);
    assert!(rt; two.as_slice().len() == 2);
    let (first, more) = one.into_parts();
    assert!(rt; first.is_some() && more.is_empty());
    let all = two.into_vec(3).ok().expect(&rt, "memory");
    assert!(rt; all.len() == 2);
    let last = all.last().expect(&rt, "a datagram");
    assert!(rt; last.bytes.as_slice() == b"second".as_slice());
}

#[test]
fn the_first_moment(rt: HostRuntime) {
    assert!(rt; Moment::START.ms == 0);
}
