//! How many confirmable messages are outstanding to a peer at once.

ghost use Rattle.std.specs.Prelude.{◌≤◌};

use crate::pacing::Event::{Acknowledged, Sent, Tick};
use crate::peer::PEER;
use osc_coap::Kind;
use osc_fixtures::targets;
use osc_message::{Endpoint, MOST_OPEN};
use osc_model::{Bytes, Draw, Moment, Peer};
use osc_proxy::Proxy;
use std::alloc::{AllocError, Global};
use std::process::Abort;
use std::test::*;

/// Timeouts of two seconds.
const DRAW: Draw = Draw([0; 32]);

/// What happens at an endpoint.
#[derive(Clone, Copy, Debug)]
enum Event {
    /// It gets a message of this ID to send.
    Sent(u16),
    /// It hears an empty acknowledgement of the message of this ID.
    Acknowledged(u16),
    /// A tick.
    Tick,
}

/// At how many ms what happens, and how many datagrams go out then.
type Row = (u64, Event, usize);

fn moment(ms: u64) -> Moment {
    Moment::new(ms).unwrap_or(Moment::START)
}

/// How many datagrams go out where the endpoint gets this message: one or none, and 2 where it isn't taken.
fn sent(
    alloc: Global,
    endpoint: &mut Endpoint<MOST_OPEN>,
    now: Moment,
    to: Peer,
    id: u16,
) -> Result<usize, AllocError> {
    let bytes = Bytes::from_slice(alloc, &[0x40, 1, 0, 0])?;
    match endpoint.send(now, to, id, &DRAW, bytes) {
        Ok(true) => Ok(1),
        Ok(false) => Ok(0),
        Err(_) => Ok(2),
    }
}

/// How many datagrams go out at this event.
fn happens(
    alloc: Global,
    endpoint: &mut Endpoint<MOST_OPEN>,
    ms: u64,
    event: Event,
) -> Result<usize, AllocError> {
    let now = moment(ms);
    match event {
        Sent(id) => sent(alloc, endpoint, now, PEER, id),
        Acknowledged(id) => {
            endpoint.settle_empty(now, PEER, Kind::Acknowledgement, id);
            Ok(0)
        }
        Tick => {
            let ticked = endpoint.on_tick(alloc, now);
            if ticked.lost {
                return Err(AllocError);
            }
            Ok(ticked.out.as_slice().len())
        }
    }
}

/// The rows are so at a new endpoint at which so many may be outstanding to a peer.
fn goes_at(rt: &impl Abort, alloc: Global, most: u8, rows: &[Row]) -> Result<(), AllocError>
    requires { (1 ≤ most) × (most ≤ 16) }
{
    let mut endpoint = Endpoint::<MOST_OPEN>::with_pace(alloc, most)?;
    assert!(rt; endpoint.most_outstanding() == most);
    for (ms, event, out) in rows {
        let went = happens(alloc, &mut endpoint, *ms, *event)?;
        assert!(rt; went == *out, "{ms} {event:?}: {went}");
    }
    drop(endpoint);
    Ok(())
}

/// Three may be outstanding.
const THREE: [Row; 30] = [
    (0, Sent(1), 1),
    (0, Sent(2), 1),
    (0, Sent(3), 1),
    (0, Sent(4), 0),
    (0, Sent(5), 0),
    // One is acknowledged: the first that waits goes out at the next tick, and none overtakes it.
    (0, Acknowledged(1), 0),
    (0, Sent(6), 0),
    (0, Tick, 1),
    (0, Tick, 0),
    (1_999, Tick, 0),
    // Three go out again: from then on one at a time.
    (2_000, Tick, 3),
    (2_001, Acknowledged(2), 0),
    (2_001, Tick, 0),
    (2_001, Acknowledged(3), 0),
    (2_001, Tick, 0),
    (2_001, Acknowledged(4), 0),
    (2_001, Tick, 1),
    (2_001, Tick, 0),
    // What was sent once is acknowledged: three at a time again.
    (2_002, Acknowledged(5), 0),
    (2_002, Tick, 1),
    (2_002, Sent(7), 1),
    (2_002, Sent(8), 1),
    (2_002, Sent(9), 0),
    // Once more one at a time; an acknowledgement of what was sent twice changes nothing.
    (4_002, Tick, 3),
    (4_003, Acknowledged(6), 0),
    (4_003, Acknowledged(7), 0),
    (4_003, Acknowledged(8), 0),
    (4_003, Tick, 1),
    (4_003, Sent(10), 0),
    (4_003, Tick, 0),
];

#[test]
fn a_repeat_slows_a_peer(rt: HostRuntime) -> Result<(), Fail> {
    Ok(goes_at(&rt, rt.alloc(), 3, &THREE)?)
}

/// One may be outstanding.
const ONE: [Row; 10] = [
    (0, Sent(1), 1),
    (0, Sent(2), 0),
    (0, Sent(3), 0),
    (0, Tick, 0),
    (0, Acknowledged(1), 0),
    (0, Sent(4), 0),
    (0, Tick, 1),
    (2_000, Tick, 1),
    (2_001, Acknowledged(2), 0),
    (2_001, Tick, 1),
];

#[test]
fn one_is_outstanding_at_a_time(rt: HostRuntime) -> Result<(), Fail> {
    Ok(goes_at(&rt, rt.alloc(), 1, &ONE)?)
}

/// Gives the endpoint messages to the peer with the IDs from the first one on, and before the end: each has this outcome.
fn each_is(
    rt: &impl Abort,
    alloc: Global,
    endpoint: &mut Endpoint<MOST_OPEN>,
    to: Peer,
    ids: (u16, u16),
    outcome: usize,
) -> Result<(), AllocError> {
    for id in ids.0..ids.1 {
        let is = sent(alloc, endpoint, Moment::START, to, id)?;
        assert!(rt; is == outcome, "{id}");
    }
    Ok(())
}

/// 16 go out at once, 16 wait, and the next one is refused; so to each of 64 peers, and to none besides.
fn fills(rt: &impl Abort, alloc: Global) -> Result<(), AllocError> {
    let mut endpoint = Endpoint::<MOST_OPEN>::with_pace(alloc, 16)?;
    for port in 1..65u16 {
        let to = Peer { port, ..PEER };
        each_is(rt, alloc, &mut endpoint, to, (0, 16), 1)?;
        each_is(rt, alloc, &mut endpoint, to, (16, 32), 0)?;
        each_is(rt, alloc, &mut endpoint, to, (32, 33), 2)?;
    }
    each_is(rt, alloc, &mut endpoint, PEER, (0, 1), 2)?;
    assert!(rt; endpoint.open_messages() == 2_048);
    assert!(rt; !endpoint.gives_up(moment(62_000), Peer { port: 1, ..PEER }, 0));
    drop(endpoint);
    Ok(())
}

#[test]
fn sixteen_go_out_and_sixteen_wait(rt: HostRuntime) -> Result<(), Fail> {
    Ok(fills(&rt, rt.alloc())?)
}

/// Run with each allocation refused in turn.
#[test]
fn a_refused_allocation_of_a_pace(rt: HostRuntime) {
    let Ok(targets) = targets(rt.alloc()) else {
        return;
    };
    let Ok(mut proxy) = Proxy::with_pace(rt.alloc(), targets, 16) else {
        return;
    };
    assert!(rt; proxy.most_outstanding() == 16);
    proxy.restart();
    assert!(rt; proxy.most_outstanding() == 16 && proxy.next_deadline().is_none());
    drop(proxy);
}
