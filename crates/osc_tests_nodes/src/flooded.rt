//! A port that never runs dry: what is due goes out, and what is over ends, all the same.
ghost use Rattle.std.specs.Prelude.{None};

use crate::stage::{FORWARDS, goes};
use osc_ccm::Suite;
use osc_fixtures::{CLIENT, SERVER, STRANGER, at, drawn, proxy};
use osc_model::Peer;
use osc_proxy::Proxy;
use osc_turn::{Pace, Port, PortFault, paced_turn};
use std::alloc::Global;
use std::test::*;

/// Each receive gives a stranger's byte that is no message; what is sent is counted.
#[derive(Drop)]
struct Flood {
    to_server: usize,
    to_client: usize,
}

impl Port for Flood {
    ghost failures = { λ _. 0 };

    ghost received = { λ _. None };

    ghost sent = { λ _. None };

    fn receive(&mut self, buffer: &mut [u8; 1153]) -> Result<Option<(Peer, usize)>, PortFault> {
        buffer[0] = 0xff;
        Ok(Some((STRANGER, 1)))
    }

    fn send(&mut self, to: Peer, _bytes: &[u8]) -> Result<(), PortFault> {
        if to == SERVER {
            self.to_server = self.to_server.saturating_add(1);
        }
        if to == CLIENT {
            self.to_client = self.to_client.saturating_add(1);
        }
        Ok(())
    }
}

/// A turn each 5 milliseconds, `turns` of them: whether none failed.
fn takes_turns(alloc: Global, flood: &mut Flood, proxy: &mut Proxy, turns: u64) -> bool {
    let mut pace = Pace::START;
    let mut whole = true;
    for turn in 0..turns {
        let now = at(turn.saturating_mul(5));
        match paced_turn::<Suite, _, _>(alloc, flood, proxy, &mut pace, now, &drawn(1)) {
            Ok(turned) => drop(turned),
            Err(_) => whole = false,
        }
    }
    whole
}

// A request that is forwarded and that nobody answers is repeated after 2, 6, 14 and 30 seconds, and given up after 62 (RFC 7252
// section 4.2).
#[test]
fn repeats_and_ends_though_datagrams_never_pause(rt: HostRuntime) -> Result<(), Fail> {
    let alloc = rt.alloc();
    let mut proxy = proxy(alloc)?;
    let mut flood = Flood {
        to_server: 0,
        to_client: 0,
    };
    goes(&rt, alloc, &mut proxy, &FORWARDS);
    assert!(rt; takes_turns(alloc, &mut flood, &mut proxy, 14_000));
    assert_eq!(rt; flood.to_server, 4);
    assert!(rt; flood.to_client > 0);
    Ok(())
}
