//! A server at a port.

use crate::nodes::server;
use crate::queues::Queues;
use osc_ccm::Suite;
use osc_fixtures::{CLIENT, at, drawn};
use osc_model::Bytes;
use osc_server::Server;
use osc_turn::{TurnError, Turned, turn};
use std::alloc::Global;
use std::process::Abort;
use std::test::*;

/// Whether a datagram came, how many are sent, and whether a fault is told.
fn told(turned: Result<Turned, TurnError>) -> Option<(bool, usize, bool)> {
    match turned {
        Ok(turned) => {
            let told = (
                turned.received,
                turned.step.out.as_slice().len(),
                turned.fault.is_some(),
            );
            drop(turned);
            Some(told)
        }
        Err(_) => None,
    }
}

/// One turn of the server.
fn turns<R: Abort>(
    alloc: Global,
    port: &mut Queues<'_, R>,
    server: &mut Server,
) -> Option<(bool, usize, bool)> {
    told(turn::<Suite, _, _>(alloc, port, server, at(0), &drawn(0)))
}

/// The bytes of the only datagram that the port was asked to send.
fn only_sent<'a, R: Abort>(port: &'a Queues<'_, R>) -> Option<&'a [u8]> {
    match port.sent.as_slice() {
        [sent] if sent.to == CLIENT => Some(sent.bytes.as_slice()),
        _ => None,
    }
}

/// A GET of `/e` that isn't protected is answered, and where nothing comes nothing is sent.
fn serves<R: Abort>(rt: &R, alloc: Global, port: &mut Queues<'_, R>, server: &mut Server) {
    assert!(rt; turns(alloc, port, server) == Some((true, 1, false)));
    assert!(rt; only_sent(port) == Some(b"\x60\x45\x00\x02\x48\x6e\x34\x0b\x9c\xff\xb3\x7a\x98"));
    assert!(rt; turns(alloc, port, server) == Some((false, 0, false)));
    assert!(rt; port.sent.len() == 1 && port.received.len() == 2);
}

#[test]
fn a_server_answers_what_comes(rt: HostRuntime) -> Result<(), Fail> {
    let mut server = server(rt.alloc())?;
    let get = Bytes::from_slice(rt.alloc(), b"\x40\x01\x00\x02\xb1e")?;
    let mut port = Queues::new(&rt, rt.alloc(), 0);
    port.comes(CLIENT, get);
    serves(&rt, rt.alloc(), &mut port, &mut server);
    drop(port);
    drop(server);
    Ok(())
}
