//! The ports of a lab's nodes: their sockets, and the pace that each node keeps.
ghost use Rattle.std.specs.Prelude.{◌≡◌, ◌++◌, ◌∷◌, [], IfErr, IfOk, None, OnOk, is_some, map};
ghost use Rattle.osc_lab.specs.Inner.Telling as inner;
ghost use Rattle.osc_lab.specs.Whole as spec;
ghost use Rattle.osc_programs.specs.Ended as ends;

use crate::port::{AddressMap, Known};
use osc_model::Peer;
use osc_programs::{Ended, SocketPort, Sockets, bound};
use osc_script::NodeName;
use osc_turn::{ClockAndRandom, Pace, Watch};
use osc_world::{Parts, Placed};
use std::alloc::Global;

// 127.0.0.1, and a port that the system picks.
const LOCAL_V4: Peer = Peer {
    address: [0, 0, 0, 0, 0, 0, 0, 0, 0, 0, 0xff, 0xff, 127, 0, 0, 1],
    scope: 0,
    port: 0,
};

// `[::1]`, and such a port (RFC 4291 section 2.5.3).
const LOCAL_V6: Peer = Peer {
    address: [0, 0, 0, 0, 0, 0, 0, 0, 0, 0, 0, 0, 0, 0, 0, 1],
    scope: 0,
    port: 0,
};

// The address of this machine, of IPv6 or IPv4, whose port the system picks.
fn any_place(ipv6: bool) -> Peer
    ensures { result ≡ spec.any_place ipv6 }
{
    if ipv6 { LOCAL_V6 } else { LOCAL_V4 }
}

/// A node's port, and the pace that the node keeps at it.
pub(crate) struct PacedPort<P> {
    /// The port.
    pub port: P,
    /// The pace.
    pub pace: Pace,
}

impl<P: Drop> Drop for PacedPort<P> {
    fn drop(self) {
        let PacedPort { port: _, pace: _ } = self;
    }
}

impl<P> PacedPort<P> {
    /// Whether the node took what came in its last turn. Then the next one may be a tick though something waits.
    pub fn is_busy(&self) -> bool
        ensures { result ≡ is_some self.now.pace.busy_since }
    {
        self.pace.busy_since.is_some()
    }
}

/// The ports of the server, of the proxies and of the clients.
pub(crate) struct LabPorts<P> {
    /// The server's.
    pub server: PacedPort<P>,
    /// Those of the proxies, by their numbers.
    pub proxies: Vec<PacedPort<P>>,
    /// Those of the clients, by their numbers.
    pub clients: Vec<PacedPort<P>>,
}

impl<P: Drop> Drop for LabPorts<P> {
    fn drop(self) {
        let LabPorts {
            server: _,
            proxies: _,
            clients: _,
        } = self;
    }
}

/// What the nodes of a lab take their turns by: what hands them moments and draws, and their ports.
#[derive(Drop)]
pub(crate) struct Means<W: Watch + Drop, P: Drop> {
    /// What hands them moments and draws.
    pub supply: ClockAndRandom<W>,
    /// Their ports.
    pub ports: LabPorts<P>,
}

/// A socket of this machine for each node, of IPv6 or IPv4.
pub(crate) fn bind_all<R: Sockets>(
    alloc: Global,
    runtime: &R,
    parts: &Parts,
    ipv6: bool,
) -> Result<(LabPorts<R::Socket>, AddressMap), Ended>
    ensures begins { IfOk result (λ bound. spec.BeginsAt (R.opened runtime.now (spec.any_place ipv6 ∷ []) None) R.Socket.listens parts.now.nodes bound.1 (inner.ports_of bound.0)) }
    ensures fault { IfErr result ends.IsFault }
{
    let mut addresses = AddressMap::new(alloc);
    let place = any_place(ipv6);
    let server = bind_at(runtime, &mut addresses, place, NodeName::Server.address())?;
    let proxies = bind_each(alloc, runtime, &mut addresses, place, parts.nodes.proxies())?;
    let clients = bind_each(alloc, runtime, &mut addresses, place, parts.nodes.clients())?;
    let ports = LabPorts {
        server,
        proxies,
        clients,
    };
    Ok((ports, addresses))
}

// A socket at this place for each of these nodes.
fn bind_each<R: Sockets, N>(
    alloc: Global,
    runtime: &R,
    addresses: &mut AddressMap,
    place: Peer,
    all: &[Placed<N>],
) -> Result<Vec<PacedPort<R::Socket>>, Ended>
    ensures bound { IfOk result (λ ports. inner.AreBound (R.opened runtime.now (place ∷ []) None) R.Socket.listens (map (λ placed. placed.at) all.now) addresses.old addresses.new ports.items) }
    ensures fault { IfErr result ends.IsFault }
{
    let mut ports = Vec::new(alloc);
    for placed in all {
        push(&mut ports, bind_at(runtime, addresses, place, placed.at)?)?;
    }
    Ok(ports)
}

// A socket at this place, for the node of this address in the script.
fn bind_at<R: Sockets>(
    runtime: &R,
    addresses: &mut AddressMap,
    place: Peer,
    script: Peer,
) -> Result<PacedPort<R::Socket>, Ended>
    ensures bound { IfOk result (λ port. inner.IsBound (R.opened runtime.now (place ∷ []) None) R.Socket.listens script addresses.old addresses.new port) }
    ensures fault { IfErr result ends.IsFault }
{
    let port = bound(runtime, &[place])?;
    let Some(socket) = port.address(0) else {
        return Err(Ended::PortFailed);
    };
    match addresses.add(Known { script, socket }) {
        Ok(()) => Ok(PacedPort {
            port,
            pace: Pace::START,
        }),
        Err(_) => Err(Ended::OutOfMemory),
    }
}

fn push<P: Drop>(ports: &mut Vec<PacedPort<P>>, port: PacedPort<P>) -> Result<(), Ended>
    ensures pushed { OnOk result (ports.new.items ≡ ports.old.items ++ port ∷ []) }
    ensures fault { IfErr result ends.IsFault }
{
    match ports.push(port) {
        Ok(()) => Ok(()),
        Err(_) => Err(Ended::OutOfMemory),
    }
}
