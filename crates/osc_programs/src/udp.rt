//! A port over UDP sockets.
ghost use Rattle.std.specs.Prelude.{⊤, ◌≡◌, ◌<◌, ◌≤◌, ◌+◌, ◌↔◌, List, length, map, IfErr, IfOk, IfSome, IsSome, None, OnErr, OnOk, Option, Some, if◌then◌else◌, option_map};
ghost use Rattle.std.specs.Io.{WritesAtMost};
ghost use Rattle.osc_model.specs.declared.node.Peer.{Peer as AnyPeer};
ghost use Rattle.osc_programs.specs.Heard.{none_heard, with_heard};
ghost use Rattle.osc_programs.specs.Sockets as spec;
ghost use Rattle.osc_programs.specs.UdpPorts as ports;
ghost use Rattle.osc_programs.specs.declared.udp.Why.{Why as AnyWhy};

use crate::socket::{BoundSocket, Family, WAIT_MILLIS, family_of, first_of};
use crate::ways::Ways;
use libc::net::{POLLIN, poll};
use libc::types::pollfd;
use osc_model::Peer;
use osc_turn::{Port, PortFault};
use std::alloc::{AllocError, AllocGlobal, Global};
use std::io::{self, ErrorKind};
use std::net::Net;
use std_io::io::last_error;

/// Why a port failed, or could not be opened.
#[derive(Clone, Copy, Debug)]
pub struct Why {
    /// What it was to do.
    pub what: &'static str,
    /// To or from whom, if that is known.
    pub peer: Option<Peer>,
    /// What the system said.
    pub kind: ErrorKind,
}

/// A port over sockets.
pub trait SocketPort: Port {
    // The system told that one of its sockets is at this address.
    ghost listens: { Self → AnyPeer → Type 0 };

    // Why it failed last, if it did.
    ghost why: { Self → Option AnyWhy };

    /// The address of its socket of this number, from 0 on, where there is one and the system tells it.
    fn address(&self, number: usize) -> Option<Peer>
        ensures { IfSome result (listens self.now) };

    /// Why it failed last, if it did.
    fn why(&self) -> Option<Why>
        ensures { result ≡ why self.now };
}

/// What opens ports. Contracts see at which addresses it opened each, and from whom anything comes in there.
pub trait Sockets {
    /// Its ports.
    type Socket: SocketPort + Drop;

    // It opened this port at these addresses, for what comes from this peer alone, if one is named.
    ghost opened: { Self → List AnyPeer → Option AnyPeer → Self.Socket → Type 0 };

    /// A port at these addresses; the system picks the number of a port of 0. Where a peer is named, nothing comes in but from there: the
    /// system drops the datagrams of other addresses, and no receive ends for one of them.
    ///
    /// # Errors
    ///
    /// Those of the system, such as that of an address that is in use, or of one to which no way leads, and `OutOfMemory`.
    fn open_port(&self, at: &[Peer], peer: Option<Peer>) -> Result<Self::Socket, Why>
        ensures { IfOk result (opened self.now at.now peer) };
}

/// The sockets of a runtime: nothing can be said of what it opens.
impl<N: Net + AllocGlobal> Sockets for N {
    type Socket = UdpPort;

    ghost opened = { λ _ _ _ _. ⊤ };

    fn open_port(&self, at: &[Peer], peer: Option<Peer>) -> Result<UdpPort, Why> {
        UdpPort::opened(self.alloc(), self, at, peer)
    }
}

/// A port over UDP sockets (RFC 7252 section 3), each at an address of its own. A receive waits for at most 10 milliseconds. Where there are
/// several sockets, those at which something waits are read in turn, so a flood at one keeps none of the others waiting, and an answer leaves
/// the socket that heard the request.
#[derive(Drop)]
pub struct UdpPort {
    sockets: Vec<BoundSocket>,
    // Where there are several.
    several: Option<Several>,
    // The one peer from which anything comes in, if they are connected.
    peer: Option<Peer>,
    failures: u64,
    // Why it failed last.
    why: Option<Why>,
}

// What a port notes of several sockets.
#[derive(Drop)]
struct Several {
    // What the system is asked, and told last, of each.
    asked: Vec<pollfd>,
    // The number from which on they are read next.
    from: usize,
    // Where each peer was heard.
    ways: Ways,
}

impl UdpPort {
    // A port at these addresses, for what comes from this peer alone, if one is named.
    fn opened<N: Net>(
        alloc: Global,
        net: &N,
        at: &[Peer],
        peer: Option<Peer>,
    ) -> Result<UdpPort, Why>
        ensures failures { IfOk result (λ port. port.failures ≡ 0) }
        ensures peer { IfOk result (λ port. port.peer ≡ peer) }
        ensures families { IfOk result (λ port. map (λ socket. socket.family) port.sockets.items ≡ map spec.family_of at.now) }
    {
        let sockets = bound(alloc, net, at, peer)?;
        let several = several_of(alloc, &sockets)?;
        Ok(UdpPort {
            sockets,
            several,
            peer,
            failures: 0,
            why: None,
        })
    }

    // The number of the socket that is to be read, if one is. A single one waits itself.
    fn ready(&mut self) -> io::Result<Option<usize>>
        ensures failures { self.new.failures ≡ self.old.failures }
    {
        match &mut self.several {
            None => Ok(Some(0)),
            Some(several) => several.ready(WAIT_MILLIS),
        }
    }

    // The number of one where something waits already, if there is one.
    fn ready_now(&mut self) -> io::Result<Option<usize>>
        ensures failures { self.new.failures ≡ self.old.failures }
    {
        match &mut self.several {
            None => self.first_ready_now(),
            Some(several) => several.ready(0),
        }
    }

    // The number of the first socket, where something waits there.
    fn first_ready_now(&self) -> io::Result<Option<usize>> {
        let Some(socket) = self.sockets.get(0) else {
            return Ok(None);
        };
        let mut asked = [asked_of(socket)];
        if poll(&mut asked, 0) < 0 {
            return Err(last_error());
        }
        Ok(first_ready(&asked))
    }

    // What came, and from whom, after a wait of at most 10 milliseconds.
    fn received(&mut self, buffer: &mut [u8; 1153]) -> io::Result<Option<(Peer, usize)>>
        ensures within { IfOk result (λ got. IfSome got (λ datagram. datagram.1 ≤ 1153)) }
        ensures failures { self.new.failures ≡ self.old.failures }
    {
        match self.ready()? {
            Some(number) => self.read(number, buffer),
            None => Ok(None),
        }
    }

    // What came already, and from whom.
    fn received_already(&mut self, buffer: &mut [u8; 1153]) -> io::Result<Option<(Peer, usize)>>
        ensures within { IfOk result (λ got. IfSome got (λ datagram. datagram.1 ≤ 1153)) }
        ensures failures { self.new.failures ≡ self.old.failures }
    {
        match self.ready_now()? {
            Some(number) => self.read(number, buffer),
            None => Ok(None),
        }
    }

    // What came in at the socket of this number, and from whom.
    fn read(&mut self, number: usize, buffer: &mut [u8; 1153]) -> io::Result<Option<(Peer, usize)>>
        ensures within { IfOk result (λ got. IfSome got (λ datagram. datagram.1 ≤ 1153)) }
        ensures failures { self.new.failures ≡ self.old.failures }
    {
        let Some(socket) = self.sockets.get(number) else {
            return Ok(None);
        };
        let (len, from) = socket.receive(buffer)?;
        Ok(self.heard(number, from).map(|peer| (peer, len)))
    }

    // Who is heard, if this came in at the socket of this number. What other peers sent before the socket was connected still waits in it.
    fn heard(&mut self, number: usize, from: Peer) -> Option<Peer>
        ensures heard { result ≡ (if spec.is_heard self.old.peer from then Some from else None) }
        ensures noted { IfSome result (λ peer. ports.heard_by self.new.several ≡ option_map (with_heard peer number) (ports.heard_by self.old.several)) }
        ensures failures { self.new.failures ≡ self.old.failures }
    {
        if !is_heard(self.peer, from) {
            return None;
        }
        if let Some(several) = &mut self.several {
            several.ways.note(from, number);
        }
        Some(from)
    }

    // The socket by which a datagram goes to a peer: that at which the peer was heard last, where that is known.
    fn socket_to(&self, to: Peer) -> Option<&BoundSocket>
        ensures { option_map (λ socket. socket.now) result ≡ ports.socket_to self.now.sockets.items (ports.heard_by self.now.several) to }
    {
        let number = self.way_to(to)?;
        self.sockets.get(number)
    }

    // Its number.
    fn way_to(&self, to: Peer) -> Option<usize>
        ensures { result ≡ spec.way_to self.now.sockets.items (ports.heard_by self.now.several) to }
    {
        match self.known_way(to) {
            Some(number) => Some(number),
            None => way_unheard(&self.sockets, to),
        }
    }

    // The number of the socket at which the peer was heard last.
    fn known_way(&self, to: Peer) -> Option<usize>
        ensures { result ≡ spec.known_way (ports.heard_by self.now.several) to }
    {
        match &self.several {
            Some(several) => several.ways.heard_at(to),
            None => None,
        }
    }

    fn send_to(&self, to: Peer, bytes: &[u8]) -> io::Result<usize>
        ensures { WritesAtMost result bytes.now }
    {
        match self.socket_to(to) {
            Some(socket) => socket.send(self.peer, to, bytes),
            None => Err(io::Error::from(ErrorKind::AddrNotAvailable)),
        }
    }

    // A receive ended so: nothing came, or the port failed.
    fn not_received(&mut self, kind: ErrorKind) -> Result<Option<(Peer, usize)>, PortFault>
        ensures failed { OnErr result (self.old.failures < self.new.failures) }
        ensures nothing { IfOk result (λ got. got ≡ None) }
        ensures kept { OnOk result (self.new.failures ≡ self.old.failures) }
    {
        match kind {
            ErrorKind::WouldBlock | ErrorKind::TimedOut | ErrorKind::Interrupted => Ok(None),
            // The peer's machine said that nothing listens there (RFC 1122 section 4.1.3.3): nothing came.
            ErrorKind::ConnectionRefused => Ok(None),
            kind => {
                self.why = Some(Why {
                    what: "receive",
                    peer: self.peer,
                    kind,
                });
                self.fail(None)
            }
        }
    }

    // Counts a failure. One that can't be counted any more isn't told, as if nothing had come or all had gone.
    fn fail<T>(&mut self, untold: T) -> Result<T, PortFault>
    where
        T: Drop,
        ensures failed { OnErr result (self.old.failures < self.new.failures) }
        ensures same { IfOk result (λ value. value ≡ untold) }
        ensures kept { OnOk result (self.new.failures ≡ self.old.failures) }
    {
        if self.failures == u64::MAX {
            return Ok(untold);
        }
        self.failures += 1;
        Err(PortFault)
    }
}

impl Several {
    // Nothing is noted yet.
    fn of(alloc: Global, sockets: &[BoundSocket]) -> Result<Several, AllocError>
        ensures from { IfOk result (λ several. several.from ≡ 0) }
        ensures ways { IfOk result (λ several. several.ways ≡ none_heard) }
    {
        let mut asked = Vec::new(alloc);
        for socket in sockets {
            asked.push(asked_of(socket))?;
        }
        Ok(Several {
            asked,
            from: 0,
            ways: Ways::new(alloc)?,
        })
    }

    // Waits until something comes in, for so many milliseconds at most, and answers the number of the socket that is to be read, if one is: the first
    // where something waits, from the one after that which was read last on.
    fn ready(&mut self, wait: u16) -> io::Result<Option<usize>>
        ensures next { IfOk result (λ number. number ≡ spec.next_ready self.new.asked.items self.old.from) }
        ensures after { IfOk result (λ number. IfSome number (λ number. self.new.from ≡ number + 1)) }
        ensures ways { self.new.ways ≡ self.old.ways }
    {
        if poll(&mut self.asked, i32::from(wait)) < 0 {
            return Err(last_error());
        }
        let number = next_ready(&self.asked, self.from);
        if let Some(number) = number {
            self.from = number + 1;
        }
        Ok(number)
    }
}

impl SocketPort for UdpPort {
    // Nothing can be said of the addresses that the system tells.
    ghost listens = { λ _ _. ⊤ };

    ghost why = { λ port. port.why };

    fn address(&self, number: usize) -> Option<Peer> {
        self.sockets.get(number)?.address()
    }

    fn why(&self) -> Option<Why> {
        self.why
    }
}

impl Port for UdpPort {
    ghost failures = { λ port. port.failures };

    // Nothing can be said of what comes and goes at a socket.
    ghost received = { λ _. None };

    ghost sent = { λ _. None };

    fn receive(&mut self, buffer: &mut [u8; 1153]) -> Result<Option<(Peer, usize)>, PortFault> {
        match self.received(buffer) {
            Ok(received) => Ok(received),
            Err(error) => self.not_received(error.kind()),
        }
    }

    fn receive_waiting(
        &mut self,
        buffer: &mut [u8; 1153],
    ) -> Result<Option<(Peer, usize)>, PortFault> {
        match self.received_already(buffer) {
            Ok(received) => Ok(received),
            Err(error) => self.not_received(error.kind()),
        }
    }

    fn send(&mut self, to: Peer, bytes: &[u8]) -> Result<(), PortFault> {
        match self.send_to(to, bytes) {
            Ok(len) if len == bytes.len() => Ok(()),
            // The socket tells of an earlier datagram by this call, and sends nothing: this one is lost, as on the way.
            Err(fault) if is_refused(&fault) => Ok(()),
            Ok(_) => self.fail(()),
            Err(fault) => {
                self.why = Some(Why {
                    what: "send to",
                    peer: Some(to),
                    kind: fault.kind(),
                });
                self.fail(())
            }
        }
    }
}

// What the system is asked of a socket: whether something waits there.
fn asked_of(socket: &BoundSocket) -> pollfd {
    pollfd {
        fd: socket.fd(),
        events: POLLIN,
        revents: 0,
    }
}

// Whether the peer said that nothing listens there.
fn is_refused(fault: &io::Error) -> bool {
    fault.kind() == ErrorKind::ConnectionRefused
}

// Whether anything from this peer is heard, where only this other one is named, if one is.
fn is_heard(named: Option<Peer>, from: Peer) -> bool
    ensures { result ≡ spec.is_heard named from }
{
    match named {
        Some(peer) => peer == from,
        None => true,
    }
}

// By which socket a peer is reached that wasn't heard: the first of its family, else the first of IPv6.
fn way_unheard(sockets: &[BoundSocket], to: Peer) -> Option<usize>
    ensures { result ≡ spec.way_unheard sockets.now to }
{
    match first_of(sockets, family_of(to)) {
        Some(number) => Some(number),
        None => first_of(sockets, Family::V6),
    }
}

// ---- how they are opened

// A socket at each of these addresses, at which nothing comes in but from the peer, if one is named.
fn bound<N: Net>(
    alloc: Global,
    net: &N,
    at: &[Peer],
    peer: Option<Peer>,
) -> Result<Vec<BoundSocket>, Why>
    ensures { IfOk result (λ sockets. map (λ socket. socket.family) sockets.items ≡ map spec.family_of at.now) }
{
    let mut sockets = Vec::new(alloc);
    for one in at {
        let socket = bind(net, *one)?;
        if let Some(peer) = peer {
            connect(&socket, peer)?;
        }
        if sockets.push(socket).is_err() {
            return Err(unbound(ErrorKind::OutOfMemory));
        }
    }
    Ok(sockets)
}

fn bind<N: Net>(net: &N, at: Peer) -> Result<BoundSocket, Why>
    ensures family { IfOk result (λ socket. socket.family ≡ spec.family_of at) }
    ensures told { IfErr result (λ why. why.peer ≡ Some at) }
{
    match BoundSocket::bind(net, at) {
        Ok(socket) => Ok(socket),
        Err(error) => Err(Why {
            what: "bind",
            peer: Some(at),
            kind: error.kind(),
        }),
    }
}

fn connect(socket: &BoundSocket, peer: Peer) -> Result<(), Why>
    ensures { IfErr result (λ why. why.peer ≡ Some peer) }
{
    match socket.connect(peer) {
        Ok(()) => Ok(()),
        Err(error) => Err(Why {
            what: "send to",
            peer: Some(peer),
            kind: error.kind(),
        }),
    }
}

// What is noted of these sockets, where they are several.
fn several_of(alloc: Global, sockets: &[BoundSocket]) -> Result<Option<Several>, Why>
    ensures several { IfOk result (λ several. IsSome several ↔ (2 ≤ length sockets.now)) }
    ensures none_heard { IfOk result (λ several. IfSome several (λ its. its.ways ≡ none_heard)) }
{
    if sockets.len() < 2 {
        return Ok(None);
    }
    for socket in sockets {
        if let Err(error) = socket.wait_never() {
            return Err(unbound(error.kind()));
        }
    }
    match Several::of(alloc, sockets) {
        Ok(several) => Ok(Some(several)),
        Err(_) => Err(unbound(ErrorKind::OutOfMemory)),
    }
}

fn unbound(kind: ErrorKind) -> Why {
    Why {
        what: "bind",
        peer: None,
        kind,
    }
}

// ---- the next socket

// The first socket where something waits from this number on, else the first of all.
fn next_ready(asked: &[pollfd], from: usize) -> Option<usize>
    ensures next { result ≡ spec.next_ready asked.now from }
    ensures within { IfSome result (λ number. number < length asked.now) }
{
    match ready_from(asked, from) {
        Some(number) => Some(number),
        None => first_ready(asked),
    }
}

// The first from this number on.
fn ready_from(asked: &[pollfd], from: usize) -> Option<usize>
    ensures first { result ≡ spec.ready_from asked.now from }
    ensures within { IfSome result (λ number. number < length asked.now) }
{
    if from > asked.len() {
        return None;
    }
    let number = first_ready(&asked[from..])?;
    Some(from + number)
}

// The first of which a read would end at once, be it by an error.
fn first_ready(asked: &[pollfd]) -> Option<usize>
    ensures first { result ≡ spec.first_ready asked.now }
    ensures within { IfSome result (λ number. number < length asked.now) }
{
    asked.iter().position(|asked| asked.revents != 0)
}
