//! One UDP socket, at an address of IPv4 or IPv6.
ghost use Rattle.std.specs.Prelude.{◌≡◌, ◌≤◌, ◌↔◌, IfOk, IfSome, IsSome, true, option_map};
ghost use Rattle.std.specs.Io.{WritesAtMost};
ghost use Rattle.std.specs.Net.Addr.{ipv4_octets, ipv6_octets};
ghost use Rattle.std.specs.Net.Socket.{v4_ip, v4_port, v6_flowinfo, v6_ip, v6_port, v6_scope_id};
ghost use Rattle.osc_model.specs.Peer.{octets_of};
ghost use Rattle.osc_programs.specs.Sockets as spec;

use osc_model::Peer;
use std::io::{self, ErrorKind};
use std::net::{Ipv4Addr, Ipv6Addr, Net, SocketAddr, SocketAddrV4, SocketAddrV6, UdpSocket};
use std::os::fd::{AsRawFd, RawFd};
use std::time::Duration;

/// The longest wait of one receive, in milliseconds.
pub(crate) const WAIT_MILLIS: u16 = 10;

/// The addresses that a socket reaches.
#[derive(Clone, Copy, Debug, PartialEq, Eq)]
pub(crate) enum Family {
    /// Those of IPv4.
    V4,
    /// Those of IPv6. An address of IPv4 is one of them, and is reached where the socket's own address is `::` (RFC 3493 section 3.7).
    V6,
}

/// The family of a peer's address.
pub(crate) fn family_of(peer: Peer) -> Family
    ensures { result ≡ spec.family_of peer }
{
    if peer.is_v4() { Family::V4 } else { Family::V6 }
}

/// A socket at an address of this family.
#[derive(Drop)]
pub(crate) struct BoundSocket {
    socket: UdpSocket,
    /// The family of its address.
    pub family: Family,
}

impl BoundSocket {
    /// A socket at this address, of which a receive waits for at most 10 milliseconds.
    pub fn bind<N: Net>(net: &N, at: Peer) -> io::Result<BoundSocket>
        ensures { IfOk result (λ socket. socket.family ≡ spec.family_of at) }
    {
        let family = family_of(at);
        let socket = UdpSocket::bind(net, socket_address(family, at)?)?;
        socket.set_read_timeout(Some(Duration::from_millis(u64::from(WAIT_MILLIS))))?;
        Ok(BoundSocket { socket, family })
    }

    /// From here on, only this peer's datagrams come in.
    pub fn connect(&self, peer: Peer) -> io::Result<()> {
        self.socket.connect(socket_address(self.family, peer)?)
    }

    /// From here on, a receive waits for nothing.
    pub fn wait_never(&self) -> io::Result<()> {
        self.socket.set_nonblocking(true)
    }

    /// What the system knows it by.
    pub fn fd(&self) -> RawFd {
        self.socket.as_raw_fd()
    }

    /// Its address, where the system tells it.
    pub fn address(&self) -> Option<Peer> {
        match self.socket.local_addr() {
            Ok(address) => Some(peer_at(address)),
            Err(_) => None,
        }
    }

    /// Takes a datagram: answers how many bytes of the buffer it has, and who sent it.
    pub fn receive(&self, buffer: &mut [u8; 1153]) -> io::Result<(usize, Peer)>
        ensures { IfOk result (λ got. got.0 ≤ 1153) }
    {
        let (len, from) = self.socket.recv_from(buffer)?;
        Ok((len, peer_at(from)))
    }

    /// Sends a datagram. To the peer that the socket is connected to no address is named.
    pub fn send(&self, connected: Option<Peer>, to: Peer, bytes: &[u8]) -> io::Result<usize>
        ensures { WritesAtMost result bytes.now }
    {
        if connected == Some(to) {
            self.socket.send(bytes)
        } else {
            self.socket.send_to(bytes, socket_address(self.family, to)?)
        }
    }
}

/// The number of the first socket of this family.
pub(crate) fn first_of(sockets: &[BoundSocket], family: Family) -> Option<usize>
    ensures { result ≡ spec.first_of sockets.now family }
{
    sockets.iter().position(|socket| socket.family == family)
}

// ---- addresses

// One of IPv4 reaches no other address.
fn socket_address(family: Family, peer: Peer) -> io::Result<SocketAddr>
    ensures { IfOk result (spec.IsAddressOf family peer) }
{
    match address_of(family, peer) {
        Some(address) => Ok(address),
        None => Err(io::Error::from(ErrorKind::AddrNotAvailable)),
    }
}

/// The address of a peer for a socket of this family. For one of IPv6 an address of IPv4 is `::ffff:a.b.c.d` (RFC 3493 section 3.7).
fn address_of(family: Family, peer: Peer) -> Option<SocketAddr>
    ensures address { IfSome result (spec.IsAddressOf family peer) }
    ensures reached { IsSome result ↔ (spec.reaches family peer ≡ true) }
{
    match family {
        Family::V4 => Some(SocketAddr::V4(v4_address(peer)?)),
        Family::V6 => Some(SocketAddr::V6(v6_address(peer))),
    }
}

fn v4_address(peer: Peer) -> Option<SocketAddrV4>
    ensures octets { option_map (λ address. ipv4_octets (v4_ip address)) result ≡ octets_of peer }
    ensures port { IfSome result (λ address. v4_port address ≡ peer.port) }
{
    let octets = peer.octets()?;
    Some(SocketAddrV4::new(Ipv4Addr::from_octets(octets), peer.port))
}

fn v6_address(peer: Peer) -> SocketAddrV6
    ensures octets { ipv6_octets (v6_ip result) ≡ peer.address }
    ensures zone { v6_scope_id result ≡ peer.scope }
    ensures port { v6_port result ≡ peer.port }
    ensures flow { v6_flowinfo result ≡ 0 }
{
    SocketAddrV6::new(v6_of(&peer.address), peer.port, 0, peer.scope)
}

fn v6_of(octets: &[u8; 16]) -> Ipv6Addr
    ensures { ipv6_octets result ≡ octets.now }
{
    Ipv6Addr::from_octets(*octets)
}

/// The peer at a socket's address. A socket of IPv6 has `::ffff:a.b.c.d` for an address of IPv4, which is that peer.
fn peer_at(address: SocketAddr) -> Peer
    ensures { result ≡ spec.peer_at address }
{
    match address {
        SocketAddr::V4(address) => Peer::v4(address.ip().octets(), address.port()),
        SocketAddr::V6(address) => {
            Peer::v6(address.ip().octets(), address.scope_id(), address.port())
        }
    }
}
