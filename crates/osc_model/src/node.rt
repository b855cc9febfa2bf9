//! What a node is handed with an event.
ghost use Rattle.std.specs.Prelude.{◌≡◌, ◌≢◌, ◌<◌, ◌≤◌, ◌+◌, ◌*◌, ◌^◌, ◌↔◌, IfSome, IsSome, Some, bytes_eq, slice_index};
ghost use Rattle.osc_model.specs.Draw.{nonce_drawn, token_drawn, timeout_drawn, message_id_drawn};
ghost use Rattle.std.specs.Hash.{u16, u32, same_Alike, on_Alike, and-Alike};
ghost use Rattle.std.proofs.lemmas.Bool.Decides.{Decides-eqb};
ghost use Rattle.std.proofs.lemmas.Slice.Eq.{bytes_eq-Decides};
ghost use Rattle.std.specs.Cmp.Rules.{comparing};
ghost use borrow.Author.Rules.{rules};
ghost use Rattle.osc_model.specs.Peer.{is_v4, octets_of, peer_text, same_peer, v4_peer, first_half, second_half, address_fed, peer_fed};

use std::fmt;
use std::hash::{Hash, Hasher};
use std::net::{Ipv4Addr, Ipv6Addr, SocketAddrV6};

/// A moment: whole milliseconds since a start that all nodes share, below 2^63, so that what comes hours later is a
/// number of 64 bits still.
#[derive(Clone, Copy, Debug, PartialEq, Eq, PartialOrd, Ord)]
pub struct Moment {
    /// The milliseconds.
    pub ms: u64,
    ghost early: { ms < 2 ^ 63 },
}

impl Moment {
    /// The start.
    pub const START: Moment = Moment { ms: 0 };

    /// The moment of `ms` milliseconds, if they are below 2^63.
    pub fn new(ms: u64) -> Option<Moment>
        ensures value { IfSome result (λ moment. moment.ms ≡ ms) }
        ensures some { IsSome result ↔ (ms < 2 ^ 63) }
    {
        if ms < 1 << 63 {
            Some(Moment { ms })
        } else {
            None
        }
    }
}

/// An address of IPv6 with its zone, and a port. An address of IPv4 is `::ffff:a.b.c.d` (RFC 4291 section 2.5.5.2). Two peers are one
/// where all three are equal.
#[derive(Clone, Copy, Debug)]
pub struct Peer {
    /// The 16 bytes of the address, as they are sent.
    pub address: [u8; 16],
    /// The zone of an address that is of one link alone (RFC 4007): the number of an interface, and 0 of each other address.
    pub scope: u32,
    /// The UDP port.
    pub port: u16,
}

/// What an IPv6 address begins with that is one of IPv4 (RFC 4291 section 2.5.5.2).
const V4_PREFIX: [u8; 12] = [0, 0, 0, 0, 0, 0, 0, 0, 0, 0, 0xff, 0xff];

impl Peer {
    /// An address of IPv4, by its four bytes as they are written, and a port.
    pub fn v4(octets: [u8; 4], port: u16) -> Peer
        ensures { result ≡ v4_peer octets port }
    {
        let [a, b, c, d] = octets;
        Peer {
            address: [0, 0, 0, 0, 0, 0, 0, 0, 0, 0, 0xff, 0xff, a, b, c, d],
            scope: 0,
            port,
        }
    }

    /// An address of IPv6 with its zone, and a port.
    pub fn v6(address: [u8; 16], scope: u32, port: u16) -> Peer
        ensures { result ≡ record { address = address; scope = scope; port = port } }
    {
        Peer {
            address,
            scope,
            port,
        }
    }

    /// The four bytes of an address of IPv4.
    pub fn octets(&self) -> Option<[u8; 4]>
        ensures { result ≡ octets_of self.now }
    {
        if !self.is_v4() {
            return None;
        }
        let [_, _, _, _, _, _, _, _, _, _, _, _, a, b, c, d] = self.address;
        Some([a, b, c, d])
    }

    /// Whether the address is one of IPv4.
    pub fn is_v4(&self) -> bool
        ensures { result ≡ is_v4 self.now }
    {
        self.address[..12] == V4_PREFIX[..] && self.scope == 0
    }
}

/// The two halves of an address, each as a number: two numbers are compared and hashed sooner than 16 bytes.
fn halves(address: &[u8; 16]) -> (u64, u64)
    ensures { result ≡ (first_half address.now, second_half address.now) }
{
    let [a, b, c, d, e, f, g, h, i, j, k, l, m, n, o, p] = *address;
    (
        u64::from_le_bytes([a, b, c, d, e, f, g, h]),
        u64::from_le_bytes([i, j, k, l, m, n, o, p]),
    )
}

/// Whether two addresses are one.
fn is_one_address(one: &[u8; 16], other: &[u8; 16]) -> bool
    ensures { result ≡ bytes_eq one.now other.now }
{
    halves(one) == halves(other)
}

impl PartialEq for Peer {
    ghost eq = { same_peer };

    ghost laws = { Prim.search (comparing, rules) };

    fn eq(&self, other: &Peer) -> bool {
        is_one_address(&self.address, &other.address)
            && self.scope == other.scope
            && self.port == other.port
    }
}

impl Eq for Peer {
    ghost laws = { Prim.search (comparing, rules) };
}

impl Hash for Peer {
    ghost hash_input = { peer_fed };

    ghost respects_eq = { (and-Alike (on_Alike (λ peer. peer.address) (same_Alike address_fed bytes_eq-Decides)) (and-Alike (on_Alike (λ peer. peer.scope) (same_Alike u32 Decides-eqb)) (on_Alike (λ peer. peer.port) (same_Alike u16 Decides-eqb)))).fed };

    fn hash<H: Hasher>(&self, state: &mut H) {
        let (first, second) = halves(&self.address);
        first.hash(state);
        second.hash(state);
        self.scope.hash(state);
        self.port.hash(state);
    }
}

/// `192.0.2.1:5683` where the address is one of IPv4, and `[2001:db8::1]:5683` or, with a zone, `[fe80::1%3]:5683` where it isn't (RFC 5952
/// sections 4 and 6, RFC 4007 section 11).
impl fmt::Display for Peer {
    ghost output = { λ peer. Some (peer_text peer) };

    fn fmt<W: fmt::Write>(&self, f: &mut fmt::Formatter<W>) -> fmt::Result {
        let port = self.port;
        match self.octets() {
            Some(octets) => write!(f, "{}:{port}", Ipv4Addr::from_octets(octets)),
            None => {
                let address = Ipv6Addr::from_octets(self.address);
                SocketAddrV6::new(address, port, 0, self.scope).fmt(f)
            }
        }
    }
}

/// Random bytes, drawn again for each event. Each part is used for one thing: the nonce of an exchange, the token of a
/// request, the timeout of a confirmable message, the first message ID of a node.
#[derive(Clone, Copy, Debug, PartialEq, Eq)]
pub struct Draw(pub [u8; 32]);

impl Draw {
    /// The nonce of an exchange: bytes 0 to 7.
    pub fn nonce(&self) -> [u8; 8]
        ensures { result ≡ nonce_drawn self.now }
    {
        let [a, b, c, d, e, f, g, h, ..] = self.0;
        [a, b, c, d, e, f, g, h]
    }

    /// The token of a request: bytes 8 to 15.
    pub fn token(&self) -> [u8; 8]
        ensures { result ≡ token_drawn self.now }
    {
        let [_, _, _, _, _, _, _, _, a, b, c, d, e, f, g, h, ..] = self.0;
        [a, b, c, d, e, f, g, h]
    }

    /// The number that spreads timeouts: bytes 16 and 17, the most significant first.
    pub fn timeout(&self) -> u16
        ensures { result ≡ timeout_drawn self.now }
    {
        256 * self.0[16] as u16 + self.0[17] as u16
    }

    /// The first message ID of a node that has sent none of its own: bytes 18 and 19, the most significant first.
    pub fn message_id(&self) -> u16
        ensures { result ≡ message_id_drawn self.now }
    {
        256 * self.0[18] as u16 + self.0[19] as u16
    }
}
