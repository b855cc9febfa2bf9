//! The way to the server.
ghost use Rattle.std.specs.Prelude.{◌≡◌, ◌↔◌, IfSome, IsSome};
ghost use Rattle.osc_client.specs.Route.{IsHost};

use osc_model::limits::LONGEST_HOST;
use osc_model::{Bytes, Peer};
use std::marker::Model;

/// The server behind a proxy: the host and the port by which the proxy knows it (RFC 7252 section 5.10.1).
#[derive(Debug)]
pub struct Origin {
    host: Bytes,
    port: u16,
}

impl Drop for Origin {
    fn drop(self) {
        let Origin { host: _, port: _ } = self;
    }
}

impl Model for Origin {
    ghost use Rattle.osc_client.specs.Route.{HostAndPort, IsHost};

    ghost Value = { HostAndPort };

    ghost view = { λ origin. record { host = origin.host; port = origin.port } };

    ghost invariant = { λ origin. IsHost origin.host };
}

impl Origin {
    /// The server of this host and port; `None` where the host doesn't have 1 to 255 bytes, since no option can hold it.
    pub fn new(host: Bytes, port: u16) -> Option<Origin>
        ensures some { IfSome result (λ origin. origin ≡ record { host = host; port = port }) }
        ensures lawful { IsSome result ↔ IsHost host }
    {
        if host.is_empty() || host.len() > LONGEST_HOST {
            return None;
        }
        Some(Origin { host, port })
    }

    /// The host: 1 to 255 bytes.
    pub fn host(&self) -> &[u8]
        ensures value { result.now ≡ self.now.host }
        ensures lawful { IsHost self.now.host }
    {
        self.host.as_slice()
    }

    /// The port.
    pub fn port(&self) -> u16
        ensures { result ≡ self.now.port }
    {
        self.port
    }
}

/// The way to the server.
#[derive(Debug, Drop)]
pub struct Route {
    /// To whom is sent: the server, or a proxy.
    pub next_hop: Peer,
    /// The server behind the proxy; none where the next hop is the server itself.
    pub origin: Option<Origin>,
}
