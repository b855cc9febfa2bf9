//! The nodes that a script names.
ghost use Rattle.std.specs.Prelude.{◌≡◌, ◌+◌, IfSome, IfNone};
ghost use Rattle.osc_script.specs.Node as spec;
ghost use Rattle.osc_script.specs.declared.client_name.ClientName.{ClientName as AnyClient};
ghost use Rattle.osc_script.specs.declared.proxy_name.ProxyName.{ProxyName as AnyProxy};

use crate::client_name::ClientName;
use crate::proxy_name::ProxyName;
use crate::words;
use osc_model::Peer;
use osc_model::limits::DEFAULT_PORT;

impl ClientName {
    /// The client of this name.
    pub fn named(text: &str) -> Option<ClientName>
        ensures some { IfSome result (λ client. text.now ≡ spec.client_name client) }
        ensures none { IfNone result ((client : AnyClient) → ¬ (text.now ≡ spec.client_name client)) }
    {
        words::client(text.as_bytes())
    }

    /// Its name in a script and in a trace.
    pub fn name(self) -> &'static str
        ensures { result.now ≡ spec.client_name self }
    {
        match self.digit {
            1 => "c1",
            2 => "c2",
            3 => "c3",
            4 => "c4",
            5 => "c5",
            6 => "c6",
            7 => "c7",
            8 => "c8",
            9 => "c9",
            _ => unreachable!(),
        }
    }

    /// Where its datagrams come from and go to.
    pub fn address(self) -> Peer
        ensures { result ≡ spec.local (7000 + self.digit) }
    {
        local(CLIENTS_PORT + self.digit as u16)
    }

    // The client of an address.
    fn at(peer: Peer) -> Option<ClientName>
        ensures some { IfSome result (λ client. peer ≡ spec.local (7000 + client.digit)) }
        ensures none { IfNone result ((client : AnyClient) → ¬ (peer ≡ spec.local (7000 + client.digit))) }
    {
        if peer != local(peer.port) || peer.port <= CLIENTS_PORT || peer.port > CLIENTS_PORT + 9 {
            return None;
        }
        Some(ClientName {
            digit: (peer.port - CLIENTS_PORT) as u8,
        })
    }
}

impl ProxyName {
    /// Its name in a script and in a trace.
    pub fn name(self) -> &'static str
        ensures { result.now ≡ spec.proxy_name self }
    {
        match self.digit {
            1 => "p1",
            2 => "p2",
            3 => "p3",
            4 => "p4",
            5 => "p5",
            6 => "p6",
            7 => "p7",
            8 => "p8",
            9 => "p9",
            _ => unreachable!(),
        }
    }

    /// Where its datagrams come from and go to.
    pub fn address(self) -> Peer
        ensures { result ≡ spec.local (6000 + self.digit) }
    {
        local(PROXIES_PORT + self.digit as u16)
    }

    // The proxy of an address.
    fn at(peer: Peer) -> Option<ProxyName>
        ensures some { IfSome result (λ proxy. peer ≡ spec.local (6000 + proxy.digit)) }
        ensures none { IfNone result ((proxy : AnyProxy) → ¬ (peer ≡ spec.local (6000 + proxy.digit))) }
    {
        if peer != local(peer.port) || peer.port <= PROXIES_PORT || peer.port > PROXIES_PORT + 9 {
            return None;
        }
        Some(ProxyName {
            digit: (peer.port - PROXIES_PORT) as u8,
        })
    }
}

/// A node, with its name and its address in a simulation.
#[derive(Clone, Copy, Debug, PartialEq, Eq)]
pub enum NodeName {
    /// `s`, 127.0.0.1:5683.
    Server,
    /// `c1` to `c9`, 127.0.0.1:7001 to 127.0.0.1:7009.
    Client(ClientName),
    /// `p1` to `p9`, 127.0.0.1:6001 to 127.0.0.1:6009.
    Proxy(ProxyName),
    /// `x`, 127.0.0.1:9000: it takes datagrams and does nothing.
    Stranger,
}

// The clients' ports are this and their digit.
const CLIENTS_PORT: u16 = 7000;

// The proxies' ports are this and their digit.
const PROXIES_PORT: u16 = 6000;

const STRANGER_PORT: u16 = 9000;

// The address of all nodes, 127.0.0.1, which their ports tell apart.
fn local(port: u16) -> Peer
    ensures { result ≡ spec.local port }
{
    Peer::v4([127, 0, 0, 1], port)
}

impl NodeName {
    /// Its name in a script and in a trace.
    pub fn name(self) -> &'static str
        ensures { result.now ≡ spec.name_of self }
    {
        match self {
            NodeName::Server => "s",
            NodeName::Client(client) => client.name(),
            NodeName::Proxy(proxy) => proxy.name(),
            NodeName::Stranger => "x",
        }
    }

    /// Where its datagrams come from and go to.
    pub fn address(self) -> Peer
        ensures { result ≡ spec.address_of self }
    {
        match self {
            NodeName::Server => local(DEFAULT_PORT),
            NodeName::Client(client) => client.address(),
            NodeName::Proxy(proxy) => proxy.address(),
            NodeName::Stranger => local(STRANGER_PORT),
        }
    }

    /// The node of an address.
    pub fn at(peer: Peer) -> Option<NodeName>
        ensures some { IfSome result (λ node. peer ≡ spec.address_of node) }
        ensures none { IfNone result ((node : NodeName) → ¬ (peer ≡ spec.address_of node)) }
    {
        if peer == local(DEFAULT_PORT) {
            Some(NodeName::Server)
        } else if peer == local(STRANGER_PORT) {
            Some(NodeName::Stranger)
        } else {
            match ClientName::at(peer) {
                Some(client) => Some(NodeName::Client(client)),
                None => Some(NodeName::Proxy(ProxyName::at(peer)?)),
            }
        }
    }
}
