//! Which socket each node of a lab has.
ghost use Rattle.std.specs.List.{find};
ghost use Rattle.std.specs.Prelude.{◌≡◌, ◌++◌, ◌∷◌, [], OnOk, option_map};
ghost use Rattle.osc_model.specs.{same_peer};
ghost use Rattle.osc_lab.specs.Network as spec;

use osc_model::Peer;
use std::alloc::{AllocError, Global};
use std::marker::Model;

/// The address of a node in its script, and that of its socket.
#[derive(Clone, Copy, Debug, PartialEq, Eq)]
pub(crate) struct Known {
    /// The address in the script, such as 127.0.0.1:5683 for the server.
    pub script: Peer,
    /// The address that the system gave its socket.
    pub socket: Peer,
}

/// Which socket each node of a lab has; contracts see the list.
#[derive(Drop)]
pub(crate) struct AddressMap {
    entries: Vec<Known>,
}

impl Model for AddressMap {
    ghost use Rattle.std.specs.Prelude.{List};
    ghost use Rattle.osc_lab.specs.declared.port.Known.{Known as Entry};

    ghost Value = { List Entry };

    ghost view = { λ addresses. addresses.entries.items };
}

impl AddressMap {
    /// No nodes.
    pub fn new(alloc: Global) -> AddressMap
        ensures { result ≡ [] }
    {
        AddressMap {
            entries: Vec::new(alloc),
        }
    }

    /// Adds a node.
    pub fn add(&mut self, known: Known) -> Result<(), AllocError>
        ensures { OnOk result (self.new ≡ self.old ++ known ∷ []) }
    {
        Ok(self.entries.push(known)?)
    }

    /// Where the node of this address in the script listens; elsewhere is itself.
    pub fn socket(&self, script: Peer) -> Peer
        ensures { result ≡ spec.socket_of self.now script }
    {
        match known_as(&self.entries, script) {
            Some(known) => known.socket,
            None => script,
        }
    }

    /// Which address in the script the node of this socket has; elsewhere is itself.
    pub fn script(&self, socket: Peer) -> Peer
        ensures { result ≡ spec.script_of self.now socket }
    {
        match known_at(&self.entries, socket) {
            Some(known) => known.script,
            None => socket,
        }
    }
}

// The node of this address in the script.
fn known_as(all: &[Known], script: Peer) -> Option<&Known>
    ensures { option_map (λ known. known.now) result ≡ find (λ known. same_peer known.script script) all.now }
{
    all.iter().find(|known| known.script == script)
}

// The node of this socket.
fn known_at(all: &[Known], socket: Peer) -> Option<&Known>
    ensures { option_map (λ known. known.now) result ≡ find (λ known. same_peer known.socket socket) all.now }
{
    all.iter().find(|known| known.socket == socket)
}
