//! The targets that a proxy forwards to.
ghost use Rattle.std.specs.Prelude.{◌≡◌, [], ◌∷◌, ◌++◌, OnOk, OnErr};
ghost use Rattle.osc_proxy.specs.Targets as spec;

use osc_model::{Bytes, Peer};
use std::alloc::{AllocError, Global};
use std::marker::Model;

/// A target: the host and the port by which requests name it, and where they are sent.
#[derive(Debug, Drop)]
pub struct Target {
    /// The host; the case of ASCII letters doesn't count.
    pub host: Bytes,
    /// The port by which it is named.
    pub port: u16,
    /// To whom requests for it go.
    pub peer: Peer,
}

/// Targets; contracts see the list.
#[derive(Debug)]
pub struct Targets {
    items: Vec<Target>,
}

impl Drop for Targets {
    fn drop(self) {
        let Targets { items: _ } = self;
    }
}

impl Model for Targets {
    ghost use Rattle.std.specs.Prelude.{List};
    ghost use Rattle.osc_proxy.specs.declared.targets.Target.{Target as One};

    ghost Value = { List One };

    ghost view = { λ t. t.items.items };
}

/// Whether this is the target of that host and port.
fn is_named(host: &[u8], port: u16, target: &Target) -> bool
    ensures { result ≡ spec.is_named host.now port target.now }
{
    target.host.as_slice().eq_ignore_ascii_case(host) && target.port == port
}

impl Targets {
    /// No targets.
    pub fn new(alloc: Global) -> Targets
        ensures { result ≡ [] }
    {
        Targets {
            items: Vec::new(alloc),
        }
    }

    /// Adds a target after the others; without memory all stays as it was.
    pub fn push(&mut self, target: Target) -> Result<(), AllocError>
        ensures ok { OnOk result (self.new ≡ self.old ++ target ∷ []) }
        ensures err { OnErr result (self.new ≡ self.old) }
    {
        Ok(self.items.push(target)?)
    }

    /// To whom a request for this host and port goes: the first target of that name, if there is one.
    pub fn find(&self, host: &[u8], port: u16) -> Option<Peer>
        ensures { result ≡ spec.peer_of self.now host.now port }
    {
        let target = self
            .items
            .iter()
            .find(|target| is_named(host, port, target))?;
        Some(target.peer)
    }
}
