//! What a proxy that runs later is told.
ghost use Rattle.std.specs.Prelude.{◌≡◌, ◌≤◌, ◌-◌, [], ◌∷◌, ◌++◌, IfOk, OnErr, OnOk};
ghost use Rattle.osc_c.specs.Settings.{no_settings};
ghost use Rattle.osc_message.specs.{fresh_with};
ghost use Rattle.osc_proxy.specs.{none_open};

use osc_model::{Bytes, Peer};
use osc_proxy::{Proxy, Target, Targets};
use std::alloc::{AllocError, Global};
use std::marker::Model;

/// Targets, and how many confirmable messages more than one may be outstanding to a peer; contracts see both.
pub struct Settings {
    items: Vec<Target>,
    more: u8,
}

impl Drop for Settings {
    fn drop(self) {
        let Settings { items: _, more: _ } = self;
    }
}

impl Model for Settings {
    ghost use Rattle.std.specs.Prelude.{◌≤◌};
    ghost use Rattle.osc_c.specs.Settings.{SettingsState};

    ghost Value = { SettingsState };

    ghost view = { λ s. record { targets = s.items.items; more = s.more } };

    ghost invariant = { λ s. s.more ≤ 15 };
}

impl Settings {
    /// No targets, and one message at a time.
    pub fn new(alloc: Global) -> Settings
        ensures { result ≡ no_settings }
    {
        Settings {
            items: Vec::new(alloc),
            more: 0,
        }
    }

    /// Up to so many messages may be outstanding to a peer.
    pub fn pace(&mut self, most: u8)
        requires { (1 ≤ most) × (most ≤ 16) }
        ensures { self.new ≡ record self.old { more = most - 1 } }
    {
        self.more = most - 1;
    }

    /// Adds a target after the others; without memory all stays as it was.
    pub fn add(
        &mut self,
        alloc: Global,
        host: &[u8],
        port: u16,
        peer: Peer,
    ) -> Result<(), AllocError>
        ensures ok { OnOk result (self.new ≡ record self.old { targets = self.old.targets ++ record { host = host.now; port = port; peer = peer } ∷ [] }) }
        ensures err { OnErr result (self.new ≡ self.old) }
    {
        let host = Bytes::from_slice(alloc, host)?;
        Ok(self.items.push(Target { host, port, peer })?)
    }

    /// A proxy of these settings; they stay.
    pub fn started(&self, alloc: Global) -> Result<Proxy, AllocError>
        ensures { IfOk result (λ proxy. proxy ≡ record { targets = self.now.targets; exchanges = none_open; endpoint = fresh_with self.now.more }) }
    {
        Proxy::with_pace(alloc, self.copied(alloc)?, self.more + 1)
    }

    fn copied(&self, alloc: Global) -> Result<Targets, AllocError>
        ensures { IfOk result (λ targets. targets ≡ self.now.targets) }
    {
        let mut targets = Targets::new(alloc);
        for target in &self.items {
            targets.push(copy_of(target)?)?;
        }
        Ok(targets)
    }
}

/// The same target.
fn copy_of(target: &Target) -> Result<Target, AllocError>
    ensures { IfOk result (λ copy. copy ≡ target.now) }
{
    Ok(Target {
        host: target.host.clone()?,
        port: target.port,
        peer: target.peer,
    })
}
