//! A proxy by calls of plain numbers and bytes.
ghost use Rattle.std.specs.Prelude.{◌≡◌, ◌≤◌, IfOk, OnOk, OnErr};
ghost use Rattle.osc_c.specs.Ends.{Ends};
ghost use Rattle.osc_c.specs.Last.{HandsOut, nothing};
ghost use Rattle.osc_c.specs.Plain.{draw_of, peer_of};
ghost use Rattle.osc_c.specs.Proxy.{AddsTarget, AddsTargetTo, HeardAt, HeardBy, HearsInMemory, IsRunning, Paces, PacesBy, TellsDeadline, TickedBy, TicksInMemory, TicksOr, proxy_of, restarted_from};
ghost use Rattle.osc_c.specs.Settings.{no_settings};
ghost use Rattle.osc_proxy.specs.{Hears};
ghost use Rattle.osc_proxy.specs.Ticks.{Ticks};
ghost use Rattle.osc_c.specs.declared.calls.proxy.Forwarding.TheVariants.{Setting};

use crate::calls::arguments::{is_host, moment, tell};
use crate::calls::last::Last;
use crate::calls::outcome::Outcome;
use crate::calls::plain::{PlainDraw, PlainPeer};
use crate::calls::setting::Settings;
use osc_model::{Moment, Peer, Step};
use osc_proxy::Proxy;
use std::alloc::{AllocError, Global};

/// A proxy before its first event, and after it.
pub enum Forwarding {
    /// Its settings, which may change.
    Setting(Settings),
    /// The proxy.
    Running(Proxy),
}

impl Drop for Forwarding {
    fn drop(self) {
        match self {
            Forwarding::Setting(settings) => drop(settings),
            Forwarding::Running(proxy) => drop(proxy),
        }
    }
}

/// A proxy, and the step that it made last.
pub struct ProxyNode {
    /// The proxy.
    pub forwarding: Forwarding,
    /// Its last step.
    pub last: Last,
}

impl Drop for ProxyNode {
    fn drop(self) {
        let ProxyNode {
            forwarding: _,
            last: _,
        } = self;
    }
}

impl Forwarding {
    /// What the running proxy makes of these bytes.
    fn hear(
        &mut self,
        alloc: Global,
        now: Moment,
        from: Peer,
        bytes: &[u8],
        draw: &PlainDraw,
    ) -> Result<Step, AllocError>
        ensures heard { IfOk result (λ step.
            Hears (proxy_of self.old) (record { at = now; from = from; draw = draw_of draw.now; what = bytes.now }) step (proxy_of self.new)) }
        ensures runs { OnOk result (IsRunning self.new) }
        ensures err { OnErr result (self.new ≡ self.old) }
        ensures needs_memory { OnErr result (HearsInMemory self.old (record { at = now; from = from; draw = draw_of draw.now; what = bytes.now })) }
    {
        match self {
            Forwarding::Running(proxy) => {
                proxy.on_datagram(alloc, now, from, bytes, &draw.draw())
            }
            Forwarding::Setting(settings) => {
                let mut proxy = settings.started(alloc)?;
                let step = proxy.on_datagram(alloc, now, from, bytes, &draw.draw())?;
                *self = Forwarding::Running(proxy);
                Ok(step)
            }
        }
    }

    /// What is due at the running proxy.
    fn tick(&mut self, alloc: Global, now: Moment, draw: &PlainDraw) -> Result<Step, AllocError>
        ensures ticked { IfOk result (λ step. Ticks (proxy_of self.old) now (draw_of draw.now) step (proxy_of self.new)) }
        ensures runs { OnOk result (IsRunning self.new) }
        ensures err { OnErr result (self.new ≡ self.old) }
        ensures needs_memory { OnErr result (TicksInMemory self.old) }
    {
        match self {
            Forwarding::Running(proxy) => Ok(proxy.on_tick(alloc, now, &draw.draw())),
            Forwarding::Setting(settings) => {
                let mut proxy = settings.started(alloc)?;
                let step = proxy.on_tick(alloc, now, &draw.draw());
                *self = Forwarding::Running(proxy);
                Ok(step)
            }
        }
    }
}

impl ProxyNode {
    /// A proxy without targets, which sends one confirmable message at a time to a peer.
    pub fn new(alloc: Global) -> ProxyNode
        ensures { result ≡ record { forwarding = Setting no_settings; last = nothing } }
    {
        ProxyNode {
            forwarding: Forwarding::Setting(Settings::new(alloc)),
            last: Last::nothing(),
        }
    }

    /// Requests for this host and port go there from now on: `NotNow` after its first event, and `BadArgument` for a host that no request can name.
    pub fn add_target(&mut self, alloc: Global, host: &[u8], port: u16, to: &PlainPeer) -> Outcome
        ensures { AddsTarget (record { host = host.now; port = port; peer = peer_of to.now }) self.old result self.new }
    {
        if is_host(host) {
            self.add(alloc, host, port, to)
        } else {
            Outcome::BadArgument
        }
    }

    fn add(&mut self, alloc: Global, host: &[u8], port: u16, to: &PlainPeer) -> Outcome
        ensures { AddsTargetTo (record { host = host.now; port = port; peer = peer_of to.now }) self.old.forwarding self.old result self.new }
    {
        match &mut self.forwarding {
            Forwarding::Setting(settings) => match settings.add(alloc, host, port, to.peer()) {
                Ok(()) => Outcome::Done,
                Err(_) => Outcome::NoMemory,
            },
            Forwarding::Running(_) => Outcome::NotNow,
        }
    }

    /// Up to so many confirmable messages of the proxy's own may be outstanding to a peer: `NotNow` after its first event, and `BadArgument` where that
    /// isn't 1 to 16.
    pub fn pace(&mut self, most: u8) -> Outcome
        ensures { Paces most self.old result self.new }
    {
        if 1 <= most && most <= 16 {
            self.pace_by(most)
        } else {
            Outcome::BadArgument
        }
    }

    fn pace_by(&mut self, most: u8) -> Outcome
        requires { (1 ≤ most) × (most ≤ 16) }
        ensures { PacesBy most self.old.forwarding self.old result self.new }
    {
        match &mut self.forwarding {
            Forwarding::Setting(settings) => {
                settings.pace(most);
                Outcome::Done
            }
            Forwarding::Running(_) => Outcome::NotNow,
        }
    }

    /// These bytes came from this peer as one datagram.
    pub fn on_datagram(
        &mut self,
        alloc: Global,
        now: u64,
        from: &PlainPeer,
        bytes: &[u8],
        draw: &PlainDraw,
    ) -> Outcome
        ensures { HeardBy self.old (record { ms = now; from = peer_of from.now; bytes = bytes.now }) (draw_of draw.now) result self.new }
    {
        match moment(now) {
            Ok(now) => self.hear(alloc, now, from, bytes, draw),
            Err(outcome) => outcome,
        }
    }

    /// The same at a moment.
    fn hear(
        &mut self,
        alloc: Global,
        now: Moment,
        from: &PlainPeer,
        bytes: &[u8],
        draw: &PlainDraw,
    ) -> Outcome
        ensures { Ends self.old result self.new
            (HearsInMemory self.old.forwarding (record { at = now; from = peer_of from.now; draw = draw_of draw.now; what = bytes.now }))
            (HeardAt self.old (record { at = now; from = peer_of from.now; draw = draw_of draw.now; what = bytes.now }) self.new) }
    {
        match self.forwarding.hear(alloc, now, from.peer(), bytes, draw) {
            Ok(step) => {
                self.last = Last::of(step);
                Outcome::Done
            }
            Err(_) => Outcome::NoMemory,
        }
    }

    /// What is due by now is done; where what should have gone out was lost, it says so.
    pub fn on_tick(&mut self, alloc: Global, now: u64, draw: &PlainDraw) -> Outcome
        ensures { TickedBy self.old now (draw_of draw.now) result self.new }
    {
        match moment(now) {
            Ok(now) => self.tick(alloc, now, draw),
            Err(outcome) => outcome,
        }
    }

    /// The same at a moment.
    fn tick(&mut self, alloc: Global, now: Moment, draw: &PlainDraw) -> Outcome
        ensures { TicksOr self.old now (draw_of draw.now) result self.new }
    {
        match self.forwarding.tick(alloc, now, draw) {
            Ok(step) => {
                let lost = step.notes.lost();
                self.last = Last::of(step);
                Outcome::of_tick(lost)
            }
            Err(_) => Outcome::NoMemory,
        }
    }

    /// The first moment at which a tick does anything.
    pub fn next_deadline(&self, moment: &mut u64) -> Outcome
        ensures { TellsDeadline self.now moment.old result moment.new }
    {
        let deadline = match &self.forwarding {
            Forwarding::Running(proxy) => proxy.next_deadline(),
            Forwarding::Setting(_) => None,
        };
        tell(deadline, moment)
    }

    /// Takes the next datagram of the last step.
    pub fn next(&mut self, to: &mut PlainPeer, bytes: &mut [u8], size: &mut usize) -> Outcome
        ensures handed { HandsOut self.old.last (record { to = to.old; bytes = bytes.old; size = size.old }) result self.new.last (record { to = to.new; bytes = bytes.new; size = size.new }) }
        ensures kept { self.new.forwarding ≡ self.old.forwarding }
    {
        self.last.next(to, bytes, size)
    }

    /// Starts again: it forgets what it heard, and keeps its targets.
    pub fn restart(&mut self)
        ensures { self.new ≡ record { forwarding = restarted_from self.old.forwarding; last = nothing } }
    {
        if let Forwarding::Running(proxy) = &mut self.forwarding {
            proxy.restart();
        }
        self.last = Last::nothing();
    }
}
