//! A device whose holder keeps what its steps change, before anything of such a step is handed out.
ghost use Rattle.std.specs.Prelude.{◌≡◌, ◌≢◌, IfErr, IfOk};
ghost use Rattle.osc_model.specs.declared.code.Method.TheVariants.{Post, Put};
ghost use Rattle.osc_c.specs.Device.{HeardBy, Restarts, TickedBy};
ghost use Rattle.osc_c.specs.Given.{device_given, value_given};
ghost use Rattle.osc_c.specs.Keeping.{HandsOutKept, Settles, SettlesBy, StartsKeeping, StepsAs, StepsBy, is_withheld, waits_for};
ghost use Rattle.osc_c.specs.Making.{IsNewDevice, IsNoNewDevice};
ghost use Rattle.osc_c.specs.Own.{AsksBy, IsSoWhereDone, OpensBy, RemovesBy, RulesBy};
ghost use Rattle.osc_c.specs.Plain.{draw_of, peer_of};
ghost use Rattle.osc_c.specs.declared.calls.keeping.Keeping.TheVariants.{Off};
ghost use Rattle.osc_c.specs.declared.calls.outcome.Outcome.TheVariants as outcome;

use crate::calls::arguments::flag;
use crate::calls::device::DeviceNode;
use crate::calls::outcome::Outcome;
use crate::calls::plain::{PlainDeviceSettings, PlainDraw, PlainDraws, PlainPeer, PlainResource};
use crate::calls::round::{Told, bare};
use osc_ccm::Ciphers;
use osc_device::Ruling;
use osc_model::Method;
use std::alloc::Global;

/// Whether the holder of a device keeps what its steps change.
#[derive(Clone, Copy, Debug, PartialEq, Eq)]
pub enum Keeping {
    /// It doesn't.
    Off,
    /// It does: nothing of a step that changed something is handed out before that is kept, and no other step is made.
    On,
    /// It does, and what the last step changed couldn't be kept: nothing of it is handed out, and no other step is made.
    Failed,
}

/// A device with the step that it made last, and whether its holder keeps what steps change.
pub struct KeptNode {
    /// The device.
    pub node: DeviceNode,
    /// Whether its holder keeps what steps change.
    pub keeping: Keeping,
}

impl Drop for KeptNode {
    fn drop(self) {
        let KeptNode {
            node: _,
            keeping: _,
        } = self;
    }
}

impl KeptNode {
    /// A device as [`DeviceNode::new`] makes it, of which nothing is kept.
    pub fn new<A: Ciphers>(
        alloc: Global,
        settings: &PlainDeviceSettings<'_>,
        first: &[PlainResource<'_>],
        draw: &PlainDraw,
    ) -> Result<KeptNode, Outcome>
        ensures ok { IfOk result (λ kept. IsNewDevice A.is_sealing (device_given settings.now) first.now draw.now.bytes kept.node × (kept.keeping ≡ Off)) }
        ensures err { IfErr result (IsNoNewDevice (device_given settings.now) first.now draw.now.bytes) }
    {
        match DeviceNode::new::<A>(alloc, settings, first, draw) {
            Ok(node) => Ok(KeptNode {
                node,
                keeping: Keeping::Off,
            }),
            Err(outcome) => Err(outcome),
        }
    }

    /// Whether what the last step changed waits to be kept.
    pub(crate) fn waits(&self) -> bool
        ensures { result ≡ waits_for self.now.keeping self.now.node.last }
    {
        match self.keeping {
            Keeping::On => self.node.last.waits(),
            _ => false,
        }
    }

    /// Whether nothing is handed out, and no step is made.
    fn is_withheld(&self) -> bool
        ensures { result ≡ is_withheld self.now }
    {
        match self.keeping {
            Keeping::Failed => true,
            _ => self.waits(),
        }
    }

    /// From now on the holder keeps what steps change, the last one's too.
    pub fn start_keeping(&mut self) -> Outcome
        ensures { StartsKeeping self.old.keeping self.old result self.new }
    {
        match self.keeping {
            Keeping::Failed => Outcome::NotKept,
            _ => {
                self.keeping = Keeping::On;
                Outcome::Done
            }
        }
    }

    /// The holder says whether what the last step changed is kept: 1, or 0.
    pub fn settle(&mut self, said: u8) -> Outcome
        ensures { SettlesBy self.old said result self.new }
    {
        match flag(said) {
            Ok(is_kept) => self.settle_as(is_kept),
            Err(outcome) => outcome,
        }
    }

    /// The same, by whether it is.
    fn settle_as(&mut self, is_kept: bool) -> Outcome
        ensures { Settles self.old is_kept result self.new }
    {
        if !self.waits() {
            return match self.keeping {
                Keeping::Failed => Outcome::NotKept,
                _ => Outcome::Nothing,
            };
        }
        if is_kept {
            self.node.last.keep();
        } else {
            self.keeping = Keeping::Failed;
        }
        Outcome::Done
    }

    /// Takes the next datagram of the last step, unless something is withheld.
    pub fn next(&mut self, to: &mut PlainPeer, bytes: &mut [u8], size: &mut usize) -> Outcome
        ensures { HandsOutKept self.old (record { to = to.old; bytes = bytes.old; size = size.old }) result self.new (record { to = to.new; bytes = bytes.new; size = size.new }) }
    {
        if self.is_withheld() {
            return Outcome::NotKept;
        }
        self.node.next(to, bytes, size)
    }

    /// These bytes came from this peer as one datagram, as for [`DeviceNode::on_datagram`].
    pub fn on_datagram<A: Ciphers>(
        &mut self,
        alloc: Global,
        now: u64,
        from: &PlainPeer,
        bytes: &[u8],
        draw: &PlainDraw,
    ) -> Outcome
        ensures { StepsBy self.old result self.new (λ old outcome new.
            HeardBy A.is_sealing old (record { ms = now; from = peer_of from.now; bytes = bytes.now }) (draw_of draw.now) outcome new) }
    {
        if self.is_withheld() {
            return Outcome::NotKept;
        }
        self.node.on_datagram::<A>(alloc, now, from, bytes, draw)
    }

    /// What is due by now is done, as for [`DeviceNode::on_tick`].
    pub fn on_tick<A: Ciphers>(&mut self, alloc: Global, now: u64, draw: &PlainDraw) -> Outcome
        ensures { StepsBy self.old result self.new (λ old outcome new. TickedBy A.is_sealing old now (draw_of draw.now) outcome new) }
    {
        if self.is_withheld() {
            return Outcome::NotKept;
        }
        self.node.on_tick::<A>(alloc, now, draw)
    }

    /// Starts again: resources stay, and security contexts are gone.
    pub fn restart(&mut self) -> Outcome
        ensures { StepsBy self.old result self.new (λ old answer new. (answer ≡ outcome.Done) × Restarts old new) }
    {
        if self.is_withheld() {
            return Outcome::NotKept;
        }
        self.node.restart();
        Outcome::Done
    }

    /// Gives the device a security context with its server, as [`DeviceNode::open`] does.
    pub fn open<A: Ciphers>(&mut self, alloc: Global, now: u64, draws: &PlainDraws) -> Told
        ensures opens { StepsAs self.old result self.new (λ old told new. OpensBy A.is_sealing old now draws.now told new) }
        ensures fits { result.outcome ≢ outcome.TooLong }
    {
        if self.is_withheld() {
            return bare(Outcome::NotKept);
        }
        self.node.open::<A>(alloc, now, draws)
    }

    /// Puts this value at the path (PUT), or appends it to what is there (POST).
    pub fn write<A: Ciphers>(
        &mut self,
        alloc: Global,
        method: Method,
        now: u64,
        given: &PlainResource<'_>,
        draws: &PlainDraws,
    ) -> Told
        ensures { StepsAs self.old result self.new (λ old told new.
            AsksBy A.is_sealing A.TAG old (record { method = method; value = value_given now given.now; draws = draws.now }) told new) }
    {
        if self.is_withheld() {
            return bare(Outcome::NotKept);
        }
        self.node.write::<A>(alloc, method, now, given, draws)
    }

    /// Removes what is at the path.
    pub fn remove<A: Ciphers>(
        &mut self,
        alloc: Global,
        now: u64,
        path: &[u8],
        draws: &PlainDraws,
    ) -> Told
        ensures { StepsAs self.old result self.new (λ old told new.
            RemovesBy A.is_sealing A.TAG old (record { ms = now; path = path.now; draws = draws.now }) told new) }
    {
        if self.is_withheld() {
            return bare(Outcome::NotKept);
        }
        self.node.remove::<A>(alloc, now, path, draws)
    }

    /// Revokes the tokens of this id, or lets them in again, as [`DeviceNode::rule`] does.
    pub fn rule<A: Ciphers>(
        &mut self,
        alloc: Global,
        ruling: Ruling,
        now: u64,
        id: &[u8],
        draws: &PlainDraws,
    ) -> Told
        ensures { StepsAs self.old result self.new (λ old told new.
            RulesBy A.is_sealing A.TAG ruling old (record { ms = now; id = id.now; draws = draws.now }) told new
            × IsSoWhereDone ruling (record { ms = now; id = id.now; draws = draws.now }) told new) }
    {
        if self.is_withheld() {
            return bare(Outcome::NotKept);
        }
        self.node.rule::<A>(alloc, ruling, now, id, draws)
    }
}
