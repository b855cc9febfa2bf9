//! A device by calls of plain numbers and bytes.
ghost use Rattle.std.specs.Prelude.{◌≡◌};
ghost use Rattle.osc_device.specs.{ServerTakesMemory};
ghost use Rattle.osc_c.specs.Ends.{Ends};
ghost use Rattle.osc_c.specs.Device.{HeardAt, HeardBy, TellsDeadline, TickedAt, TickedBy, Restarts, is_nowhere};
ghost use Rattle.osc_c.specs.Last.{HandsOut, nothing};
ghost use Rattle.osc_c.specs.Plain.{draw_of, peer_of};
ghost use Rattle.osc_c.specs.Told.{TellsLearnt};

use crate::calls::arguments::{moment, tell};
use crate::calls::last::Last;
use crate::calls::outcome::Outcome;
use crate::calls::plain::{PlainDraw, PlainPeer};
use osc_ccm::Ciphers;
use osc_device::{Device, DeviceCalls};
use osc_model::Moment;
use osc_turn::laws::one_path_changes;
use std::alloc::Global;

/// A device, and the step that its server made last for others.
pub struct DeviceNode {
    /// The device.
    pub device: Device,
    /// The last step.
    pub last: Last,
}

impl Drop for DeviceNode {
    fn drop(self) {
        let DeviceNode { device: _, last: _ } = self;
    }
}

/// Whether no datagram comes from there.
fn is_nowhere(from: &PlainPeer) -> bool
    ensures { result ≡ is_nowhere (peer_of from.now) }
{
    from.bytes == [0, 0, 0, 0, 0, 0, 0, 0, 0, 0, 0xff, 0xff, 0, 0, 0, 0]
}

impl DeviceNode {
    /// These bytes came from this peer as one datagram: `BadArgument` from 0.0.0.0, the device's own place.
    pub fn on_datagram<A: Ciphers>(
        &mut self,
        alloc: Global,
        now: u64,
        from: &PlainPeer,
        bytes: &[u8],
        draw: &PlainDraw,
    ) -> Outcome
        ensures { HeardBy A.is_sealing self.old (record { ms = now; from = peer_of from.now; bytes = bytes.now }) (draw_of draw.now) result self.new }
    {
        if is_nowhere(from) {
            return Outcome::BadArgument;
        }
        match moment(now) {
            Ok(now) => self.hear::<A>(alloc, now, from, bytes, draw),
            Err(outcome) => outcome,
        }
    }

    /// The same at a moment.
    fn hear<A: Ciphers>(
        &mut self,
        alloc: Global,
        now: Moment,
        from: &PlainPeer,
        bytes: &[u8],
        draw: &PlainDraw,
    ) -> Outcome
        ensures { Ends self.old result self.new
            (ServerTakesMemory self.old.device.server (record { at = now; from = peer_of from.now; draw = draw_of draw.now; what = bytes.now }))
            (HeardAt A.is_sealing self.old (record { at = now; from = peer_of from.now; draw = draw_of draw.now; what = bytes.now }) self.new) }
    {
        one_path_changes();
        let draw = draw.draw();
        match self
            .device
            .on_datagram::<A>(alloc, now, from.peer(), bytes, &draw)
        {
            Ok(step) => {
                self.last = Last::of(step);
                Outcome::Done
            }
            Err(_) => Outcome::NoMemory,
        }
    }

    /// What is due by now is done, whatever memory there is; where what should have gone out was lost, it says so.
    pub fn on_tick<A: Ciphers>(&mut self, alloc: Global, now: u64, draw: &PlainDraw) -> Outcome
        ensures { TickedBy A.is_sealing self.old now (draw_of draw.now) result self.new }
    {
        match moment(now) {
            Ok(now) => Outcome::of_tick(self.tick::<A>(alloc, now, draw)),
            Err(outcome) => outcome,
        }
    }

    /// The same at a moment: whether what should have gone out was lost. Nothing of it goes to others, and what the device learns by it is kept to be
    /// told.
    fn tick<A: Ciphers>(&mut self, alloc: Global, now: Moment, draw: &PlainDraw) -> bool
        ensures { TickedAt A.is_sealing self.old now (draw_of draw.now) result self.new }
    {
        one_path_changes();
        let round = self.device.on_tick::<A>(alloc, now, &draw.draw());
        let lost = round.begun.notes.lost();
        self.last = Last::ticked(round);
        lost
    }

    /// The first moment at which a tick does anything for the device itself.
    pub fn next_deadline(&self, moment: &mut u64) -> Outcome
        ensures { TellsDeadline self.now moment.old result moment.new }
    {
        tell(self.device.next_deadline(), moment)
    }

    /// Takes the next datagram of the last step.
    pub fn next(&mut self, to: &mut PlainPeer, bytes: &mut [u8], size: &mut usize) -> Outcome
        ensures handed { HandsOut self.old.last (record { to = to.old; bytes = bytes.old; size = size.old }) result self.new.last (record { to = to.new; bytes = bytes.new; size = size.new }) }
        ensures kept { self.new.device ≡ self.old.device }
    {
        self.last.next(to, bytes, size)
    }

    /// What the last step learnt, where it was a tick, of what an earlier call left open: how that ended, and the code of its answer.
    pub fn learnt(&self, code: &mut u8) -> Outcome
        ensures { TellsLearnt self.now.last.own code.old result code.new }
    {
        match self.last.learnt() {
            Some(told) => {
                *code = told.code;
                told.outcome
            }
            None => Outcome::Nothing,
        }
    }

    /// Starts again: resources stay, and security contexts are gone.
    pub fn restart(&mut self)
        ensures { Restarts self.old self.new }
    {
        self.device.restart();
        self.last = Last::nothing();
    }
}
