//! What the lines of a script do to its world.
ghost use Rattle.std.specs.Prelude.{◌≡◌, IfOk, OnOk, Some, length};
ghost use Rattle.osc_world.specs.{settled};
ghost use Rattle.osc_simulation.specs.Events.{datagram_number, what_of};
ghost use Rattle.osc_simulation.specs.Names as names;
ghost use Rattle.osc_simulation.specs.Draw.{drawn};
ghost use Rattle.osc_simulation.specs.Simulation as spec;

use crate::draw::{DrawnBefore, ScriptDraws};
use crate::happening::{datagram_number, what_of};
use crate::names::{Names, number_of};
use osc_ccm::Suite;
use osc_model::{Draw, Moment};
use osc_script::Line;
use osc_world::{Draws, Event, What, World};
use std::alloc::{AllocError, Global};

/// The most deliveries of a quiet round.
const QUIET_LIMIT: usize = 1000;

/// How far a script has come.
pub struct Stage {
    /// The world, as the lines so far left it.
    pub world: World,
    /// The moment of the events that come.
    pub moment: Moment,
    /// What the last `draw` line gave.
    pub draws: Option<DrawnBefore>,
}

impl Drop for Stage {
    fn drop(self) {
        let Stage {
            world: _,
            moment: _,
            draws: _,
        } = self;
    }
}

impl Stage {
    /// Before the first line.
    pub fn first(world: World) -> Stage
        ensures world { result.world ≡ world }
        ensures first { spec.IsFirst result }
    {
        Stage {
            world,
            moment: Moment::START,
            draws: None,
        }
    }

    /// The world, as far as the script has come.
    pub fn world(&self) -> &World
        ensures { result.now ≡ self.now.world }
    {
        &self.world
    }

    /// Does what the line says, in a script of these names. Whether nothing waits still at the end of a quiet round; for
    /// any other line that is so. For lack of memory an `AllocError`; a quiet round may have begun then.
    pub fn does(&mut self, alloc: Global, names: &Names, line: &Line) -> Result<bool, AllocError>
        ensures { IfOk result (λ quiet. spec.Does names.now self.old line.now quiet self.new) }
    {
        match line {
            Line::At { moment } => self.moment = *moment,
            Line::Draw { nonce } => self.give(*nonce),
            Line::Drop { datagram } => self.leave_out(*datagram),
            Line::Skip { client, number } => self
                .world
                .skip(number_of(names.clients(), *client), *number),
            Line::Quiet => return self.quiet(alloc),
            _ => self.event(alloc, names, line)?,
        }
        Ok(true)
    }

    // The next event is given these first random bytes.
    fn give(&mut self, first: [u8; 8])
        ensures { self.new ≡ record self.old { draws = Some (record { event = length self.old.world.records; first = first }) } }
    {
        self.draws = Some(DrawnBefore {
            event: self.world.records().len(),
            first,
        });
    }

    // No quiet round delivers the datagram K.
    fn leave_out(&mut self, datagram: u64)
        ensures { self.new ≡ record self.old { world = record self.old.world { sent = settled (datagram_number self.old.world.sent datagram) self.old.world.sent } } }
    {
        let number = datagram_number(self.world.sent(), datagram);
        self.world.drop_datagram(number);
    }

    // What waits is delivered.
    fn quiet(&mut self, alloc: Global) -> Result<bool, AllocError>
        ensures { IfOk result (λ quiet. spec.Quiets self.old quiet self.new) }
    {
        let draws = ScriptDraws(self.draws);
        self.world
            .quiet::<Suite, ScriptDraws>(alloc, self.moment, &draws, QUIET_LIMIT)
    }

    // The event that the line is, if it is one.
    fn event(&mut self, alloc: Global, names: &Names, line: &Line) -> Result<(), AllocError>
        ensures { OnOk result (spec.ComesOf self.old (what_of names.now self.old.world.sent line.now) self.new) }
    {
        match what_of(alloc, names, self.world.sent(), line)? {
            Some(what) => self.comes(alloc, what),
            None => Ok(()),
        }
    }

    // This happens, now.
    fn comes(&mut self, alloc: Global, what: What) -> Result<(), AllocError>
        ensures { OnOk result (spec.Comes self.old what self.new) }
    {
        let event = Event {
            moment: self.moment,
            draw: self.draw(),
            what,
        };
        let happened = self.world.step::<Suite>(alloc, &event);
        drop(event);
        happened
    }

    // The random bytes of the next event.
    fn draw(&self) -> Draw
        ensures { result ≡ drawn self.now.draws (length self.now.world.records) }
    {
        ScriptDraws(self.draws).draw(self.world.records().len())
    }
}
