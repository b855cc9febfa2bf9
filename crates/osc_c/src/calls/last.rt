//! The step that a node made last.
ghost use Rattle.std.specs.Prelude.{◌≡◌, ◌+◌, ◌<◌, ◌^◌, true, IsSome, option_copied, option_map, slice_get};
ghost use Rattle.osc_c.specs.Last.{HandsOut, after_next, entry_in, entry_of, nothing, since, since_own, since_tick, upcoming};

use crate::calls::filling::fill;
use crate::calls::outcome::Outcome;
use crate::calls::plain::PlainPeer;
use crate::calls::round::{Told, what_came};
use osc_device::Round;
use osc_model::{Datagram, Entry, Step};
use std::marker::Model;

/// The step that a node made last, where it made one that sends to others, and how many of its datagrams were taken; what the device itself
/// learnt by it, where it was its tick and it learnt something; the step that a device's server made for the device itself, where it made one; and
/// whether its holder has kept what was changed.
pub struct Last {
    step: Option<Step>,
    taken: usize,
    own: Option<Told>,
    served: Option<Step>,
    kept: bool,
}

impl Drop for Last {
    fn drop(self) {
        let Last {
            step: _,
            taken: _,
            own: _,
            served: _,
            kept: _,
        } = self;
    }
}

impl Model for Last {
    ghost use Rattle.osc_c.specs.Last.{LastStep};

    ghost Value = { LastStep };

    ghost view = { λ l. record { step = l.step; taken = l.taken; own = l.own; served = l.served; kept = l.kept } };
}

impl Last {
    /// No step.
    pub fn nothing() -> Last
        ensures { result ≡ nothing }
    {
        Last {
            step: None,
            taken: 0,
            own: None,
            served: None,
            kept: false,
        }
    }

    /// This step, of which nothing was taken.
    pub fn of(step: Step) -> Last
        ensures { result ≡ since step }
    {
        Last {
            step: Some(step),
            taken: 0,
            own: None,
            served: None,
            kept: false,
        }
    }

    /// A tick of a device's own, of which nothing goes to others.
    pub(crate) fn ticked(round: Round) -> Last
        ensures { result ≡ since_tick round }
    {
        let own = what_came(&round);
        let mut last = Last::asked(round);
        last.own = own;
        last
    }

    /// What the device itself asked of its server, of which nothing goes to others.
    pub(crate) fn asked(round: Round) -> Last
        ensures { result ≡ since_own round }
    {
        let Round {
            begun: _,
            served,
            learnt: _,
        } = round;
        Last {
            step: None,
            taken: 0,
            own: None,
            served,
            kept: false,
        }
    }

    /// What the device itself learnt by a tick: the outcome of what it had begun, and the code of its answer.
    pub fn learnt(&self) -> Option<Told>
        ensures { result ≡ self.now.own }
    {
        self.own
    }

    /// The step.
    pub fn step(&self) -> Option<&Step>
        ensures { option_map (λ step. step.now) result ≡ self.now.step }
    {
        self.step.as_ref()
    }

    /// The request that the server served, if it served one: for others, or for the device itself.
    pub(crate) fn entry(&self) -> Option<&Entry>
        ensures { option_copied result ≡ entry_of self.now.step self.now.served }
    {
        match &self.step {
            Some(step) => step.notes.served(),
            None => entry_in(&self.served),
        }
    }

    /// Whether what was changed is kept.
    pub(crate) fn is_kept(&self) -> bool
        ensures { result ≡ self.now.kept }
    {
        self.kept
    }

    /// Notes that what was changed is kept.
    pub(crate) fn keep(&mut self)
        ensures { self.new ≡ record self.old { kept = true } }
    {
        self.kept = true;
    }

    /// Takes the next datagram, where there is room for it: to whom it goes, its bytes, at the front, and how many they are.
    pub fn next(&mut self, to: &mut PlainPeer, bytes: &mut [u8], size: &mut usize) -> Outcome
        ensures { HandsOut self.old (record { to = to.old; bytes = bytes.old; size = size.old }) result self.new (record { to = to.new; bytes = bytes.new; size = size.new }) }
    {
        let Some(datagram) = self.upcoming() else {
            return Outcome::Nothing;
        };
        *size = datagram.bytes.len();
        if !fill(bytes, datagram.bytes.as_slice()) {
            return Outcome::TooShort;
        }
        *to = PlainPeer::of(datagram.to);
        self.take();
        Outcome::Done
    }

    /// Notes that the next datagram was taken.
    fn take(&mut self)
        requires { self.old.taken + 1 < 2 ^ 64 }
        ensures { self.new ≡ after_next self.old }
    {
        self.taken += 1;
    }

    /// The datagram that is taken next.
    fn upcoming(&self) -> Option<&Datagram>
        ensures value { option_copied result ≡ upcoming self.now }
        ensures more { IsSome result → self.now.taken + 1 < 2 ^ 64 }
    {
        match &self.step {
            Some(step) => nth(step.out.as_slice(), self.taken),
            None => None,
        }
    }
}

/// The request that a step of the server served, if there was a step, and it served one.
fn entry_in(step: &Option<Step>) -> Option<&Entry>
    ensures { option_copied result ≡ entry_in step.now }
{
    match step {
        Some(step) => step.notes.served(),
        None => None,
    }
}

/// The datagram of this number, from 0.
fn nth(out: &[Datagram], number: usize) -> Option<&Datagram>
    ensures value { option_copied result ≡ slice_get out.now number }
    ensures more { IsSome result → number + 1 < 2 ^ 64 }
{
    if number < out.len() {
        Some(&out[number])
    } else {
        None
    }
}
