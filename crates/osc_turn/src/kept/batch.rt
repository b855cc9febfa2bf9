//! The steps of a turn.
ghost use Rattle.std.specs.Prelude.{◌≡◌, ◌<◌, ◌++◌, ◌∷◌, [], IfOk, length, nat_le};
ghost use Rattle.osc_turn.specs.Running.{any_changed, most_steps};

use crate::kept::changes::is_change;
use crate::turning::Stepped;
use osc_model::Moment;
use std::alloc::{AllocError, Global};
use std::marker::Model;

// How many steps a turn makes at most.
pub(crate) const MOST_STEPS: usize = 64;

/// The moment of a turn, and its steps, with room for as many as a turn makes at most: the room is taken once, and turns after one another use it.
#[derive(Drop)]
pub struct Batch {
    at: Moment,
    steps: Vec<Stepped>,
}

impl Model for Batch {
    ghost use Rattle.std.specs.Prelude.{◌≤◌, vec_capacity};
    ghost use Rattle.osc_turn.specs.Running.{BatchState, most_steps};

    ghost Value = { BatchState };

    ghost view = { λ batch. record { at = batch.at; steps = batch.steps.items } };

    ghost invariant = { λ batch. most_steps ≤ vec_capacity batch.steps };
}

impl Batch {
    /// With no steps, at this moment.
    pub fn new(alloc: Global, now: Moment) -> Result<Batch, AllocError>
        ensures { IfOk result (λ batch. batch ≡ record { at = now; steps = [] }) }
    {
        Ok(Batch {
            at: now,
            steps: Vec::with_capacity(alloc, MOST_STEPS)?,
        })
    }

    /// The moment of the turn.
    pub fn at(&self) -> Moment
        ensures { result ≡ self.now.at }
    {
        self.at
    }

    /// The steps of the turn, in order.
    pub fn steps(&self) -> &[Stepped]
        ensures { result.now ≡ self.now.steps }
    {
        &self.steps
    }

    // For a turn at this moment.
    pub(crate) fn begin(&mut self, now: Moment)
        ensures { self.new ≡ record { at = now; steps = [] } }
    {
        self.at = now;
        self.steps.clear();
    }

    // Whether it has as many steps as a turn makes at most.
    pub(crate) fn is_full(&self) -> bool
        ensures { result ≡ nat_le most_steps (length self.now.steps) }
    {
        MOST_STEPS <= self.steps.len()
    }

    // One step more.
    pub(crate) fn push(&mut self, stepped: Stepped)
        requires { length self.old.steps < most_steps }
        ensures { self.new ≡ record self.old { steps = self.old.steps ++ stepped ∷ [] } }
    {
        self.steps.push_reserved(stepped);
    }

    // Whether any of the steps changed a resource.
    pub(crate) fn any_changed(&self) -> bool
        ensures { result ≡ any_changed self.now.steps }
    {
        let mut any = false;
        for stepped in &self.steps {
            any = any || is_change(stepped.step.notes.served());
        }
        any
    }
}
