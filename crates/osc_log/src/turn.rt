//! A turn as a log is told of it.
ghost use Rattle.std.specs.Prelude.{◌≡◌, option_map};

use crate::form::Form;
use osc_model::{Datagram, Entry, Moment, RefusedRequest, Step, StepNotes};
use std::marker::Model;

/// A turn of a node, as its log is told of it.
#[derive(Drop)]
pub struct Turn<'a> {
    /// When it was.
    pub now: Moment,
    /// Whether a datagram came; else it was a tick.
    pub received: bool,
    /// What the node did.
    pub step: &'a Step,
}

impl<'a> Model for Turn<'a> {
    ghost use Rattle.osc_log.specs.Turns.{Turn as Told};

    ghost Value = { Told };

    ghost view = { λ turn. record { now = turn.now; received = turn.received; step = turn.step.now } };
}

impl Turn<'_> {
    /// When it was.
    pub(crate) fn moment(&self) -> Moment
        ensures { result ≡ self.entry.now.now }
    {
        self.now
    }

    /// Whether a datagram came.
    pub(crate) fn has_received(&self) -> bool
        ensures { result ≡ self.entry.now.received }
    {
        self.received
    }

    /// What the step sent.
    pub(crate) fn sent(&self) -> &[Datagram]
        ensures { result.now ≡ self.entry.now.step.out }
    {
        self.step.out.as_slice()
    }

    /// What the step did beside sending.
    pub(crate) fn notes(&self) -> &StepNotes
        ensures { result.now ≡ self.entry.now.step.notes }
    {
        &self.step.notes
    }

    /// What the step served.
    pub(crate) fn served(&self) -> Option<&Entry>
        ensures { option_map (λ entry. entry.now) result ≡ self.entry.now.step.notes.served }
    {
        self.step.notes.served()
    }

    /// By whose token: the id of the token that a post was agreed to with, or that made the context of what was served.
    pub(crate) fn holder(&self) -> Option<&[u8]>
        ensures { option_map (λ id. id.now) result ≡ self.entry.now.step.notes.holder }
    {
        self.step.notes.holder()
    }

    /// What the step refused.
    pub(crate) fn refused(&self) -> Option<RefusedRequest>
        ensures { result ≡ self.entry.now.step.notes.refused }
    {
        self.step.notes.refused()
    }
}

/// How a turn is told: in which form, and at which time.
#[derive(Drop)]
pub(crate) struct Telling<'a> {
    pub form: Form,
    pub time: &'a str,
}

impl<'a> Model for Telling<'a> {
    ghost use Rattle.osc_log.specs.Turns.{Telling as Told};

    ghost Value = { Told };

    ghost view = { λ telling. record { form = telling.form; time = telling.time.now } };
}

impl Telling<'_> {
    /// In which form.
    pub(crate) fn form(&self) -> Form
        ensures { result ≡ self.entry.now.form }
    {
        self.form
    }

    /// At which time.
    pub(crate) fn time(&self) -> &str
        ensures { result.now ≡ self.entry.now.time }
    {
        self.time
    }
}
