//! What came.
use osc_coap::MessageRef;
use osc_model::{Draw, Moment, Peer};
use std::marker::Model;

/// A message that came: when, from whom, and what is drawn for the step that it causes.
#[derive(Drop)]
pub struct Arrival<'a> {
    /// When it came.
    pub at: Moment,
    /// Who sent it.
    pub from: Peer,
    /// The random bytes of the step.
    pub draw: &'a Draw,
    /// The message.
    pub message: MessageRef<'a>,
}

impl<'a> Model for Arrival<'a> {
    ghost use Rattle.osc_coap.specs.Message.{Message};
    ghost use Rattle.osc_model.specs.Arrival.{Arrival as ArrivalOf};

    ghost Value = { ArrivalOf Message };

    ghost view = { λ came. record { at = came.at; from = came.from; draw = came.draw.now; what = came.message } };
}
