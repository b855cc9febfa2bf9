//! Why nothing of a turn was sent.
ghost use Rattle.osc_turn.specs.declared.error.TurnError.{TurnError as NoStep};
ghost use Rattle.std.specs.Prelude.{◌≡◌};

use crate::TurnError;
use osc_store::KeepError;
use std::io;
use thiserror::Error;

/// Why nothing of a turn was sent.
#[derive(Debug, Drop, Error)]
pub enum Unsent {
    /// The clocks couldn't be read; all is as before.
    #[error("{0}")]
    NoMoment(io::Error),
    /// No step was made; the node and what keeps its steps are as before.
    #[error("{0}")]
    NoStep(TurnError),
    /// Steps were made, and what one changed isn't kept, or may not be. The node has moved on, so it may take no other turn: whoever starts
    /// it again finds the resources before the turn, or after it.
    #[error("a change is not kept: {0}")]
    NotKept(KeepError),
}
