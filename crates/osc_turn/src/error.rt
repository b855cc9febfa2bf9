//! Why a turn made no step.
ghost use Rattle.std.specs.Prelude.{◌≡◌};
ghost use Rattle.osc_turn.specs.Errors.{turn_number};
ghost use Rattle.osc_turn.specs.declared.error.TurnError.TheVariants as turn_error;

use crate::port::PortFault;
use osc_model::refusals;
use thiserror::Error;

/// Why a turn made no step: the node is as before, and nothing was sent.
#[derive(Clone, Copy, Debug, PartialEq, Eq, Error)]
pub enum TurnError {
    /// The receive failed.
    #[error("{0}")]
    Port(PortFault),
    /// There was no memory for the step; what came is lost.
    #[error("out of memory")]
    Memory,
}

impl TurnError {
    /// The number by which programs name the refusal.
    pub fn number(self) -> u8
        ensures { result ≡ turn_number self }
    {
        match self {
            TurnError::Port(fault) => fault.number(),
            TurnError::Memory => refusals::MEMORY,
        }
    }
}

impl From<PortFault> for TurnError {
    ghost from_gives = { λ fault e. e ≡ turn_error.Port fault };

    fn from(fault: PortFault) -> TurnError {
        TurnError::Port(fault)
    }
}
