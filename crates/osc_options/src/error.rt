//! Why a plaintext is no request, or no reply.
ghost use Rattle.std.specs.Prelude.{◌≡◌};
ghost use Rattle.osc_options.specs.Errors.{number_of};

use osc_model::refusals;
use thiserror::Error;

/// Why a plaintext is not the request, or not the reply, that it is read as.
#[derive(Clone, Copy, Debug, PartialEq, Eq, Hash, Error)]
pub enum PlaintextError {
    /// The bytes are no plaintext, or its code is none of a request, or none of a response.
    #[error("the plaintext is no such message")]
    Format,
    /// The first option that must not be inside, by its number: a critical one that isn't recognised, or in a request
    /// one of class U.
    #[error("the option {0} is not understood inside")]
    BadOption(u16),
    /// There is not enough memory.
    #[error("out of memory")]
    Memory,
}

impl PlaintextError {
    /// The error's number, under which programs report it: 13 `Format`, 15 `BadOption`, 9 `Memory`.
    pub fn number(self) -> u8
        ensures { result ≡ number_of self }
    {
        match self {
            PlaintextError::Format => refusals::FORMAT,
            PlaintextError::BadOption(_) => refusals::BAD_OPTION,
            PlaintextError::Memory => refusals::MEMORY,
        }
    }
}
