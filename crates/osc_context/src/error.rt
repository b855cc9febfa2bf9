//! Why a context isn't derived, or a number not taken.

ghost use Rattle.std.specs.Prelude.{◌≡◌};
ghost use Rattle.osc_model.specs.Refusals as refusal;
ghost use Rattle.osc_context.specs.Errors.{number_of};

use osc_model::refusals;
use thiserror::Error;

/// Why no security context is derived: the first of these that applies.
#[derive(Clone, Copy, Debug, PartialEq, Eq, Error)]
pub enum DeriveError {
    /// A sender ID has more than 7 bytes (RFC 8613 section 3.3).
    #[error("a sender ID has more than 7 bytes")]
    IdTooLong,
    /// Both ends have the same sender ID.
    #[error("both ends have the same sender ID")]
    EqualIds,
    /// There was no memory.
    #[error("out of memory")]
    Memory,
}

impl DeriveError {
    /// The number by which programs name the refusal.
    pub fn number(self) -> u8
        ensures { result ≡ number_of self }
    {
        match self {
            DeriveError::IdTooLong => refusals::ID_TOO_LONG,
            DeriveError::EqualIds => refusals::EQUAL_IDS,
            DeriveError::Memory => refusals::MEMORY,
        }
    }
}

/// All sender sequence numbers are taken (RFC 8613 section 7.2.1).
#[derive(Clone, Copy, Debug, PartialEq, Eq, Error)]
#[error("all sender sequence numbers are taken")]
pub struct Exhausted;

impl Exhausted {
    /// The number by which programs name the refusal.
    pub fn number(self) -> u8
        ensures { result ≡ refusal.exhausted }
    {
        refusals::EXHAUSTED
    }
}
