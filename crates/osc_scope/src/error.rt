//! Why bytes or a text are no scope.

ghost use Rattle.std.specs.Prelude.{◌≡◌};
ghost use Rattle.osc_scope.specs.Errors.{number_of};
ghost use Rattle.osc_scope.specs.declared.error.ScopeError.TheVariants as scope_variants;

use osc_model::refusals;
use std::alloc::{AllocError, AllocFailed};
use thiserror::Error;

/// Why bytes or a text are no scope.
#[derive(Clone, Copy, Debug, PartialEq, Eq, Error)]
pub enum ScopeError {
    /// They aren't of its form.
    #[error("not a scope")]
    BadScope,
    /// There was no memory.
    #[error("out of memory")]
    Memory,
}

impl ScopeError {
    /// The number by which programs name the refusal.
    pub fn number(self) -> u8
        ensures { result ≡ number_of self }
    {
        match self {
            ScopeError::BadScope => refusals::BAD_SCOPE,
            ScopeError::Memory => refusals::MEMORY,
        }
    }
}

impl From<AllocError> for ScopeError {
    ghost from_gives = { λ _ e. e ≡ scope_variants.Memory };

    fn from(_error: AllocError) -> ScopeError {
        ScopeError::Memory
    }
}

impl<T: Drop> From<AllocFailed<T>> for ScopeError {
    ghost from_gives = { λ _ e. e ≡ scope_variants.Memory };

    fn from(_error: AllocFailed<T>) -> ScopeError {
        ScopeError::Memory
    }
}
