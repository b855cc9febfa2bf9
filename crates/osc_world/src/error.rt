//! Why a client isn't taken in, or a proxy isn't added.

ghost use Rattle.std.specs.Prelude.{◌≡◌};
ghost use Rattle.osc_authz.specs.declared.enrolling.EnrollError.TheVariants as enroll_variants;
ghost use Rattle.osc_world.specs.declared.error.AdmitError.TheVariants as admit_variants;
ghost use Rattle.osc_world.specs.declared.error.PlaceError.TheVariants as place_variants;

use osc_authz::EnrollError;
use std::alloc::AllocError;
use thiserror::Error;

/// Why a client isn't taken in: the first of these that applies, or lack of memory.
#[derive(Clone, Copy, Debug, PartialEq, Eq, Error)]
pub enum AdmitError {
    /// A node is at its address.
    #[error("another node stands at this address")]
    AddressTaken,
    /// It can't be enrolled, or there was no memory.
    #[error("{0}")]
    Refused(EnrollError),
}

/// Why a proxy can't be added.
#[derive(Clone, Copy, Debug, PartialEq, Eq, Error)]
pub enum PlaceError {
    /// A node is at its address.
    #[error("another node stands at this address")]
    AddressTaken,
    /// There was no memory.
    #[error("out of memory")]
    Memory,
}

impl From<AllocError> for PlaceError {
    ghost from_gives = { λ _ e. e ≡ place_variants.Memory };

    fn from(_error: AllocError) -> PlaceError {
        PlaceError::Memory
    }
}

impl From<EnrollError> for AdmitError {
    ghost from_gives = { λ error e. e ≡ admit_variants.Refused error };

    fn from(error: EnrollError) -> AdmitError {
        AdmitError::Refused(error)
    }
}

impl From<AllocError> for AdmitError {
    ghost from_gives = { λ _ e. e ≡ admit_variants.Refused enroll_variants.Memory };

    fn from(_error: AllocError) -> AdmitError {
        AdmitError::Refused(EnrollError::Memory)
    }
}
