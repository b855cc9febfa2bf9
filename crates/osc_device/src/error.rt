//! Why there is no device, or a call of one hands nothing out.
ghost use Rattle.std.specs.Prelude.{◌≡◌};
ghost use Rattle.osc_authz.specs.declared.enrolling.EnrollError.TheVariants as enroll;
ghost use Rattle.osc_device.specs.declared.error.CallError.TheVariants as call;
ghost use Rattle.osc_device.specs.declared.error.NewError.TheVariants as variants;

use osc_authz::EnrollError;
use osc_store::KeepError;
use std::alloc::AllocError;
use thiserror::Error;

/// Why a device can't be made: the first of these that applies, or lack of memory.
#[derive(Clone, Copy, Debug, PartialEq, Eq, Error)]
pub enum NewError {
    /// Its token's id has more than 64 bytes.
    #[error("the id of the device's token is too long")]
    Id,
    /// Its token's scope reaches below its paths, which its server refuses ([`crate::ServerParts::subtrees`]).
    #[error("the scope of the device's token reaches below its paths")]
    Subtrees,
    /// Its token can't be minted, or there was no memory.
    #[error("{0}")]
    Token(EnrollError),
    /// The post of its token would be longer than a datagram may be.
    #[error("the post of the device's token would be longer than a datagram may be")]
    TooLong,
}

impl From<EnrollError> for NewError {
    ghost from_gives = { λ error e. e ≡ variants.Token error };

    fn from(error: EnrollError) -> NewError {
        NewError::Token(error)
    }
}

impl From<AllocError> for NewError {
    ghost from_gives = { λ _ e. e ≡ variants.Token enroll.Memory };

    fn from(_error: AllocError) -> NewError {
        NewError::Token(EnrollError::Memory)
    }
}

/// Why a call of a device with a store hands nothing out.
#[derive(Clone, Copy, Debug, PartialEq, Eq, Error)]
pub enum CallError {
    /// No step was made for lack of memory; the device and what keeps its changes are as before.
    #[error("out of memory")]
    OutOfMemory,
    /// A step was made, and what it changed isn't kept, or may not be. The device has moved on, so it takes no other step, and each later call
    /// answers this: whoever starts it again finds the resources before that step, or after it.
    #[error("a change is not kept: {0}")]
    NotKept(KeepError),
}

impl From<AllocError> for CallError {
    ghost from_gives = { λ _ e. e ≡ call.OutOfMemory };

    fn from(_error: AllocError) -> CallError {
        CallError::OutOfMemory
    }
}
