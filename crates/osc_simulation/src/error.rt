//! Why a script has no whole trace.
ghost use Rattle.std.specs.Prelude.{◌≡◌};
ghost use Rattle.osc_simulation.specs.Simulation.{untraced};
ghost use Rattle.osc_simulation.specs.declared.error.TraceError.TheVariants as trace_error;

use osc_script::ScriptError;
use std::alloc::AllocError;

/// Why a script has no whole trace.
#[derive(Clone, Copy, Debug, PartialEq, Eq)]
pub enum TraceError {
    /// The line of this number, counted from 1, is the first that applies for nothing.
    BadLine(u64),
    /// There was no memory.
    OutOfMemory,
    /// The output failed.
    Output,
}

impl From<AllocError> for TraceError {
    ghost from_gives = { λ _ e. e ≡ trace_error.OutOfMemory };

    fn from(_error: AllocError) -> TraceError {
        TraceError::OutOfMemory
    }
}

impl From<ScriptError> for TraceError {
    ghost from_gives = { λ error e. e ≡ untraced error };

    fn from(error: ScriptError) -> TraceError {
        match error {
            ScriptError::BadLine(number) => TraceError::BadLine(number),
            ScriptError::OutOfMemory => TraceError::OutOfMemory,
        }
    }
}
