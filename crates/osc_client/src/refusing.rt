//! What isn't begun.
ghost use Rattle.std.specs.Prelude.{◌≡◌};
ghost use Rattle.osc_client.specs.Sending.{refusing};

use osc_model::{ClientResult, Datagrams, Step, StepNotes};
use std::alloc::Global;

/// A step that isn't begun, for the reason of this number.
pub(crate) fn refused(alloc: Global, number: u8) -> Step
    ensures { result ≡ refusing number }
{
    Step {
        out: Datagrams::new(alloc),
        notes: StepNotes::quiet().with_result(ClientResult::Refused(number)),
    }
}
