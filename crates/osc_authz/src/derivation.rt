//! Derivation of a context whose IDs are lawful.

ghost use Rattle.std.specs.Prelude.{◌≡◌, ◌≢◌, ◌≤◌, [], length, IfOk};
ghost use Rattle.osc_context.specs.{sender_of, recipient_of};

use osc_context::{DeriveError, RecipientContext, SenderContext, derive};
use osc_model::{ContextName, Side};
use std::alloc::{AllocError, Global};

/// The contexts of one end of a name whose IDs are short and differ, so that only memory can run out.
pub(crate) fn derived(
    alloc: Global,
    name: &ContextName,
    side: Side,
) -> Result<(SenderContext, RecipientContext), AllocError>
    requires client { length name.now.client_id ≤ 7 }
    requires server { length name.now.server_id ≤ 7 }
    requires apart { name.now.client_id ≢ name.now.server_id }
    ensures sender { IfOk result (λ made. made.0 ≡ sender_of name.now side 0) }
    ensures recipient { IfOk result (λ made. made.1 ≡ recipient_of name.now side []) }
{
    match derive(alloc, name, side) {
        Ok(made) => Ok(made),
        Err(DeriveError::Memory) => Err(AllocError),
        Err(DeriveError::IdTooLong | DeriveError::EqualIds) => unreachable!(),
    }
}
