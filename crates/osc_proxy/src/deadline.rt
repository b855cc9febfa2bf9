//! When the next tick has to come.
ghost use Rattle.std.specs.Prelude.{◌≡◌, ◌≢◌, ◌||◌, [], IsSome};
ghost use Rattle.osc_model.specs.declared.node.Moment.{Moment as AnyMoment};
ghost use Rattle.osc_message.specs.{is_reached, acts as messages_act};

use crate::Endpoint;

/// The earlier of two moments, where there is any.
pub(crate) fn first_of(a: Option<u64>, b: Option<u64>) -> Option<u64>
    ensures reached { (now : AnyMoment) → is_reached now result ≡ (is_reached now a || is_reached now b) }
    ensures first { IsSome a → IsSome result }
    ensures second { IsSome b → IsSome result }
{
    match (a, b) {
        (None, _) => b,
        (_, None) => a,
        (Some(first), Some(second)) => Some(first.min(second)),
    }
}

/// The first moment at which the message layer sends or gives up anything, in ms, or none.
pub(crate) fn messages_deadline(endpoint: &Endpoint) -> Option<u64>
    ensures reached { (now : AnyMoment) → is_reached now result ≡ messages_act endpoint.now.pace now endpoint.now.sending }
    ensures open { endpoint.now.sending ≢ [] → IsSome result }
{
    endpoint.next_deadline()
}
