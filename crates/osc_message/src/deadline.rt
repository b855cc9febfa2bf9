//! When the next tick has to come.
ghost use Rattle.std.specs.Prelude.{◌≡◌, ◌≢◌, ◌||◌, not, [], List, None, IfNone, IsSome};
ghost use Rattle.osc_model.specs.declared.node.Moment.{Moment as AnyMoment};
ghost use Rattle.osc_message.specs.Bounds.{IsBounded, is_reached};
ghost use Rattle.osc_message.specs.Confirmables.{Open as AnyOpen};
ghost use Rattle.osc_message.specs.Queue.{HasPlace, IsIdle, IsSoundQueue, messages};
ghost use Rattle.osc_message.specs.Ticks.{due_of as due_of_spec, is_kept, acts};

use crate::due::{Due, due_at, due_of_waiting};
use crate::pace::Pace;
use crate::queued::Queued;
use osc_model::Moment;

/// When something is due of a message, in ms, or none where nothing will be as things are.
fn deadline_of(pace: &Pace, queued: &Queued) -> Option<u64>
    requires { IsBounded queued.now.message }
    ensures none { IfNone result (IsIdle queued.now) }
    ensures reached { (now : AnyMoment) (all earlier : List AnyOpen) → HasPlace all earlier queued.now
        → is_reached now result ≡ not (is_kept (due_of_spec pace.now now all earlier queued.now.message queued.now.message.sent)) }
{
    match queued.message.sent {
        None => match due_of_waiting(pace, queued) {
            Due::Keep => None,
            _ => Some(0),
        },
        Some(sent) => Some(due_at(&queued.message, sent)),
    }
}

fn first_of(a: Option<u64>, b: Option<u64>) -> Option<u64>
    ensures reached { (now : AnyMoment) → is_reached now result ≡ (is_reached now a || is_reached now b) }
    ensures none { IfNone result ((a ≡ None) × (b ≡ None)) }
{
    match (a, b) {
        (None, _) => b,
        (_, None) => a,
        (Some(first), Some(second)) => Some(first.min(second)),
    }
}

/// The first moment at which a tick does anything, in ms, or none. The work grows with the number of open messages.
pub(crate) fn deadline(pace: &Pace, all: &[Queued]) -> Option<u64>
    requires { IsSoundQueue pace.now all.now }
    ensures reached { (now : AnyMoment) → is_reached now result ≡ acts pace.now now (messages all.now) }
    ensures open { all.now ≢ [] → IsSome result }
{
    let mut first = None;
    for index in 0..all.len() {
        first = first_of(first, deadline_of(pace, &all[index]));
    }
    first
}

/// Whether a tick does anything at this moment; the work is that of `deadline`.
pub(crate) fn is_due(pace: &Pace, now: Moment, all: &[Queued]) -> bool
    requires { IsSoundQueue pace.now all.now }
    ensures { result ≡ acts pace.now now (messages all.now) }
{
    deadline(pace, all).is_some_and(|first| first <= now.ms)
}
