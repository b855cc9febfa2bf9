//! What is due of a confirmable message at a tick (RFC 7252 sections 4.2 and 4.8).
ghost use Rattle.std.specs.Prelude.{◌≡◌, ◌≤◌, ◌<◌, ◌+◌, ◌-◌, ◌^◌, List};
ghost use Rattle.osc_message.specs.Bounds.{IsBounded};
ghost use Rattle.osc_message.specs.Confirmables.{Open as AnyOpen, outstanding, waiting};
ghost use Rattle.osc_message.specs.Queue.{HasPlace};
ghost use Rattle.osc_message.specs.Ticks.{due_at as due_at_of, gives_up, outstanding_due, waiting_due, due_of as due_of_spec};

use crate::confirmable::{Open, Sent};
use crate::pace::Pace;
use crate::queue::allows;
use crate::queued::Queued;
use osc_model::Moment;

/// How often a message is retransmitted at most: MAX_RETRANSMIT.
const MOST_REPEATS: u32 = 4;

/// What a tick does with an open confirmable message.
#[derive(Clone, Copy, Debug, PartialEq, Eq)]
pub enum Due {
    /// Nothing.
    Keep,
    /// It goes out: for the first time, or once more.
    Send,
    /// It is given up.
    GiveUp,
}

/// After how many initial timeouts what comes next is due, once a message was retransmitted this often.
fn timeouts_until_next(repeats: u32) -> u64
    requires { repeats ≤ 4 }
    ensures value { result ≡ 2 ^ (repeats + 1) - 1 }
    ensures bound { result ≤ 31 }
{
    match repeats {
        0 => 1,
        1 => 3,
        2 => 7,
        3 => 15,
        _ => 31,
    }
}

/// When what comes next of an outstanding message is due, in ms.
pub(crate) fn due_at(message: &Open, sent: Sent) -> u64
    requires timeout { message.now.timeout ≤ 3000 }
    requires repeats { sent.repeats ≤ 4 }
    ensures { result ≡ due_at_of message.now sent }
{
    sent.at.ms + timeouts_until_next(sent.repeats) * message.timeout
}

fn due_of_outstanding(now: Moment, message: &Open, sent: Sent) -> Due
    requires timeout { message.now.timeout ≤ 3000 }
    requires repeats { sent.repeats ≤ 4 }
    ensures { result ≡ outstanding_due now message.now sent }
{
    if now.ms < due_at(message, sent) {
        Due::Keep
    } else if sent.repeats < MOST_REPEATS {
        Due::Send
    } else {
        Due::GiveUp
    }
}

/// What is due of a message that waits, whatever else is open, where it has its place.
pub(crate) fn due_of_waiting(pace: &Pace, queued: &Queued) -> Due
    ensures kept { result ≡ Due.Keep → 0 < queued.now.place }
    ensures due { (all earlier : List AnyOpen) → queued.now.place ≡ outstanding queued.now.message.to all + waiting queued.now.message.to earlier
        → result ≡ waiting_due pace.now all earlier queued.now.message }
{
    if allows(pace, queued.message.to, queued.place) {
        Due::Send
    } else {
        Due::Keep
    }
}

/// What is due of a message, whatever else is open, where it has its place.
pub(crate) fn due_of(pace: &Pace, now: Moment, queued: &Queued) -> Due
    requires { IsBounded queued.now.message }
    ensures { (all earlier : List AnyOpen) → HasPlace all earlier queued.now
        → result ≡ due_of_spec pace.now now all earlier queued.now.message queued.now.message.sent }
{
    match queued.message.sent {
        None => due_of_waiting(pace, queued),
        Some(sent) => due_of_outstanding(now, &queued.message, sent),
    }
}

/// Whether a message is given up now.
pub(crate) fn is_given_up(now: Moment, message: &Open) -> bool
    requires { IsBounded message.now }
    ensures { result ≡ gives_up now message.now }
{
    match message.sent {
        None => false,
        Some(sent) => matches!(due_of_outstanding(now, message, sent), Due::GiveUp),
    }
}
