//! What a node made of a message, and what that changes.
ghost use Rattle.std.specs.Prelude.{◌≡◌, ◌≤◌, vec_len, vec_capacity};
ghost use Rattle.osc_model.specs.{exchange_lifetime};
ghost use Rattle.osc_message.specs.Bounds.{AreShort};
ghost use Rattle.osc_message.specs.Queue.{IsSoundQueue, messages};
ghost use Rattle.osc_message.specs.Endpoint.{lifetime as lifetime_of, noted, acknowledged_by, handled_pace, handled_seen, handled_sending, quickened_by};
ghost use Rattle.osc_message.specs.Sending.{IsSendableHandling, IsSendableReply};

use crate::confirmable::acknowledge;
use crate::pace::Pace;
use crate::queued::Queued;
use osc_coap::{Kind, MessageRef};
use osc_dedup::{Duplicates, Remembered};
use osc_model::limits::{EXCHANGE_LIFETIME, NON_LIFETIME};
use osc_model::{Bytes, Moment, Peer};

/// What a node made of a message that was new. The message layer knows no tokens: by this it settles what it heard.
#[derive(Clone, Debug, PartialEq, Eq, Drop)]
pub enum Handling {
    /// It was ignored, or rejected by a Reset: nothing is noted, and it is new again when it comes again.
    Dropped,
    /// It was answered by these bytes, or by none, and is noted with them.
    Answered(Option<Bytes>),
    /// It is a response that answers the request of this message ID, was itself answered by these bytes or by none, and is
    /// noted with them.
    Counted(u16, Option<Bytes>),
}

/// How long a note of a message of this kind lives, in ms (RFC 7252 section 4.8.2).
fn lifetime(kind: Kind) -> u64
    ensures value { result ≡ lifetime_of kind }
    ensures small { result ≤ exchange_lifetime }
{
    match kind {
        Kind::Confirmable => EXCHANGE_LIFETIME,
        _ => NON_LIFETIME,
    }
}

/// Notes a message that can be repeated, with what answered it.
fn note(seen: &mut Duplicates, now: Moment, from: Peer, kind: Kind, id: u16, reply: Option<Bytes>)
    ensures noted { seen.new ≡ noted now from kind id reply seen.old }
    ensures short { IsSendableReply reply → AreShort seen.old → AreShort seen.new }
{
    match kind {
        Kind::Acknowledgement | Kind::Reset => {}
        _ => seen.note(
            now,
            from,
            id,
            Remembered {
                until: now.ms + lifetime(kind),
                reply,
            },
        ),
    }
}

/// Ends the repeats of the message that an acknowledgement or a Reset names.
pub(crate) fn acknowledge_by(
    pace: &mut Pace,
    sending: &mut Vec<Queued>,
    from: Peer,
    kind: Kind,
    id: u16,
)
    ensures pace { pace.new ≡ quickened_by from kind id (messages sending.old.items) pace.old }
    ensures items { messages sending.new.items ≡ acknowledged_by from kind id (messages sending.old.items) }
    ensures more { pace.new.more ≡ pace.old.more }
    ensures sound { IsSoundQueue pace.old sending.old.items → IsSoundQueue pace.new sending.new.items }
    ensures len { vec_len sending.new ≤ vec_len sending.old }
    ensures capacity { vec_capacity sending.new ≡ vec_capacity sending.old }
{
    match kind {
        Kind::Acknowledgement | Kind::Reset => acknowledge(pace, sending, from, id),
        _ => {}
    }
}

/// Ends the repeats of the request that a response answers, where it counts.
pub(crate) fn handle_sending(
    pace: &mut Pace,
    sending: &mut Vec<Queued>,
    from: Peer,
    handling: &Handling,
)
    ensures pace { pace.new ≡ handled_pace from handling.now (messages sending.old.items) pace.old }
    ensures items { messages sending.new.items ≡ handled_sending from handling.now (messages sending.old.items) }
    ensures more { pace.new.more ≡ pace.old.more }
    ensures sound { IsSoundQueue pace.old sending.old.items → IsSoundQueue pace.new sending.new.items }
    ensures len { vec_len sending.new ≤ vec_len sending.old }
    ensures capacity { vec_capacity sending.new ≡ vec_capacity sending.old }
{
    match handling {
        Handling::Counted(request, _) => acknowledge(pace, sending, from, *request),
        _ => {}
    }
}

/// Notes a message by what the node made of it.
pub(crate) fn handle_seen(
    seen: &mut Duplicates,
    now: Moment,
    from: Peer,
    message: &MessageRef<'_>,
    handling: Handling,
)
    ensures seen { seen.new ≡ handled_seen now from message.now.kind message.now.id handling seen.old }
    ensures short { IsSendableHandling handling → AreShort seen.old → AreShort seen.new }
{
    match handling {
        Handling::Dropped => {}
        Handling::Answered(reply) | Handling::Counted(_, reply) => {
            note(seen, now, from, message.kind(), message.id(), reply)
        }
    }
}
