//! Open confirmable messages, and their initial timeout (RFC 7252 sections 4.2 and 4.8).
ghost use Rattle.std.specs.Prelude.{◌≡◌, ◌≤◌, vec_len, vec_capacity};
ghost use Rattle.osc_message.specs.Queue.{IsSoundQueue, messages};
ghost use Rattle.osc_message.specs.Timeout.{timeout_of};
ghost use Rattle.osc_message.specs.Confirmables.{is_named as is_named_of, acknowledged};
ghost use Rattle.osc_message.specs.Pace.{Pace as AnyPace, quickened};

use crate::pace::Pace;
use crate::queue::has_sent_once;
use crate::queued::{Queued, place_again};
use osc_model::{Bytes, Draw, Moment, Peer};

/// The state of a message that went out.
#[derive(Clone, Copy, Debug, PartialEq, Eq)]
pub struct Sent {
    /// When it first went out.
    pub at: Moment,
    /// How often it was retransmitted since.
    pub repeats: u32,
}

/// A confirmable message that is open: outstanding since it went out, or waiting until then.
#[derive(Debug, Drop)]
pub struct Open {
    /// To whom.
    pub to: Peer,
    /// Its message ID.
    pub id: u16,
    /// Its initial timeout in ms.
    pub timeout: u64,
    /// The payload of its UDP datagram.
    pub bytes: Bytes,
    /// How it stands once it went out.
    pub sent: Option<Sent>,
}

/// The initial timeout of a message in ms: 2000 to 3000.
pub fn initial_timeout(draw: &Draw) -> u64
    ensures value { result ≡ timeout_of draw.now }
    ensures within { (2000 ≤ result) × (result ≤ 3000) }
{
    2000 + draw.timeout() as u64 % 1001
}

/// Whether the message is to this peer and of this ID.
pub(crate) fn is_named(message: &Open, peer: Peer, id: u16) -> bool
    ensures { result ≡ is_named_of peer id message.now }
{
    peer == message.to && id == message.id
}

/// Takes out what is named so.
pub(crate) fn withdraw(queue: &mut Vec<Queued>, peer: Peer, id: u16)
    ensures items { messages queue.new.items ≡ acknowledged peer id (messages queue.old.items) }
    ensures sound { (pace : AnyPace) → IsSoundQueue pace queue.old.items → IsSoundQueue pace queue.new.items }
    ensures len { vec_len queue.new ≤ vec_len queue.old }
    ensures capacity { vec_capacity queue.new ≡ vec_capacity queue.old }
{
    queue.retain(|queued| !is_named(&queued.message, peer, id));
    place_again(queue, peer);
}

/// This peer acknowledged what is named so: where that was sent exactly once, the peer is slow no more.
fn quicken(pace: &mut Pace, queue: &[Queued], peer: Peer, id: u16)
    ensures pace { pace.new ≡ quickened peer id (messages queue.now) pace.old }
    ensures more { pace.new.more ≡ pace.old.more }
{
    if has_sent_once(queue, peer, id) {
        pace.speed_up(peer);
    }
}

/// Takes out what this peer acknowledged by this ID.
pub(crate) fn acknowledge(pace: &mut Pace, queue: &mut Vec<Queued>, peer: Peer, id: u16)
    ensures pace { pace.new ≡ quickened peer id (messages queue.old.items) pace.old }
    ensures items { messages queue.new.items ≡ acknowledged peer id (messages queue.old.items) }
    ensures more { pace.new.more ≡ pace.old.more }
    ensures sound { IsSoundQueue pace.old queue.old.items → IsSoundQueue pace.new queue.new.items }
    ensures len { vec_len queue.new ≤ vec_len queue.old }
    ensures capacity { vec_capacity queue.new ≡ vec_capacity queue.old }
{
    quicken(pace, queue, peer, id);
    withdraw(queue, peer, id);
}
