//! What a list of open messages holds for a peer, whether it takes one more, and whether that goes out at once (RFC 7252 section 4.7).
ghost use Rattle.std.specs.Prelude.{◌≡◌, ◌<◌, ◌+◌, ◌&&◌, true, false, not, length, nat_lt, vec_len, vec_capacity};
ghost use Rattle.osc_message.specs.Queue.{ArePlaced, IsSoundQueue, messages};
ghost use Rattle.osc_message.specs.Sending.{FitsDatagram};
ghost use Rattle.osc_message.specs.Timeout.{timeout_of};
ghost use Rattle.osc_message.specs.Confirmables.{is_to as is_to_of, is_outstanding, has_open as has_open_of, is_named as is_named_of, outstanding, waiting, peers_of, takes as takes_of};
ghost use Rattle.osc_message.specs.Pace.{Pace as AnyPace, allowed, goes_at_once as goes_at_once_of, has_sent_once as has_sent_once_of, sent_at, was_sent_once as was_sent_once_of, with_open};

use crate::confirmable::{Open, Sent, initial_timeout, is_named};
use crate::pace::Pace;
use crate::queued::{Queued, is_to};
use osc_model::{Datagram, Draw, Moment, Peer};

/// How many messages may wait for one peer.
const MOST_WAITING: usize = 16;

/// To how many peers messages may be open.
const MOST_PEERS: usize = 64;

fn is_outstanding_to(message: &Open, peer: Peer) -> bool
    ensures { result ≡ (is_to_of peer message.now && is_outstanding message.now) }
{
    is_to(message, peer) && message.sent.is_some()
}

fn is_waiting_for(message: &Open, peer: Peer) -> bool
    ensures { result ≡ (is_to_of peer message.now && not (is_outstanding message.now)) }
{
    is_to(message, peer) && message.sent.is_none()
}

/// Whether one is open to the peer.
pub(crate) fn has_open(all: &[Queued], peer: Peer) -> bool
    ensures { result ≡ has_open_of peer (messages all.now) }
{
    all.iter().any(|queued| is_to(&queued.message, peer))
}

/// How many are open to the peer.
fn count_open(all: &[Queued], peer: Peer) -> usize
    ensures { result ≡ outstanding peer (messages all.now) + waiting peer (messages all.now) }
{
    all.iter()
        .filter(|queued| is_to(&queued.message, peer))
        .count()
}

/// How many are outstanding to the peer.
fn count_outstanding(all: &[Queued], peer: Peer) -> usize
    ensures { result ≡ outstanding peer (messages all.now) }
{
    all.iter()
        .filter(|queued| is_outstanding_to(&queued.message, peer))
        .count()
}

/// How many wait for the peer.
fn count_waiting(all: &[Queued], peer: Peer) -> usize
    ensures { result ≡ waiting peer (messages all.now) }
{
    all.iter()
        .filter(|queued| is_waiting_for(&queued.message, peer))
        .count()
}

/// How many peers have one open: as many as messages that are the first to theirs.
fn count_peers(all: &[Queued]) -> usize
    requires { ArePlaced all.now }
    ensures { result ≡ length (peers_of (messages all.now)) }
{
    all.iter().filter(|queued| queued.place == 0).count()
}

/// Whether one more to the peer is taken.
pub(crate) fn takes(all: &[Queued], peer: Peer) -> bool
    requires { ArePlaced all.now }
    ensures { result ≡ takes_of peer (messages all.now) }
{
    if has_open(all, peer) {
        count_waiting(all, peer) < MOST_WAITING
    } else {
        count_peers(all) < MOST_PEERS
    }
}

/// How many messages are open at most, where one at a time is outstanding to a peer: to each of 64 peers that one and 16 that wait.
pub const MOST_OPEN: usize = MOST_PEERS * (1 + MOST_WAITING);

/// Whether a message was sent exactly once.
fn was_sent_once(message: &Open) -> bool
    ensures { result ≡ was_sent_once_of message.now.sent }
{
    match message.sent {
        None => false,
        Some(sent) => sent.repeats == 0,
    }
}

fn is_named_and_sent_once(message: &Open, peer: Peer, id: u16) -> bool
    ensures { result ≡ (is_named_of peer id message.now && was_sent_once_of message.now.sent) }
{
    is_named(message, peer, id) && was_sent_once(message)
}

/// Whether a message of this name was sent exactly once.
pub(crate) fn has_sent_once(all: &[Queued], peer: Peer, id: u16) -> bool
    ensures { result ≡ has_sent_once_of peer id (messages all.now) }
{
    all.iter()
        .any(|queued| is_named_and_sent_once(&queued.message, peer, id))
}

/// Whether one more is allowed to be outstanding to the peer, where so many are before it.
pub(crate) fn allows(pace: &Pace, peer: Peer, before: usize) -> bool
    ensures value { result ≡ nat_lt before (allowed pace.now peer) }
    ensures first { result ≡ false → 0 < before }
{
    before == 0 || (before <= pace.more() && !pace.is_slow(peer))
}

/// Whether one more to the peer goes out at once.
pub(crate) fn goes_at_once(pace: &Pace, all: &[Queued], peer: Peer) -> bool
    ensures { result ≡ goes_at_once_of pace.now peer (messages all.now) }
{
    count_waiting(all, peer) == 0 && allows(pace, peer, count_outstanding(all, peer))
}

/// How a message stands that goes out now, or waits.
fn first_sent(now: Moment, goes: bool) -> Option<Sent>
    ensures { result ≡ sent_at now goes }
{
    if goes {
        Some(Sent {
            at: now,
            repeats: 0,
        })
    } else {
        None
    }
}

/// Adds a message, in the room that there is.
pub(crate) fn push(
    sending: &mut Vec<Queued>,
    now: Moment,
    id: u16,
    draw: &Draw,
    datagram: Datagram,
    goes: bool,
)
    requires room { vec_len sending.old < vec_capacity sending.old }
    ensures items { (pace : AnyPace) → goes ≡ goes_at_once_of pace datagram.to (messages sending.old.items)
        → messages sending.new.items ≡ with_open pace now datagram.to id (timeout_of draw.now) datagram.bytes (messages sending.old.items) }
    ensures sound { (pace : AnyPace) → goes ≡ goes_at_once_of pace datagram.to (messages sending.old.items) → takes_of datagram.to (messages sending.old.items) ≡ true
        → FitsDatagram datagram.bytes → IsSoundQueue pace sending.old.items → IsSoundQueue pace sending.new.items }
    ensures len { vec_len sending.new ≡ vec_len sending.old + 1 }
    ensures capacity { vec_capacity sending.new ≡ vec_capacity sending.old }
{
    let place = count_open(sending, datagram.to);
    let message = Open {
        to: datagram.to,
        id,
        timeout: initial_timeout(draw),
        bytes: datagram.bytes,
        sent: first_sent(now, goes),
    };
    sending.push_reserved(Queued { message, place });
}
