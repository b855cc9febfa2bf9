//! Open messages in the order in which they were made, each with its place among those that are open to its peer.
ghost use Rattle.std.specs.Prelude.{◌≡◌, ◌≤◌, ◌<◌, ◌+◌, ◌^◌, vec_capacity, vec_len};
ghost use Rattle.osc_message.specs.Confirmables.{is_to as is_to_of};
ghost use Rattle.osc_message.specs.Queue.{place_after, placed, placed_one};

use crate::confirmable::Open;
use osc_model::Peer;

/// An open message, with its place.
#[derive(Drop)]
pub(crate) struct Queued {
    /// The message.
    pub message: Open,
    /// How many that were made before it are open to its peer.
    pub place: usize,
}

pub(crate) fn is_to(message: &Open, peer: Peer) -> bool
    ensures { result ≡ is_to_of peer message.now }
{
    peer == message.to
}

/// Puts the place of a message, where it is to the peer, and answers how many are open to the peer now, where there were `before` of them
/// before it.
fn place_one(queued: &mut Queued, peer: Peer, before: usize) -> usize
    requires { before < 2 ^ 63 }
    ensures placed { queued.new ≡ placed_one peer before queued.old }
    ensures after { result ≡ place_after peer before queued.old.message }
    ensures bound { result ≤ before + 1 }
{
    if is_to(&queued.message, peer) {
        queued.place = before;
        before + 1
    } else {
        before
    }
}

/// Puts the places of the messages to the peer, where some of them were taken out.
pub(crate) fn place_again(queue: &mut Vec<Queued>, peer: Peer)
    ensures items { queue.new.items ≡ placed peer 0 queue.old.items }
    ensures len { vec_len queue.new ≡ vec_len queue.old }
    ensures capacity { vec_capacity queue.new ≡ vec_capacity queue.old }
{
    let mut before = 0;
    for index in 0..queue.len() {
        before = place_one(&mut queue[index], peer, before);
    }
}
