//! How many confirmable messages may be outstanding to a peer at once (RFC 7252 section 4.7).
ghost use Rattle.std.specs.Prelude.{◌≡◌, ◌≤◌, ◌<◌, ◌+◌, ◌-◌, ◌∷◌, take, vec_len, vec_capacity, IfOk};
ghost use Rattle.osc_message.specs.Pace.{is_slow, paced, others, slowed_for};

use osc_model::Peer;
use std::alloc::{AllocError, Global};
use std::marker::Model;

/// How many slow peers are known at most.
const MOST_SLOW: usize = 64;

/// How many confirmable messages may be outstanding to a peer at once, and the slow peers: a message to them was sent again, and none that was
/// sent once was acknowledged since.
///
/// The room for the slow peers is taken when it is made, where more than one message may be outstanding.
#[derive(Drop)]
pub(crate) struct Pace {
    /// How many more than one.
    more: u8,
    /// The newest first.
    slow: Vec<Peer>,
}

impl Model for Pace {
    ghost use Rattle.std.specs.Prelude.{◌≤◌, ◌<◌, vec_len, vec_capacity};
    ghost use Rattle.osc_message.specs.Pace.{Pace as AnyPace};

    ghost Value = { AnyPace };

    ghost view = { λ p. record { more = p.more; slow = p.slow.items } };

    ghost invariant = { λ p. (p.more ≤ 15) × (vec_len p.slow ≤ 64) × (0 < p.more → 64 ≤ vec_capacity p.slow) };
}

/// Room for so many slow peers.
fn room_for_slow(more: u8) -> usize
    ensures { 0 < more → result ≡ 64 }
{
    if more == 0 { 0 } else { MOST_SLOW }
}

/// Takes the peer out of these.
fn take_out(slow: &mut Vec<Peer>, peer: Peer)
    ensures items { slow.new.items ≡ others peer slow.old.items }
    ensures len { vec_len slow.new ≤ vec_len slow.old }
    ensures capacity { vec_capacity slow.new ≡ vec_capacity slow.old }
{
    slow.retain(|other| peer != *other);
}

/// Puts the peer before the others; of 64 the last one makes room.
fn put_first(slow: &mut Vec<Peer>, peer: Peer)
    requires { 64 ≤ vec_capacity slow.old }
    ensures items { slow.new.items ≡ take 64 (peer ∷ others peer slow.old.items) }
    ensures len { vec_len slow.new ≤ 64 }
    ensures capacity { vec_capacity slow.new ≡ vec_capacity slow.old }
{
    take_out(slow, peer);
    slow.truncate(MOST_SLOW - 1);
    slow.push_reserved(peer);
    slow.rotate_right(1);
}

impl Pace {
    /// So many may be outstanding to a peer, and none is slow. Refused only for lack of memory.
    pub fn new(alloc: Global, most: u8) -> Result<Pace, AllocError>
        requires { (1 ≤ most) × (most ≤ 16) }
        ensures { IfOk result (λ pace. pace ≡ paced (most - 1)) }
    {
        let more = most - 1;
        Ok(Pace {
            more,
            slow: Vec::with_capacity(alloc, room_for_slow(more))?,
        })
    }

    /// None is slow any more.
    pub fn clear(&mut self)
        ensures { self.new ≡ paced self.old.more }
    {
        self.slow.clear();
    }

    /// How many may be outstanding to a peer.
    pub fn most(&self) -> u8
        ensures value { result ≡ 1 + self.now.more }
        ensures bound { result ≤ 16 }
    {
        1 + self.more
    }

    /// How many more than one may be outstanding to a peer.
    pub fn more(&self) -> usize
        ensures value { result ≡ self.now.more }
        ensures bound { result ≤ 15 }
    {
        self.more as usize
    }

    /// Whether the peer is slow.
    pub fn is_slow(&self, peer: Peer) -> bool
        ensures { result ≡ is_slow self.now peer }
    {
        self.slow.iter().any(|slow| peer == *slow)
    }

    /// A message to this peer is sent again.
    pub fn slow_down(&mut self, peer: Peer)
        ensures { self.new ≡ slowed_for peer self.old }
    {
        if self.more != 0 {
            put_first(&mut self.slow, peer);
        }
    }

    /// A message to this peer that was sent once is acknowledged.
    pub fn speed_up(&mut self, peer: Peer)
        ensures { self.new ≡ record self.old { slow = others peer self.old.slow } }
    {
        take_out(&mut self.slow, peer);
    }
}
