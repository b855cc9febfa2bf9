//! At which socket of a port each peer was heard.
ghost use Rattle.std.specs.Prelude.{◌≡◌, ◌<◌, ◌≤◌, ◌+◌, length, IfOk, None, Some};
ghost use Rattle.std.specs.Map.{lookup};
ghost use Rattle.indexmap.specs.IndexMap.{get, insert_entry, spare, with_value_at};
ghost use Rattle.osc_model.specs.{same_peer};
ghost use Rattle.osc_programs.specs.Heard as spec;

use indexmap::IndexMap;
use osc_model::Peer;
use std::alloc::{AllocError, Global};
use std::marker::Model;
use std::mem;

/// How many peers are in each half of a table.
const HALF: usize = 256;

/// At which socket of a port each peer was heard last, by the sockets' numbers. Contracts see two lists.
///
/// It has room for 512 peers, and takes no memory once it is made. The 256 peers that were heard last are always there, and of those before them
/// some or all of 256 more, which go together: a map regains the room of its entries only where most of them go at once. Keys are hashed with a
/// fixed seed, so a stranger can make them collide, which costs no more than a walk over 256.
#[derive(Drop)]
pub(crate) struct Ways {
    // The peers that were heard last.
    recent: IndexMap<Peer, usize>,
    // Those that were heard before, some of which may be among the recent again.
    earlier: IndexMap<Peer, usize>,
}

impl Model for Ways {
    ghost use Rattle.std.specs.Prelude.{◌≤◌, ◌+◌, length};
    ghost use Rattle.indexmap.specs.IndexMap.{spare};
    ghost use Rattle.osc_programs.specs.Heard.{Heard, half};

    ghost Value = { Heard };

    ghost view = { λ ways. record { recent = ways.recent.entries; earlier = ways.earlier.entries } };

    ghost invariant = { λ ways. (half ≤ length ways.recent.entries + spare ways.recent) × (half ≤ length ways.earlier.entries + spare ways.earlier) };
}

impl Ways {
    /// No peers, and room for all; refused only for lack of memory.
    pub fn new(alloc: Global) -> Result<Ways, AllocError>
        ensures { IfOk result (λ ways. ways ≡ spec.none_heard) }
    {
        Ok(Ways {
            recent: IndexMap::with_capacity(alloc, HALF)?,
            earlier: IndexMap::with_capacity(alloc, HALF)?,
        })
    }

    /// The number of the socket at which the peer was heard last, where that is known.
    pub fn heard_at(&self, peer: Peer) -> Option<usize>
        ensures { result ≡ spec.heard_at self.now peer }
    {
        match self.recent.get(&peer) {
            Some(number) => Some(*number),
            None => self.earlier.get(&peer).copied(),
        }
    }

    /// The peer was heard at the socket of this number.
    pub fn note(&mut self, peer: Peer, number: usize)
        ensures noted { self.new ≡ spec.with_heard peer number self.old }
        ensures known { spec.heard_at self.new peer ≡ Some number }
    {
        match self.recent.get_index_of(&peer) {
            Some(index) => renumber(&mut self.recent, index, number),
            None => self.note_new(peer, number),
        }
    }

    // The same of a peer that isn't among the recent.
    fn note_new(&mut self, peer: Peer, number: usize)
        requires { lookup (same_peer peer) self.old.recent ≡ None }
        ensures { self.new ≡ spec.with_new peer number self.old }
    {
        if self.recent.len() >= HALF {
            mem::swap(&mut self.recent, &mut self.earlier);
            self.recent.clear();
        }
        append(&mut self.recent, peer, number);
    }
}

// Another number at this index.
fn renumber(heard: &mut IndexMap<Peer, usize>, index: usize, number: usize)
    requires { index < length heard.old.entries }
    ensures { heard.new ≡ with_value_at heard.old index number }
{
    if let Some(old) = heard.get_index_mut(index) {
        *old = number;
    }
}

// One peer more, where there is room.
fn append(heard: &mut IndexMap<Peer, usize>, peer: Peer, number: usize)
    requires absent { get same_peer heard.old peer ≡ None }
    requires room { 0 < spare heard.old }
    ensures appended { heard.new.entries ≡ insert_entry same_peer heard.old.entries peer number }
    ensures room_left { length heard.old.entries + spare heard.old ≤ length heard.new.entries + spare heard.new }
{
    heard.insert(peer, number).unwrap();
}
