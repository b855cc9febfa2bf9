//! Tests of `osc_dedup`.
use crate::peer::{OTHER_ADDRESS, OTHER_PORT, PEER};
use osc_dedup::*;
use osc_model::{Bytes, Moment, Peer};
use std::alloc::{AllocError, Global};

fn answered(alloc: Global, until: u64) -> Result<Remembered, AllocError> {
    Ok(Remembered {
        until,
        reply: Some(Bytes::from_slice(alloc, b"reply")?),
    })
}

/// Until when a message is noted at that moment, if it is.
fn noted_until(table: &Duplicates, at: u32, peer: Peer, id: u16) -> Option<u64> {
    let now = Moment { ms: u64::from(at) };
    Some(table.look(now, peer, id)?.until)
}

/// The table as a plain list: peer, ID and end of each entry, the oldest first.
#[derive(Drop)]
struct Plain {
    entries: Vec<(Peer, u16, u64)>,
}

impl Plain {
    fn note(&mut self, now: u64, peer: Peer, id: u16, until: u64) -> Result<(), AllocError> {
        self.entries.retain(|entry| now < entry.2 && !(entry.0 == peer && entry.1 == id));
        if self.entries.len() == 64 {
            self.entries.remove(0);
        }
        self.entries.push((peer, id, until))?;
        Ok(())
    }

    fn expire(&mut self, now: u64) {
        self.entries.retain(|entry| now < entry.2);
    }

    fn look(&self, now: u64, peer: Peer, id: u16) -> Option<u64> {
        let found = self
            .entries
            .iter()
            .find(|entry| now < entry.2 && entry.0 == peer && entry.1 == id)?;
        Some(found.2)
    }
}

const PEERS: [Peer; 3] = [PEER, OTHER_ADDRESS, OTHER_PORT];

/// Notes the message of a round in both, and forgets in some rounds what is over.
fn note_in_both(
    alloc: Global,
    table: &mut Duplicates,
    plain: &mut Plain,
    round: u16,
) -> Result<(), AllocError> {
    let now = 3 * u64::from(round);
    let peer = PEERS[(round % 3) as usize];
    let id = (u32::from(round) * 7 % 50) as u16;
    let until = now + u64::from(round) * 37 % 500;
    table.note(Moment { ms: now }, peer, id, answered(alloc, until)?);
    plain.note(now, peer, id, until)?;
    if round % 29 == 0 {
        table.expire(Moment { ms: now + 1 });
        plain.expire(now + 1);
    }
    Ok(())
}

/// Whether both say the same of 50 messages of a peer.
fn say_the_same(table: &Duplicates, plain: &Plain, at: u32, peer: Peer) -> bool {
    let mut same = true;
    for id in 0..50u16 {
        same = noted_until(table, at, peer, id) == plain.look(u64::from(at), peer, id) && same;
    }
    same
}

#[test]
fn the_table_is_a_plain_list(rt: HostRuntime) {
    let mut table = Duplicates::new(rt.alloc()).expect(&rt, "memory");
    let mut plain = Plain {
        entries: Vec::new(rt.alloc()),
    };
    for round in 0..200u16 {
        let noted = note_in_both(rt.alloc(), &mut table, &mut plain, round);
        assert!(rt; noted.is_ok());
        let other = PEERS[(round / 3 % 3) as usize];
        assert!(rt; say_the_same(&table, &plain, 3 * u32::from(round) + 2, other));
    }
}
