//! Message deduplication (RFC 7252 section 4.5).

use crate::line::Line;
use crate::words::Word;
use osc_dedup::{Duplicates, Remembered};
use osc_model::{Moment, Peer};
use std::alloc::{AllocError, Global};

/// From whom the messages come.
const PEER: Peer = Peer {
    address: [0, 0, 0, 0, 0, 0, 0, 0, 0, 0, 0xff, 0xff, 192, 0, 2, 1],
    scope: 0,
    port: 5683,
};

/// `noted COUNT AT PEER ID`: `COUNT` messages of one peer are noted at 0, by the IDs from 1 on, until 247 s. Whether the message of this
/// peer and ID is noted at that moment.
pub fn noted(alloc: Global, words: &[Word<'_>], line: &mut Line) -> Option<()> {
    let [count, at, peer, id] = words else {
        return None;
    };
    let (count, at, peer, id) = (count.short()?, at.moment()?, peer.peer()?, id.short()?);
    let table = table_of(alloc, count).ok()?;
    line.test(table.look(at, peer, id).is_some());
    Some(())
}

fn table_of(alloc: Global, count: u16) -> Result<Duplicates, AllocError> {
    let mut table = Duplicates::new(alloc)?;
    for id in 0..count {
        let noted = Remembered {
            until: 247_000,
            reply: None,
        };
        table.note(Moment::START, PEER, id.wrapping_add(1), noted);
    }
    Ok(table)
}
