//! The table, as two maps of which one is empty.
//!
//! Where the oldest entry goes, its key stays at the front of the map, with nothing noted, for a map regains the room of removed
//! entries only where most of them go at once. So a note costs no more in a full table than in an empty one: the entries move into
//! the other map once in 64 notes, and where one of them has died.
ghost use Rattle.std.specs.Prelude.{◌≡◌, ◌++◌, ◌∷◌, ◌<◌, ◌≤◌, ◌+◌, ◌-◌, ℕ, [], length, filter, drop, IfOk, None, count_by, IsTrue};
ghost use Rattle.std.specs.Map.{keys_of};
ghost use Rattle.std.specs.Option.{option_copied};
ghost use Rattle.indexmap.specs.IndexMap.{get, spare, with_value_at, IsUnique};
ghost use Rattle.osc_dedup.specs.Table.{alive, looked, with_note, most_entries};
ghost use Rattle.osc_dedup.specs.Keys.{same_key, is_other as other_of, stays as stays_of, while_alive as living, nothing, most_keys, others, AllLiveUntil, AreGone, IsReady};

use indexmap::IndexMap;
use osc_model::{Bytes, Moment, Peer};
use std::alloc::{AllocError, Global};
use std::marker::Model;
use std::mem;

/// How many entries a table has at most.
const MOST_NOTES: usize = 64;

/// How many entries and keys of entries that went each map has room for.
const ROOM: usize = 2 * MOST_NOTES;

/// A peer and a message ID.
type Key = (Peer, u16);

/// What is noted of a message.
#[derive(Clone, Debug, PartialEq, Eq, Drop)]
pub struct Remembered {
    /// When its lifetime ends: an entry lives before this moment, in ms (RFC 7252 section 4.8.2).
    pub until: u64,
    /// The bytes that answered the message, or none where nothing was sent.
    pub reply: Option<Bytes>,
}

/// Whether a key isn't the one that is replaced.
fn is_other(replaced: Option<Key>, key: Key) -> bool
    ensures { result ≡ other_of replaced key }
{
    match replaced {
        Some(replaced) => replaced != key,
        None => true,
    }
}

/// Whether an entry stays where the dead go and one key is replaced.
fn stays(now: Moment, replaced: Option<Key>, key: Key, noted: &Remembered) -> bool
    ensures { result ≡ stays_of now replaced (key, noted.now) }
{
    now.ms < noted.until && is_other(replaced, key)
}

/// What was noted, while it lives.
fn while_alive(now: Moment, noted: Option<&Remembered>) -> Option<&Remembered>
    ensures { option_copied result ≡ living now (option_copied noted.entry) }
{
    match noted {
        Some(noted) if now.ms < noted.until => Some(noted),
        _ => None,
    }
}

/// How many entries stay.
fn count_staying(table: &IndexMap<Key, Remembered>, now: Moment, replaced: Option<Key>) -> usize
    ensures counted { result ≡ count_by (stays_of now replaced) table.now.entries }
    ensures distinct { IsUnique same_key table.now }
{
    table
        .iter()
        .filter(|entry| stays(now, replaced, *entry.0, entry.1))
        .count()
}

/// Adds an entry of a new key at the end, where there is room for it.
fn append(table: &mut IndexMap<Key, Remembered>, key: Key, noted: Remembered)
    requires absent { get same_key table.old key ≡ None }
    requires room { 0 < spare table.old }
    ensures appended { table.new.entries ≡ table.old.entries ++ (key, noted) ∷ [] }
    ensures room_left { spare table.old ≤ spare table.new + 1 }
    ensures distinct { IsUnique same_key table.new }
{
    table.insert(key, noted).unwrap();
}

/// Moves the entries that stay into an empty map with room for them, where they are more than `most` the youngest.
fn move_staying(
    from: &mut IndexMap<Key, Remembered>,
    to: &mut IndexMap<Key, Remembered>,
    now: Moment,
    replaced: Option<Key>,
    most: usize,
)
    requires empty { to.old.entries ≡ [] }
    requires room { length from.old.entries ≤ spare to.old }
    ensures moved { to.new.entries ≡ drop (count_by (stays_of now replaced) from.old.entries - most) (filter (stays_of now replaced) from.old.entries) }
    ensures emptied { from.new.entries ≡ [] }
    ensures from_room { length from.old.entries + spare from.old ≤ spare from.new }
    ensures to_room { spare to.old ≤ spare to.new + length to.new.entries }
    ensures to_distinct { IsUnique same_key to.new }
{
    let mut left = count_staying(from, now, replaced).saturating_sub(most);
    for (key, noted) in from.drain(..) {
        if stays(now, replaced, key, &noted) {
            if left > 0 {
                left -= 1;
            } else {
                append(to, key, noted);
            }
        }
    }
}

/// Lets the entry at the index go, but for its key.
fn let_go(table: &mut IndexMap<Key, Remembered>, index: usize)
    requires { index < length table.old.entries }
    ensures { table.new ≡ with_value_at table.old index nothing }
{
    if let Some(noted) = table.get_index_mut(index) {
        *noted = Remembered {
            until: 0,
            reply: None,
        };
    }
}

/// Whether all entries stay where this key is noted, and there is room for it after them.
fn all_stay(table: &IndexMap<Key, Remembered>, live_until: u64, now: Moment, key: Key) -> bool
    ensures { IsTrue result → (now.ms < live_until) × (length table.now.entries < most_keys) × (get same_key table.now key ≡ None) }
{
    now.ms < live_until && table.len() < ROOM && !table.contains_key(&key)
}

/// Drops the oldest entry where there are 64, and answers how many keys of those that went are before the others.
fn make_place(table: &mut IndexMap<Key, Remembered>, gone: usize) -> usize
    requires within { gone ≤ length table.old.entries }
    requires few { length table.old.entries ≤ gone + most_entries }
    requires gone { AreGone gone table.old.entries }
    ensures left { drop result table.new.entries ≡ drop (length table.old.entries - gone - 63) (drop gone table.old.entries) }
    ensures within { result ≤ length table.new.entries }
    ensures few { length table.new.entries < result + most_entries }
    ensures gone { AreGone result table.new.entries }
    ensures keys { keys_of table.new.entries ≡ keys_of table.old.entries }
    ensures room { spare table.new ≡ spare table.old }
{
    if table.len() - gone < MOST_NOTES {
        return gone;
    }
    let_go(table, gone);
    gone + 1
}

/// A moment in ms before which none of the entries dies: the earliest end of their lifetimes, if there is any.
fn live_until(table: &IndexMap<Key, Remembered>) -> u64
    ensures { AllLiveUntil result table.now.entries }
{
    let mut earliest = u64::MAX;
    for (_, noted) in table.iter() {
        earliest = earliest.min(noted.until);
    }
    earliest
}

/// Moves the entries that stay into the other map, where they are more than `most` the youngest, and swaps the maps. Answers a
/// moment before which none of them dies.
fn renew(
    kept: &mut IndexMap<Key, Remembered>,
    other: &mut IndexMap<Key, Remembered>,
    now: Moment,
    replaced: Option<Key>,
    most: usize,
) -> u64
    requires empty { other.old.entries ≡ [] }
    requires room { length kept.old.entries ≤ spare other.old }
    ensures moved { kept.new.entries ≡ drop (count_by (stays_of now replaced) kept.old.entries - most) (filter (stays_of now replaced) kept.old.entries) }
    ensures emptied { other.new.entries ≡ [] }
    ensures kept_room { spare other.old ≤ length kept.new.entries + spare kept.new }
    ensures other_room { length kept.old.entries + spare kept.old ≤ spare other.new }
    ensures distinct { IsUnique same_key kept.new }
    ensures live { AllLiveUntil result kept.new.entries }
{
    move_staying(kept, other, now, replaced, most);
    mem::swap(kept, other);
    live_until(kept)
}

/// Makes a place for a note of this key after the entries: the dead go, what was noted of the key goes, and the oldest where 64
/// others live. Answers how many keys of entries that went are before the others, and a moment before which none of these dies.
fn make_ready(
    kept: &mut IndexMap<Key, Remembered>,
    other: &mut IndexMap<Key, Remembered>,
    gone: usize,
    live_until: u64,
    now: Moment,
    key: Key,
) -> (usize, u64)
    requires within { gone ≤ length kept.old.entries }
    requires few { length kept.old.entries ≤ gone + most_entries }
    requires free { length kept.old.entries ≤ most_keys }
    requires room { most_keys ≤ length kept.old.entries + spare kept.old }
    requires empty { other.old.entries ≡ [] }
    requires other_room { most_keys ≤ spare other.old }
    requires gone { AreGone gone kept.old.entries }
    requires live { AllLiveUntil live_until (drop gone kept.old.entries) }
    ensures ready { IsReady key (others now key (drop gone kept.old.entries)) kept.new.entries (spare kept.new) result.0 result.1 }
    ensures emptied { other.new.entries ≡ [] }
    ensures other_room { most_keys ≤ spare other.new }
{
    if all_stay(kept, live_until, now, key) {
        (make_place(kept, gone), live_until)
    } else {
        (0, renew(kept, other, now, Some(key), MOST_NOTES - 1))
    }
}

/// The messages that were noted lately, at most 64, the oldest first. Contracts see the list of its entries.
///
/// They are in one of two `IndexMap`s, and the other is empty: a map regains the room of removed entries only where most of them go at
/// once, so the entries move once in 64 notes.
#[derive(Drop)]
pub struct Duplicates {
    // The entries, after the keys of those that went.
    kept: IndexMap<Key, Remembered>,
    // How many keys of entries that went are before them.
    gone: usize,
    // No entry dies before this moment, in ms.
    live_until: u64,
    // The empty map that the entries move into.
    other: IndexMap<Key, Remembered>,
}

impl Model for Duplicates {
    ghost use Rattle.std.specs.Prelude.{List, ℕ, ◌≡◌, ◌≤◌, ◌+◌, length, [], drop};
    ghost use Rattle.indexmap.specs.IndexMap.{spare, IsUnique};
    ghost use Rattle.osc_dedup.specs.Table.{most_entries, Entry};
    ghost use Rattle.osc_dedup.specs.Keys.{entries_of, same_key, most_keys, AllLiveUntil, AreGone};

    ghost Value = { List Entry };

    ghost view = { λ table. entries_of (drop table.gone table.kept.entries) };

    ghost invariant = { λ table. (table.gone ≤ length table.kept.entries) × (length table.kept.entries ≤ table.gone + most_entries)
        × (length table.kept.entries ≤ most_keys) × (most_keys ≤ length table.kept.entries + spare table.kept)
        × (table.other.entries ≡ []) × (most_keys ≤ spare table.other) × IsUnique same_key table.kept
        × AreGone table.gone table.kept.entries × AllLiveUntil table.live_until (drop table.gone table.kept.entries) };
}

impl Duplicates {
    /// An empty table, with room for 64 entries; refused only for lack of memory.
    pub fn new(alloc: Global) -> Result<Duplicates, AllocError>
        ensures { IfOk result (λ table. table ≡ []) }
    {
        Ok(Duplicates {
            kept: IndexMap::with_capacity(alloc, ROOM)?,
            gone: 0,
            live_until: u64::MAX,
            other: IndexMap::with_capacity(alloc, ROOM)?,
        })
    }

    /// What was noted of a message, while its entry is in the table and lives.
    pub fn look(&self, now: Moment, peer: Peer, id: u16) -> Option<&Remembered>
        ensures { option_copied result ≡ looked now peer id self.now }
    {
        while_alive(now, self.kept.get(&(peer, id)))
    }

    /// Notes a message, in the place of what was noted of it before. The dead go, and the oldest where 64 others
    /// live. It takes no memory.
    pub fn note(&mut self, now: Moment, peer: Peer, id: u16, noted: Remembered)
        ensures { self.new ≡ with_note now peer id noted self.old }
    {
        let key = (peer, id);
        let (gone, live_until) = make_ready(
            &mut self.kept,
            &mut self.other,
            self.gone,
            self.live_until,
            now,
            key,
        );
        self.gone = gone;
        self.live_until = live_until.min(noted.until);
        append(&mut self.kept, key, noted);
    }

    /// Lets the dead go, and what they hold: no look finds them any more, and the next note would let them go as well.
    pub fn expire(&mut self, now: Moment)
        ensures { self.new ≡ alive now self.old }
    {
        if self.live_until <= now.ms {
            self.live_until = renew(&mut self.kept, &mut self.other, now, None, MOST_NOTES);
            self.gone = 0;
        }
    }

    /// Lets all entries go.
    pub fn clear(&mut self)
        ensures { self.new ≡ [] }
    {
        self.kept.clear();
        self.gone = 0;
        self.live_until = u64::MAX;
    }
}
