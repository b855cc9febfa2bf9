//! Laws of the definitions, for the crates above. These functions do nothing: whoever calls one has its clauses for a
//! proof.

ghost use Rattle.std.specs.Prelude.{◌≡◌, ◌↔◌, ◌≤◌, ◌<◌, ℕ, List, Some};
ghost use Rattle.osc_model.specs.declared.node.Moment.{Moment};
ghost use Rattle.osc_model.specs.declared.node.Peer.{Peer};
ghost use Rattle.osc_dedup.specs.declared.table.Remembered.{Remembered as AnyNoted};
ghost use Rattle.osc_dedup.specs.Table.{Entry, alive, looked, with_note};
ghost use Rattle.osc_dedup.specs.History.{Note, AreInOrder, table_of, IsThere};

/// The table of a list of notes says of each message whether its entry is there by all that was noted, and which.
pub fn one_table()
    ensures { (notes : List Note) (now : Moment) (peer : Peer) (id : ℕ) (noted : AnyNoted) → AreInOrder now notes
        → ((looked now peer id (table_of notes) ≡ Some noted) ↔ IsThere notes now (record { peer = peer; id = id; noted = noted })) }
{}

/// What is noted of a message is found at each moment at which it lives.
pub fn noted()
    ensures { (now later : Moment) (peer : Peer) (id : ℕ) (noted : AnyNoted) (entries : List Entry) → later.ms < noted.until
        → looked later peer id (with_note now peer id noted entries) ≡ Some noted }
{}

/// Letting the dead go changes nothing for what comes later, and what is found at a moment, be it an earlier one, stays unless it is dead.
pub fn expiring()
    ensures look { (now later : Moment) (peer : Peer) (id : ℕ) (entries : List Entry) → now.ms ≤ later.ms
        → looked later peer id (alive now entries) ≡ looked later peer id entries }
    ensures note { (now later : Moment) (peer : Peer) (id : ℕ) (noted : AnyNoted) (entries : List Entry) → now.ms ≤ later.ms
        → with_note later peer id noted (alive now entries) ≡ with_note later peer id noted entries }
    ensures stays { (now later : Moment) (peer : Peer) (id : ℕ) (noted : AnyNoted) (entries : List Entry) → now.ms < noted.until
        → looked later peer id entries ≡ Some noted → looked later peer id (alive now entries) ≡ Some noted }
{}
