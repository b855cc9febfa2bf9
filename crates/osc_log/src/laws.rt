//! Laws of the definitions, for the crates above. These functions do nothing: whoever calls one has its clauses for a proof.

ghost use Rattle.std.specs.Prelude.{◌≡◌, ℕ, List, Some, [], ◌∷◌, ◌++◌};
ghost use Rattle.std.specs.Io.KnownBytes.{Appends};
ghost use Rattle.osc_log.specs.Log.{Event, Says, Tells, Told as AnyLog, counted_by, turned};
ghost use Rattle.osc_log.specs.Served.{IsTold, Serves};
ghost use Rattle.osc_log.specs.Turns.{Turn as AnyTurn};
ghost use Rattle.osc_log.specs.declared.form.Form.{Form as AnyForm};
ghost use Rattle.osc_log.specs.declared.held.Held.{Held as AnyHeld};
ghost use Rattle.osc_log.specs.declared.seen.Seen.{Seen as AnySeen};

/// What a log told of some events and then of more, it told of all of them.
pub fn telling_goes_on()
    ensures none { (log : AnyLog) → Tells log log [] }
    ensures more { (first between last : AnyLog) (some more : List Event) → Tells first between some → Tells between last more → Tells first last (some ++ more) }
{}

/// Where no line was dropped, a log wrote all that is said of the events, after what it had written. Whatever it dropped, what it had written stays at the
/// front, and it counted each event.
pub fn what_is_told_is_said()
    ensures said { (old new : AnyLog) (seen : AnySeen) (events : List Event) → Tells old new events → old.seen ≡ Some seen → new.output.dropped ≡ 0
        → (old.output.dropped ≡ 0) × (text : List ℕ) × (last : AnySeen) × (new.seen ≡ Some last) × Says old.form seen events text last
        × Appends old.output.text new.output.text text }
    ensures stays { (old new : AnyLog) (events : List Event) → Tells old new events → (text : List ℕ) × Appends old.output.text new.output.text text }
    ensures counted { (old new : AnyLog) (seen : AnySeen) (events : List Event) → Tells old new events → old.seen ≡ Some seen
        → (last : AnySeen) × (new.seen ≡ Some last) × (last.counters ≡ counted_by events seen.counters) }
{}

/// The lines of what is served stand in what a log said, whatever it was told before, and however much: each datagram of such a turn has its line, unless
/// there was no memory for it.
pub fn what_is_served_is_told()
    ensures { (form : AnyForm) (first last : AnySeen) (before after : List Event) (turn : AnyTurn) (held : AnyHeld) (text : List ℕ)
        → Serves turn → Says form first (before ++ turned turn held ∷ after) text last → IsTold form turn text }
{}
