//! Laws of the time of a node. These functions do nothing: whoever calls one has its clauses for a proof.
ghost use Rattle.std.specs.Prelude.{List};
ghost use Rattle.osc_turn.specs.Time.{Time as AnyTime, begun};
ghost use Rattle.osc_turn.specs.Times.{GoesOn, StepsUp, after_all};
ghost use Rattle.osc_turn.specs.declared.watch.Reading.{Reading as AnyReading};

/// Over any number of readings the time goes on by what the steady clock has counted at least, whatever the wall clock says.
pub fn time_goes_on()
    ensures { (first : AnyTime) (readings : List AnyReading) → GoesOn first (after_all first readings) }
{}

/// The time is later than the wall clock at the start and what the steady clock has counted since, only where the wall clock was ahead of it for
/// a minute, and only by as much as it was ahead in each reading of that minute.
pub fn time_steps_up()
    ensures { (start : AnyReading) (readings : List AnyReading) (last : AnyReading) → StepsUp (begun start) readings last }
{}
