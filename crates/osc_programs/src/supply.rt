//! What a running node is handed with each event, or how a program ends without.
ghost use Rattle.std.specs.Prelude.{IfErr, IfOk};
ghost use Rattle.osc_turn.specs.ClockAndRandom as spec;
ghost use Rattle.osc_programs.specs.Ended as ends;

use crate::ended::{Ended, ended_by_io};
use osc_model::{Draw, Moment};
use osc_turn::{ClockAndRandom, Seeds, SystemWatch, Watch};
use std::time::Clock;

/// Over the clock of this runtime, with a generator whose seed comes from the system.
pub fn supply_of<R: Clock + Seeds>(runtime: &R) -> Result<ClockAndRandom<SystemWatch<'_, R>>, Ended>
    ensures seeded { IfOk result (λ supply. spec.IsSeeded supply) }
    ensures given { IfOk result (λ supply. spec.IsOfSeed (R.gave runtime.now) supply.generator) }
    ensures fault { IfErr result ends.IsFault }
{
    match ClockAndRandom::of_system(runtime) {
        Ok(supply) => Ok(supply),
        Err(error) => Err(ended_by_io(&error)),
    }
}

/// The moment and the random bytes of one event.
pub fn moment_and_draw<W: Watch + Drop>(
    supply: &mut ClockAndRandom<W>,
) -> Result<(Moment, Draw), Ended>
    ensures gives { IfOk result (λ given. spec.Gives supply.old given.0 given.1 supply.new) }
    ensures fault { IfErr result ends.IsFault }
{
    match supply.moment() {
        Ok(now) => Ok((now, supply.draw())),
        Err(error) => Err(ended_by_io(&error)),
    }
}
