//! Moments and draws.
ghost use Rattle.std.specs.Prelude.{◌≡◌, ◌≤◌, ◌+◌, ◌-◌, IfOk, min};
ghost use Rattle.rand_core.specs.Stream.{fill_bytes};
ghost use Rattle.osc_turn.specs.ClockAndRandom as spec;
ghost use Rattle.osc_turn.specs.Time.{latest, ms_of};

use crate::behind::Behind;
use crate::seeds::Seeds;
use crate::time::Time;
use crate::watch::{SystemWatch, Watch};
use osc_model::{Draw, Moment};
use rand::rngs::StdRng;
use rand::{Rng, SeedableRng};
use std::io;
use std::marker::Model;
use std::time::Clock;

/// Where a node runs: a watch, the time that it counts, and a generator. Contracts see what the watch told in its place.
#[derive(Drop)]
pub struct ClockAndRandom<W: Watch + Drop> {
    watch: W,
    time: Time,
    behind: Behind,
    generator: StdRng,
}

impl<W: Watch + Drop> Model for ClockAndRandom<W> {
    ghost use Rattle.osc_turn.specs.ClockAndRandom.{ClockAndRandomState};

    ghost Value = { ClockAndRandomState };

    ghost view = { λ supply. record { time = supply.time; behind = supply.behind; generator = supply.generator; told = W.told supply.watch } };
}

impl<'a, R: Clock + Seeds> ClockAndRandom<SystemWatch<'a, R>> {
    /// From the start on, over the clocks of this runtime and its system, with a generator of a seed that it gives.
    pub fn of_system(runtime: &'a R) -> io::Result<ClockAndRandom<SystemWatch<'a, R>>>
        ensures seeded { IfOk result (λ supply. spec.IsSeeded supply) }
        ensures given { IfOk result (λ supply. spec.IsOfSeed (R.gave runtime.now) supply.generator) }
    {
        let generator = generator_of(runtime)?;
        ClockAndRandom::new(SystemWatch::new(runtime), generator)
    }
}

/// A generator of a seed that the system gives.
///
/// # Errors
///
/// As of [`Seeds::seed`].
pub fn generator_of<S: Seeds>(seeds: &S) -> io::Result<StdRng>
    ensures { IfOk result (λ generator. spec.IsOfSeed (S.gave seeds.now) generator) }
{
    Ok(StdRng::from_seed(seeds.seed()?))
}

impl<W: Watch + Drop> ClockAndRandom<W> {
    /// From the start on: the time is the wall clock's.
    ///
    /// # Errors
    ///
    /// As of [`Watch::read`].
    pub fn new(watch: W, generator: StdRng) -> io::Result<ClockAndRandom<W>>
        ensures start { IfOk result (λ supply. spec.Starts (W.told watch) supply) }
        ensures generator { IfOk result (λ supply. supply.generator ≡ generator) }
    {
        let mut watch = watch;
        let reading = watch.read()?;
        Ok(ClockAndRandom {
            watch,
            time: Time::begun(reading),
            behind: Behind::NOTHING,
            generator,
        })
    }

    /// The moment, after one more reading of both clocks: milliseconds since 1970, as tokens count their seconds (RFC 7519 section 2). It is at least
    /// as much later than the last one as the clock that nobody sets has counted since, in whole milliseconds of their sum. It is later only where the
    /// wall clock was ahead in every reading of a minute. The last moment that there is stays.
    ///
    /// # Errors
    ///
    /// As of [`Watch::read`].
    pub fn moment(&mut self) -> io::Result<Moment>
        ensures reads { IfOk result (λ now. spec.Reads self.old now self.new) }
        ensures rises { IfOk result (λ now. ms_of self.old.time ≤ now.ms) }
        ensures counts { IfOk result (λ now. min (self.old.time.nanos + (self.new.time.counted - self.old.time.counted)) latest ≤ self.new.time.nanos) }
        ensures generator { self.new.generator ≡ self.old.generator }
    {
        let reading = self.watch.read()?;
        self.time = self.time.after(reading);
        self.behind = self.behind.after(&self.time, reading);
        Ok(self.time.moment())
    }

    /// By how many whole seconds the wall clock is behind the moment, where that is to be told: more than a second, and not told for an hour.
    pub fn seconds_behind(&self) -> Option<u64>
        ensures { result ≡ self.now.behind.seconds }
    {
        self.behind.seconds
    }

    /// Random bytes for one event: the generator's next.
    pub fn draw(&mut self) -> Draw
        ensures drawn { (result.0, spec.stream_from self.new.generator) ≡ fill_bytes 32 (spec.stream_from self.old.generator) }
        ensures time { self.new.time ≡ self.old.time }
        ensures behind { self.new.behind ≡ self.old.behind }
        ensures told { self.new.told ≡ self.old.told }
    {
        let mut bytes = [0; 32];
        self.generator.fill_bytes(&mut bytes);
        Draw(bytes)
    }
}
