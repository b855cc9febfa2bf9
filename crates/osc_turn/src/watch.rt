//! What tells the time.
ghost use Rattle.std.specs.Prelude.{◌≡◌, List, Option, None, IfOk};
ghost use Rattle.osc_turn.specs.Watch.{one_more};

use libc::clock_gettime;
use libc::types::timespec;
use std::io;
use std::time::{Clock, Duration};

// CLOCK_BOOTTIME of Linux's time.h: it counts on while the machine sleeps, and nobody sets it.
const CLOCK_BOOTTIME: i32 = 7;

/// What two clocks say at one time.
#[derive(Clone, Copy, Debug)]
pub struct Reading {
    /// By the wall clock: the time since 1970. It may be set, forwards or back.
    pub wall: Duration,
    /// By a clock that nobody sets: the time since some start of its own, as that of the machine.
    pub counted: Duration,
}

/// What tells the time. Contracts see each reading, where it tells that.
pub trait Watch {
    ghost use Rattle.osc_turn.specs.declared.watch.Reading.{Reading as AnyReading};

    // What it told so far, one reading after another, where contracts can see them.
    ghost told: { Self → Option (List AnyReading) };

    /// Reads both clocks.
    ///
    /// # Errors
    ///
    /// Those of the wall clock, which couldn't be read.
    fn read(&mut self) -> io::Result<Reading>
        ensures { IfOk result (λ reading. told self.new ≡ one_more (told self.old) reading) };
}

/// The clocks of a system: the wall clock of a runtime, and the one that counts since the start of the machine. Nothing can be said of what they
/// tell.
#[derive(Drop)]
pub struct SystemWatch<'a, R> {
    runtime: &'a R,
}

impl<'a, R> SystemWatch<'a, R> {
    /// With the wall clock of this runtime.
    pub fn new(runtime: &'a R) -> SystemWatch<'a, R>
        ensures { result.runtime.now ≡ runtime.now }
    {
        SystemWatch { runtime }
    }
}

impl<'a, R: Clock> Watch for SystemWatch<'a, R> {
    ghost told = { λ _. None };

    fn read(&mut self) -> io::Result<Reading> {
        let counted = match since_boot() {
            Some(counted) => counted,
            // What doesn't count while the machine sleeps, or nothing.
            None => self.runtime.monotonic().unwrap_or(Duration::ZERO),
        };
        Ok(Reading {
            wall: self.runtime.since_1970()?,
            counted,
        })
    }
}

/// The time since the start of the machine, where the system tells it: it counts on while the machine sleeps, and nobody sets it.
pub fn since_boot() -> Option<Duration> {
    let mut time = timespec {
        tv_sec: 0,
        tv_nsec: 0,
    };
    if clock_gettime(CLOCK_BOOTTIME, &mut time) != 0 {
        return None;
    }
    let nanos = Duration::from_nanos(time.tv_nsec.unsigned_abs());
    Some(Duration::from_secs(time.tv_sec.unsigned_abs()).saturating_add(nanos))
}
