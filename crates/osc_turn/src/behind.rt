//! What there is to tell of a wall clock that is behind the time.
ghost use Rattle.std.specs.Prelude.{◌≡◌, ◌≤◌, ◌<◌, ◌^◌};
ghost use Rattle.osc_turn.specs.Behind as spec;
ghost use Rattle.osc_turn.specs.Time.{latest};

use crate::time::Time;
use crate::watch::Reading;

// By how many nanoseconds it may be behind, of which nothing is told: a second.
const ONE_SECOND: u128 = 1_000_000_000;

// How often it is told, in milliseconds: each hour.
const EACH_HOUR: u64 = 3_600_000;

/// What there is to tell of a wall clock that is behind the time, and when that may be told again.
#[derive(Clone, Copy, Debug)]
pub struct Behind {
    /// By how many whole seconds it is behind, where that is to be told now.
    pub seconds: Option<u64>,
    /// From which moment on it may be told, in milliseconds since 1970.
    pub due: u64,
}

impl Behind {
    /// Nothing is to be told, and nothing was.
    pub const NOTHING: Behind = Behind {
        seconds: None,
        due: 0,
    };

    /// After a reading of the wall clock, in nanoseconds since 1970, at which the time is this.
    pub fn after(self, time: &Time, reading: Reading) -> Behind
        ensures { result ≡ spec.behind_after self time.now reading }
    {
        self.told(time.moment().ms, time.behind_by(reading))
    }

    // The same, at this moment, where it is behind by so many nanoseconds.
    fn told(self, now: u64, behind: u128) -> Behind
        requires now { now < 2 ^ 63 }
        requires behind { behind ≤ latest }
        ensures { result ≡ spec.told_behind self now behind }
    {
        if behind > ONE_SECOND && self.due <= now {
            Behind {
                seconds: Some((behind / ONE_SECOND) as u64),
                due: now + EACH_HOUR,
            }
        } else {
            Behind {
                seconds: None,
                ..self
            }
        }
    }
}
