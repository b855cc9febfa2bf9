//! The time of a node: the wall clock's at its start, and what a clock that nobody sets has counted since.
ghost use Rattle.std.specs.Duration.{as_nanos};
ghost use Rattle.std.specs.Prelude.{◌≡◌, ◌≤◌, ◌+◌, ◌-◌, ◌<◌, min, option_map};
ghost use Rattle.osc_turn.specs.Behind.{behind_by};
ghost use Rattle.osc_turn.specs.Time as spec;

use crate::lead::Lead;
use crate::watch::Reading;
use osc_model::Moment;
use std::marker::Model;

// The last nanosecond of the last moment, which is below 2^63 milliseconds.
const LATEST: u128 = (1 << 63) * 1_000_000 - 1;

/// The time of a node, in nanoseconds since 1970.
#[derive(Drop)]
pub(crate) struct Time {
    // At the last reading.
    nanos: u128,
    // What the steady clock had counted then.
    counted: u128,
    // The readings up to the last in which the wall clock was ahead.
    lead: Option<Lead>,
}

impl Model for Time {
    ghost use Rattle.std.specs.Prelude.{◌≤◌};
    ghost use Rattle.osc_turn.specs.Time.{Time as AnyTime, latest};

    ghost Value = { AnyTime };

    ghost view = { λ time. record {
      nanos = time.nanos;
      counted = time.counted;
      lead = time.lead;
    } };

    ghost invariant = { λ time. time.nanos ≤ latest };
}

impl Time {
    /// At the first reading: the wall clock's.
    pub fn begun(reading: Reading) -> Time
        ensures { result ≡ spec.begun reading }
    {
        Time {
            nanos: wall_of(reading),
            counted: reading.counted.as_nanos(),
            lead: None,
        }
    }

    /// The moment: the whole milliseconds.
    pub fn moment(&self) -> Moment
        ensures { result.ms ≡ spec.ms_of self.now }
    {
        let ms = (self.nanos / 1_000_000) as u64;
        Moment::new(ms).unwrap()
    }

    /// By how many nanoseconds the wall clock is behind.
    pub fn behind_by(&self, reading: Reading) -> u128
        ensures value { result ≡ behind_by self.now reading }
        ensures most { result ≤ spec.latest }
    {
        self.nanos.saturating_sub(wall_of(reading))
    }

    /// After one more reading: as much later as the steady clock has counted, and not before what the wall clock said at least in all readings
    /// of a minute.
    pub fn after(&self, reading: Reading) -> Time
        ensures value { result ≡ spec.after self.now reading }
        ensures rises { spec.ms_of self.now ≤ spec.ms_of result }
        ensures counts { min (self.now.nanos + (result.counted - self.now.counted)) spec.latest ≤ result.nanos }
    {
        let wall = wall_of(reading);
        let counted = self.counted.max(reading.counted.as_nanos());
        let nanos = self
            .nanos
            .saturating_add(counted - self.counted)
            .min(LATEST);
        if wall <= nanos {
            return Time {
                nanos,
                counted,
                lead: None,
            };
        }
        led_by(nanos, counted, Lead::with(self.lead, counted, wall - nanos))
    }
}

// What the wall clock says; where that is after the latest time, the latest.
fn wall_of(reading: Reading) -> u128
    ensures { result ≡ spec.wall_of reading }
{
    reading.wall.as_nanos().min(LATEST)
}

// The time after a reading in which the wall clock was ahead.
fn led_by(nanos: u128, counted: u128, lead: Lead) -> Time
    requires { nanos + lead.least ≤ spec.latest }
    ensures { result ≡ spec.led_by nanos counted lead }
{
    if lead.is_believed(counted) {
        Time {
            nanos: nanos + lead.least,
            counted,
            lead: None,
        }
    } else {
        Time {
            nanos,
            counted,
            lead: Some(lead),
        }
    }
}
