//! How long a wall clock has been ahead of the time, and by how much.
ghost use Rattle.std.specs.Prelude.{◌≡◌};
ghost use Rattle.osc_turn.specs.Time as spec;

// For how long it has to be ahead before it is believed, in nanoseconds: a minute.
const ONE_MINUTE: u128 = 60_000_000_000;

/// Readings in which the wall clock was ahead of the time, one after another.
#[derive(Clone, Copy, Debug)]
pub struct Lead {
    /// What the steady clock had counted at the first of them, in nanoseconds.
    pub since: u128,
    /// By how many nanoseconds the wall clock was ahead at least.
    pub least: u128,
}

impl Lead {
    /// With one reading more in which it was ahead, by so much.
    pub fn with(before: Option<Lead>, counted: u128, ahead: u128) -> Lead
        ensures { result ≡ spec.with_lead before counted ahead }
    {
        match before {
            None => Lead {
                since: counted,
                least: ahead,
            },
            Some(lead) => Lead {
                since: lead.since,
                least: lead.least.min(ahead),
            },
        }
    }

    /// Whether they are those of a minute at least.
    pub fn is_believed(self, counted: u128) -> bool
        ensures { result ≡ spec.is_believed self counted }
    {
        counted.saturating_sub(self.since) >= ONE_MINUTE
    }
}
