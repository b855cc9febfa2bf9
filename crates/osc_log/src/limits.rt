//! How many lines of each kind a log tells.
ghost use Rattle.std.specs.Prelude.{◌≡◌};
ghost use Rattle.osc_log.specs.Limits as spec;

use crate::kind::Kind;
use crate::turn::Turn;
use osc_model::Moment;

// The most lines of a kind that are told in one second.
const MOST_LINES: u64 = 20;

/// The lines of one kind in a second: how many were told, and how many were left out.
#[derive(Clone, Copy, Debug, PartialEq, Eq)]
pub(crate) struct Tally {
    /// How many were told.
    pub told: u64,
    /// How many were left out.
    pub left_out: u64,
}

impl Tally {
    /// No line was told, and none left out.
    pub fn none() -> Tally
        ensures { result ≡ spec.no_lines }
    {
        Tally {
            told: 0,
            left_out: 0,
        }
    }

    /// Whether one more is told.
    pub fn has_room(self) -> bool
        ensures { result ≡ spec.has_room self }
    {
        self.told < MOST_LINES
    }

    /// With one more, told or left out.
    pub fn one_more(self) -> Tally
        ensures { result ≡ spec.one_more self }
    {
        if self.told < MOST_LINES {
            Tally {
                told: self.told + 1,
                ..self
            }
        } else {
            Tally {
                left_out: self.left_out.saturating_add(1),
                ..self
            }
        }
    }
}

/// The lines of a second, by their kind.
#[derive(Clone, Copy, Debug, PartialEq, Eq)]
pub(crate) struct Limits {
    /// Which second, from 1970 on.
    pub second: u64,
    /// Refusals for which no security context was found.
    pub no_context: Tally,
    /// Refusals of requests whose security context was found.
    pub under_context: Tally,
    /// What was sent beside refusals and the answers to what was served.
    pub sent: Tally,
}

impl Limits {
    /// In this second nothing was told, and nothing left out.
    pub fn none(second: u64) -> Limits
        ensures { result ≡ spec.none_told second }
    {
        Limits {
            second,
            no_context: Tally::none(),
            under_context: Tally::none(),
            sent: Tally::none(),
        }
    }

    /// Those of the second of this moment.
    pub fn at(self, now: Moment) -> Limits
        ensures { result ≡ spec.limits_at now self }
    {
        let second = now.ms / 1000;
        if second == self.second {
            self
        } else {
            Limits::none(second)
        }
    }

    /// Whether a line of this second is told, which is of this kind if of any: few of each kind, and all others.
    pub fn tell(self, kind: Option<Kind>) -> bool
        ensures { result ≡ spec.is_told kind self }
    {
        match kind {
            Some(kind) => self.of(kind).has_room(),
            None => true,
        }
    }

    /// The same after a line of a turn's datagram.
    pub fn after_line(self, turn: &Turn<'_>) -> Limits
        ensures { result ≡ spec.after_line turn.entry.now self }
    {
        self.at(turn.moment()).with_line(Kind::of(turn))
    }

    // The same with a line of this kind, told or left out.
    fn with_line(self, kind: Option<Kind>) -> Limits
        ensures { result ≡ spec.with_line kind self }
    {
        match kind {
            Some(kind) => self.with(kind, self.of(kind).one_more()),
            None => self,
        }
    }

    fn of(self, kind: Kind) -> Tally
        ensures { result ≡ spec.tally_of kind self }
    {
        match kind {
            Kind::NoContext => self.no_context,
            Kind::UnderContext => self.under_context,
            Kind::Sent => self.sent,
        }
    }

    fn with(self, kind: Kind, tally: Tally) -> Limits
        ensures { result ≡ spec.with_tally kind tally self }
    {
        match kind {
            Kind::NoContext => Limits {
                no_context: tally,
                ..self
            },
            Kind::UnderContext => Limits {
                under_context: tally,
                ..self
            },
            Kind::Sent => Limits {
                sent: tally,
                ..self
            },
        }
    }
}
