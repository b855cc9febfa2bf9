//! What a log counts over all turns of a node.
ghost use Rattle.std.specs.Prelude.{◌≡◌, ◌<◌};
ghost use Rattle.osc_log.specs.Counters as spec;

use crate::turn::Turn;
use osc_model::{Moment, RefusedRequest};

/// What was counted since the first turn.
#[derive(Clone, Copy, Debug, PartialEq, Eq)]
pub(crate) struct Counters {
    /// After how many seconds they are told.
    pub every: u32,
    /// From which moment on they are told, in milliseconds since 1970; none before the first turn.
    pub due: Option<u64>,
    /// The datagrams that came.
    pub received: u64,
    /// The datagrams that were sent.
    pub sent: u64,
    /// The protected requests that were served.
    pub served: u64,
    /// The requests that were refused.
    pub refused: u64,
    /// The same by the number of the reason; at 0 those whose code tells it.
    pub reasons: [u64; 32],
}

impl Counters {
    /// Nothing was counted; what is will be told after so many seconds.
    pub fn none(every: u32) -> Counters
        ensures { result ≡ spec.no_counters every }
    {
        Counters {
            every,
            due: None,
            received: 0,
            sent: 0,
            served: 0,
            refused: 0,
            reasons: [0; 32],
        }
    }

    /// With a datagram that came and is lost.
    pub fn with_lost(self) -> Counters
        ensures { result ≡ spec.with_lost self }
    {
        Counters {
            received: self.received.saturating_add(1),
            ..self
        }
    }

    /// With a turn.
    pub fn with_turn(self, turn: &Turn<'_>) -> Counters
        ensures { result ≡ spec.with_turn turn.entry.now self }
    {
        Counters {
            every: self.every,
            due: Some(self.due.unwrap_or(seconds_after(self.every, turn.moment()))),
            received: self.received.saturating_add(turn.has_received() as u64),
            sent: self.sent.saturating_add(turn.sent().len() as u64),
            served: self.served.saturating_add(turn.served().is_some() as u64),
            refused: self.refused.saturating_add(turn.refused().is_some() as u64),
            reasons: with_reason(self.reasons, turn.refused()),
        }
    }

    /// Whether they are told by this turn, which they count: the first that is so many seconds after the first turn, and
    /// after they were told last.
    pub fn are_due(&self, turn: &Turn<'_>) -> bool
        ensures { result ≡ spec.are_due turn.entry.now self.now }
    {
        match self.due {
            Some(due) => due <= turn.moment().ms,
            None => false,
        }
    }

    /// After a turn, by which they are told where they are due.
    pub fn after_turn(self, turn: &Turn<'_>) -> Counters
        ensures { result ≡ spec.after_turn turn.entry.now self }
    {
        let counters = self.with_turn(turn);
        if counters.are_due(turn) {
            counters.told_at(turn.moment())
        } else {
            counters
        }
    }

    // After they were told at this moment.
    fn told_at(self, now: Moment) -> Counters
        ensures { result ≡ spec.told_at now self }
    {
        Counters {
            due: Some(seconds_after(self.every, now)),
            ..self
        }
    }
}

// The millisecond that is so many seconds after a moment.
fn seconds_after(seconds: u32, now: Moment) -> u64
    ensures { result ≡ spec.seconds_after seconds now }
{
    now.ms + u64::from(seconds) * 1000
}

fn with_reason(counts: [u64; 32], why: Option<RefusedRequest>) -> [u64; 32]
    ensures { result ≡ spec.with_reason why counts }
{
    match why {
        Some(why) => one_more(counts, place_of(why.reason)),
        None => counts,
    }
}

fn one_more(counts: [u64; 32], place: usize) -> [u64; 32]
    requires { place < 32 }
    ensures { result ≡ spec.one_more place counts }
{
    let mut more = counts;
    more[place] = more[place].saturating_add(1);
    more
}

fn place_of(reason: Option<u8>) -> usize
    ensures place { result ≡ spec.place_of reason }
    ensures within { result < 32 }
{
    match reason {
        Some(number) if number < 32 => number as usize,
        _ => 0,
    }
}
