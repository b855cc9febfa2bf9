//! What a log has seen.
ghost use Rattle.std.specs.Prelude.{◌≡◌, option_map};
ghost use Rattle.osc_log.specs.Log as spec;

use crate::counters::Counters;
use crate::limits::Limits;
use crate::told::after_lines;
use crate::turn::Turn;

/// What a log of lines has seen.
#[derive(Drop)]
pub(crate) struct Seen {
    /// The lines of the newest second, by their kind.
    pub limits: Limits,
    /// What was counted.
    pub counters: Counters,
}

impl Seen {
    /// Nothing yet; what is counted will be told after so many seconds. Takes no memory.
    pub fn nothing(every: u32) -> Seen
        ensures { result ≡ spec.nothing_seen every }
    {
        Seen {
            limits: Limits::none(0),
            counters: Counters::none(every),
        }
    }

    /// A turn too, and its lines, where there are any.
    pub fn see(&mut self, turn: &Turn<'_>, lines: Option<&[u8]>)
        ensures { self.new ≡ spec.seen_by turn.entry.now (option_map (λ lines. lines.now) lines.entry) self.old }
    {
        if lines.is_some() {
            self.limits = after_lines(turn, self.limits);
        }
        self.counters = self.counters.after_turn(turn);
    }
}
