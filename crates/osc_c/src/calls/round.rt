//! The outcome of what a device did at its own server.
ghost use Rattle.std.specs.Prelude.{◌≡◌, option_map};
ghost use Rattle.osc_c.specs.Told.{begun_as, came_by, came_of, learnt_as, refused_as, settled as settled_as, told_of};

use crate::calls::outcome::Outcome;
use osc_device::Round;
use osc_model::{ClientResult, Step, refusals};

/// What a caller is told: the outcome, and the code of the answer, or 0 where there was none.
#[derive(Clone, Copy, Debug, PartialEq, Eq)]
pub struct Told {
    /// The outcome.
    pub outcome: Outcome,
    /// The code.
    pub code: u8,
}

/// What is told of a round.
pub(crate) fn what_is_told(round: &Round) -> Told
    ensures { result ≡ told_of round.now }
{
    match round.begun.notes.result() {
        Some(ClientResult::Refused(number)) => bare(refused(*number)),
        _ => learnt(&round.learnt),
    }
}

/// An outcome without a code.
pub(crate) fn bare(outcome: Outcome) -> Told
    ensures { result ≡ record { outcome = outcome; code = 0 } }
{
    Told { outcome, code: 0 }
}

/// What is told of a ruling, by whether it is so now: what isn't so wasn't done, but refused, whatever the answer says.
pub(crate) fn settled(is_so: bool, told: Told) -> Told
    ensures { result ≡ settled_as is_so told }
{
    let Told { outcome, code } = told;
    match outcome {
        Outcome::Done if !is_so => Told {
            outcome: Outcome::Refused,
            code,
        },
        _ => told,
    }
}

/// Why nothing was begun, by the client's number.
fn refused(number: u8) -> Outcome
    ensures { result ≡ refused_as number }
{
    match number {
        refusals::DATAGRAM_TOO_LONG => Outcome::TooLong,
        refusals::BUSY => Outcome::Busy,
        refusals::EXHAUSTED => Outcome::Exhausted,
        _ => Outcome::NoContext,
    }
}

/// What is told of the step that heard the answer.
fn learnt(step: &Option<Step>) -> Told
    ensures { result ≡ begun_as step.now }
{
    match step {
        Some(step) => learnt_by(step.notes.result()),
        None => bare(Outcome::Lost),
    }
}

fn learnt_by(learnt: Option<&ClientResult>) -> Told
    ensures { result ≡ learnt_as (option_map (λ learnt. learnt.now) learnt.entry) }
{
    match learnt {
        Some(ClientResult::Made) => bare(Outcome::Done),
        Some(ClientResult::Answer(reply)) => Told {
            outcome: Outcome::Done,
            code: reply.code.0,
        },
        Some(ClientResult::Unverified(code)) => Told {
            outcome: Outcome::Unverified,
            code: code.0,
        },
        Some(_) => bare(Outcome::Unverified),
        None => bare(Outcome::Lost),
    }
}

/// What a tick learnt of what was open: that it ended, or what its answer says; or nothing.
pub(crate) fn what_came(round: &Round) -> Option<Told>
    ensures { result ≡ came_of round.now }
{
    match came(round.begun.notes.result()) {
        Some(told) => Some(told),
        None => match &round.learnt {
            Some(step) => came(step.notes.result()),
            None => None,
        },
    }
}

/// What a result tells, where there is one.
fn came(learnt: Option<&ClientResult>) -> Option<Told>
    ensures { result ≡ came_by (option_map (λ learnt. learnt.now) learnt.entry) }
{
    match learnt {
        Some(_) => Some(learnt_by(learnt)),
        None => None,
    }
}
