//! What calls answer.
ghost use Rattle.std.specs.Prelude.{◌≡◌, pos};
ghost use Rattle.osc_c.specs.Ends.{done_or_lost};
ghost use Rattle.osc_c.specs.Outcome.{number_of};
ghost use Rattle.osc_c.specs.declared.calls.outcome.Outcome.TheVariants.{NoMemory};

use osc_model::refusals;
use std::alloc::AllocError;

/// The number of what was answered and refused, beside those of `osc_model::refusals`.
const REFUSED: i32 = 39;

/// The number of a step that isn't made, or not handed out, since a change isn't kept.
const NOT_KEPT: i32 = 40;

/// What a call answers: that it is done, or why it isn't.
#[derive(Clone, Copy, Debug, PartialEq, Eq)]
pub enum Outcome {
    /// It is done.
    Done,
    /// A buffer is too short.
    TooShort,
    /// There was no memory.
    NoMemory,
    /// It would be longer than a datagram may be, or than a token.
    TooLong,
    /// Something is open already.
    Busy,
    /// The context's numbers are used up.
    Exhausted,
    /// There is no security context.
    NoContext,
    /// The text is no scope.
    BadScope,
    /// There is none: no node, no datagram, nothing served or learnt, no resource, no deadline.
    Nothing,
    /// An argument is out of its range.
    BadArgument,
    /// There was no memory on the way: what was begun is open, and a tick goes on with it; or what was due at a tick didn't go out.
    Lost,
    /// What was begun ended by an unprotected answer.
    Unverified,
    /// The proxy has heard something already.
    NotNow,
    /// What was asked was answered, and refused.
    Refused,
    /// What the last step changed isn't kept, or not yet.
    NotKept,
}

impl Outcome {
    /// Of a tick at which all that was due went out, or was lost for lack of memory.
    pub fn of_tick(lost: bool) -> Outcome
        ensures { result ≡ done_or_lost lost }
    {
        if lost { Outcome::Lost } else { Outcome::Done }
    }

    /// Its number.
    pub fn number(self) -> i32
        ensures { result ≡ pos (number_of self) }
    {
        match self {
            Outcome::Done => 0,
            Outcome::TooShort => refusals::OUT_TOO_SMALL as i32,
            Outcome::NoMemory => refusals::MEMORY as i32,
            Outcome::TooLong => refusals::DATAGRAM_TOO_LONG as i32,
            Outcome::Busy => refusals::BUSY as i32,
            Outcome::Exhausted => refusals::EXHAUSTED as i32,
            Outcome::NoContext => refusals::NO_CONTEXT as i32,
            Outcome::BadScope => refusals::BAD_SCOPE as i32,
            Outcome::Nothing => refusals::NOTHING_HELD as i32,
            Outcome::BadArgument => refusals::BAD_ARGUMENT as i32,
            Outcome::Lost => refusals::LOST as i32,
            Outcome::Unverified => refusals::UNVERIFIED as i32,
            Outcome::NotNow => refusals::NOT_NOW as i32,
            Outcome::Refused => REFUSED,
            Outcome::NotKept => NOT_KEPT,
        }
    }
}

impl From<AllocError> for Outcome {
    ghost from_gives = { λ _ outcome. outcome ≡ NoMemory };

    fn from(_error: AllocError) -> Outcome {
        Outcome::NoMemory
    }
}
