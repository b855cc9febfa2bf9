//! Of which kind a line is that is told a few times a second.
ghost use Rattle.std.specs.Prelude.{◌≡◌, option_map};
ghost use Rattle.osc_log.specs.Kinds as spec;

use crate::turn::Turn;
use osc_model::{Note, refusals};

/// What a line is of that is told a few times a second: each kind for itself. Lines of what is served are of no such kind.
#[derive(Clone, Copy, Debug, PartialEq, Eq)]
pub(crate) enum Kind {
    /// A refusal for which no security context was found.
    NoContext,
    /// A refusal of a request whose security context was found.
    UnderContext,
    /// What was sent, neither a refusal nor the answer to what was served.
    Sent,
}

impl Kind {
    /// That of the lines by which a turn is told.
    pub fn of(turn: &Turn<'_>) -> Option<Kind>
        ensures { result ≡ spec.kind_of turn.entry.now.step.notes }
    {
        match (turn.refused(), turn.served()) {
            (Some(refused), _) => Some(Kind::of_refusal(turn.notes().opens(), refused.reason)),
            (None, Some(_)) => None,
            (None, None) => Some(Kind::Sent),
        }
    }

    // That of a refusal for this reason, where this was opened: a token, by a post.
    fn of_refusal(opens: Option<&Note>, reason: Option<u8>) -> Kind
        ensures { result ≡ spec.kind_of_refusal (option_map (λ note. note.now) opens.entry) reason }
    {
        match (opens, reason) {
            (None, Some(refusals::NOT_GENUINE)) => Kind::UnderContext,
            (None, Some(refusals::REPLAY)) => Kind::UnderContext,
            _ => Kind::NoContext,
        }
    }

    /// How it is named.
    pub fn words(self) -> &'static str
        ensures { result.now ≡ spec.kind_words self }
    {
        match self {
            Kind::NoContext => "refusals without a context",
            Kind::UnderContext => "refusals under a context",
            Kind::Sent => "sent lines",
        }
    }

    /// The level of its lines.
    pub fn level(self) -> &'static str
        ensures { result.now ≡ spec.kind_level self }
    {
        match self {
            Kind::NoContext | Kind::UnderContext => "refused",
            Kind::Sent => "sent",
        }
    }
}
