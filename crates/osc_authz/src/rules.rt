//! What a server rules for its contexts.

ghost use Rattle.std.specs.Prelude.{◌≡◌, None, false, true};
ghost use Rattle.osc_authz.specs.Agreement.{end_of, is_allowed};

use osc_model::{Bytes, Moment, Path};
use osc_scope::Scope;

/// What a server rules for its contexts, beside what their tokens say.
#[derive(Drop)]
pub struct ContextRules {
    /// The path below which a resource revokes a token, by the hexadecimal text of the token's id.
    pub revoked: Option<Path>,
    /// How many seconds after the post that made it a context counts no more. Without a number it counts as long as its token.
    pub seconds: Option<u32>,
    /// How many of the newest posts of each token id are known again. A post that is known makes no context. With 0 each post is
    /// new.
    pub remembered: u8,
    /// The token id whose place in the table is kept: other ids have one place less while it isn't there.
    pub reserved: Option<Bytes>,
    /// Whether a token's scope may have permissions that count on the paths below their own, too.
    pub subtrees: bool,
    /// Whether the last answer of each context is kept, for a request that comes again.
    pub answers: bool,
}

impl ContextRules {
    /// No token is revoked, a context counts as long as its token, each post is new, no place is kept, each scope is taken, and no answer is
    /// kept.
    pub fn none() -> ContextRules
        ensures { result ≡ record { revoked = None; seconds = None; remembered = 0; reserved = None; subtrees = true; answers = false } }
    {
        ContextRules {
            revoked: None,
            seconds: None,
            remembered: 0,
            reserved: None,
            subtrees: true,
            answers: false,
        }
    }

    /// Whether tokens of this scope are taken.
    pub(crate) fn allows(&self, scope: &Scope) -> bool
        ensures { result ≡ is_allowed self.now scope.now }
    {
        self.subtrees || !scope.has_subtrees()
    }

    /// The second from which on a context that is made at this moment is too old, where there is a greatest age.
    pub(crate) fn end_of(&self, now: Moment) -> Option<u64>
        ensures { result ≡ end_of self.now.seconds now }
    {
        Some(now.ms / 1000 + u64::from(self.seconds?))
    }
}
