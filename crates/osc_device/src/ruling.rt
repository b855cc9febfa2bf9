//! What a device rules of the tokens of an id.
ghost use Rattle.std.specs.Prelude.{◌≡◌};
ghost use Rattle.osc_device.specs.Ruling.{method_of, round_of};

use crate::round::Round;
use osc_model::Method;

/// What a device rules of the tokens of an id.
#[derive(Clone, Copy, Debug, PartialEq, Eq)]
pub enum Ruling {
    /// None of them is taken, and no request is served under their contexts.
    Revoke,
    /// They count again.
    Allow,
}

/// What came of a ruling.
#[derive(Debug, Drop)]
pub struct Ruled {
    /// What the device asked of its server, and what came of that.
    pub round: Round,
    /// Whether the tokens of the id are revoked now.
    pub is_revoked: bool,
}

impl Ruling {
    /// By which method: a resource at the path of the id revokes its tokens.
    pub(crate) fn method(self) -> Method
        ensures { result ≡ method_of self }
    {
        match self {
            Ruling::Revoke => Method::Put,
            Ruling::Allow => Method::Delete,
        }
    }
}

impl Ruled {
    /// What the device asked of its server.
    pub fn into_round(self) -> Round
        ensures { result ≡ self.round }
    {
        let Ruled {
            round,
            is_revoked: _,
        } = self;
        round
    }
}

/// The round of what came of a ruling, where there was a path for the id.
pub(crate) fn round_of<E>(ruled: Result<Option<Ruled>, E>) -> Result<Option<Round>, E>
    ensures { result ≡ round_of ruled }
{
    match ruled {
        Ok(Some(ruled)) => Ok(Some(ruled.into_round())),
        Ok(None) => Ok(None),
        Err(error) => Err(error),
    }
}
