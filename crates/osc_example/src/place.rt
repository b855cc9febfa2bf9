//! The resources of the lock.
ghost use Rattle.std.specs.Prelude.{◌≡◌, IfOk};
ghost use Rattle.osc_example.specs.Inner.Place.{text_of};

use crate::fault::Fault;
use osc_model::Path;
use std::alloc::Global;

/// A resource of the lock.
#[derive(Clone, Copy, Debug, PartialEq, Eq)]
pub enum Place {
    /// Where holders write what they want.
    Wanted,
    /// Where the lock writes what is.
    Actual,
    /// What happened, by the lock's own say.
    Log,
}

impl Place {
    /// The text of its path.
    pub fn text(self) -> &'static [u8]
        ensures { result.now ≡ text_of self }
    {
        match self {
            Place::Wanted => b"/lock/wanted",
            Place::Actual => b"/lock/actual",
            Place::Log => b"/log",
        }
    }

    /// Its path.
    pub fn path(self, alloc: Global) -> Result<Path, Fault>
        ensures { IfOk result (λ path. path ≡ text_of self) }
    {
        match Path::from_text(alloc, self.text())? {
            Some(path) => Ok(path),
            None => Err(Fault::Path),
        }
    }
}
