//! Names of security contexts with several owners.
ghost use Rattle.std.specs.Prelude.{◌≡◌, IfOk};
ghost use Rattle.osc_model.specs.contracts.context.ContextNamePartialEq.TheImpl as name_eq;
ghost use Rattle.osc_model.specs.contracts.context.ContextNamePartialEq.TheImpl.Laws as name_laws;
ghost use Rattle.osc_model.specs.contracts.context.ContextNameEq.TheImpl.Laws as name_equiv;

use crate::context::ContextName;
use std::alloc::{AllocError, Global};
use std::fmt;
use std::marker::Model;
use std::ops::Deref;
use std::rc::Rc;

/// A context's name, with several owners in one thread: a clone is one more owner of the same name, which is on the heap once.
/// Contracts see the name.
pub struct SharedName {
    name: Rc<ContextName, Global>,
}

impl Drop for SharedName {
    fn drop(self) {
        let SharedName { name: _ } = self;
    }
}

// The secret isn't printed.
impl fmt::Debug for SharedName {
    fn fmt<W: fmt::Write>(&self, f: &mut fmt::Formatter<W>) -> fmt::Result {
        f.write_str("SharedName")
    }
}

impl Model for SharedName {
    ghost use Rattle.osc_model.specs.declared.context.ContextName.{ContextName};

    ghost Value = { ContextName };

    ghost view = { λ shared. shared.name.value };
}

impl SharedName {
    /// The name, with its first owner.
    pub fn new(alloc: Global, name: ContextName) -> Result<SharedName, AllocError>
        ensures { IfOk result (λ shared. shared ≡ name) }
    {
        match Rc::new(alloc, name) {
            Ok(name) => Ok(SharedName { name }),
            Err(_) => Err(AllocError),
        }
    }
}

impl Deref for SharedName {
    type Target = ContextName;

    ghost deref_gives = { λ shared name. name ≡ shared };

    /// The name, lent.
    fn deref(&self) -> &ContextName
        ensures { result.now ≡ self.now }
    {
        self.name.as_ref()
    }
}

impl Clone for SharedName {
    ghost is_clone = { λ shared copy. copy ≡ shared };

    /// One more owner; takes no memory. Refused only where the name has as many owners as can be counted.
    fn clone(&self) -> Result<Self, AllocError> {
        Ok(SharedName {
            name: self.name.clone()?,
        })
    }
}

impl PartialEq for SharedName {
    ghost eq = { (name_eq.ghosts).eq };

    ghost laws = { name_laws.laws-law };

    fn eq(&self, other: &SharedName) -> bool {
        self.name == other.name
    }
}

impl Eq for SharedName {
    ghost laws = { name_equiv.laws-law };
}
