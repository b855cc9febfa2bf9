//! Bytes with several owners.
ghost use Rattle.std.specs.Prelude.{◌≡◌, IfOk};

use crate::bytes::Bytes;
use std::alloc::{AllocError, Global};
use std::fmt;
use std::marker::Model;
use std::rc::Rc;

/// Bytes with several owners in one thread: a clone is one more owner of the same bytes, which are on the heap once. Contracts see the list of them.
pub struct SharedBytes {
    bytes: Rc<Bytes, Global>,
}

impl Drop for SharedBytes {
    fn drop(self) {
        let SharedBytes { bytes: _ } = self;
    }
}

impl fmt::Debug for SharedBytes {
    fn fmt<W: fmt::Write>(&self, f: &mut fmt::Formatter<W>) -> fmt::Result {
        self.as_slice().fmt(f)
    }
}

impl Model for SharedBytes {
    ghost use Rattle.std.specs.Prelude.{List, ℕ};
    ghost use Rattle.std.specs.Coded.{coded_list, coded_ℕ};

    ghost Value = { List ℕ };

    ghost coded = { coded_list coded_ℕ };

    ghost view = { λ shared. shared.bytes.value };
}

impl SharedBytes {
    /// The bytes, with their first owner.
    pub fn new(alloc: Global, bytes: Bytes) -> Result<SharedBytes, AllocError>
        ensures { IfOk result (λ shared. shared ≡ bytes) }
    {
        match Rc::new(alloc, bytes) {
            Ok(bytes) => Ok(SharedBytes { bytes }),
            Err(_) => Err(AllocError),
        }
    }

    /// The bytes, lent.
    pub fn as_slice(&self) -> &[u8]
        ensures { result.now ≡ self.now }
    {
        self.bytes.as_ref().as_slice()
    }
}

impl Clone for SharedBytes {
    ghost is_clone = { λ shared copy. copy ≡ shared };

    /// One more owner; takes no memory. Refused only where the bytes have as many owners as can be counted.
    fn clone(&self) -> Result<Self, AllocError> {
        Ok(SharedBytes {
            bytes: self.bytes.clone()?,
        })
    }
}
