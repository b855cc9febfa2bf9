//! The associated data of a seal.
ghost use Rattle.std.specs.Prelude.{◌≡◌, ◌≤◌, length, nat_eq};
ghost use Rattle.std.specs.Cmp.{partial_equiv_from_equiv};
ghost use Rattle.std.specs.Cmp.Lexicographic.{pointwise, nat_list_eq_equiv};

use crate::bytes::Bytes;
use arrayvec::ArrayVec;
use std::alloc::AllocError;
use std::fmt;
use std::marker::Model;

/// The bytes: those of a message's seal take no heap.
#[derive(Drop)]
enum DataBytes {
    Short(ArrayVec<u8, 32>),
    Long(Bytes),
}

/// The associated data of a seal, which contracts see as the list of its bytes. That of a message is at most 32 bytes (RFC 8613
/// section 5.4), which take no heap; that of a token may be longer (RFC 9052 section 5.3).
#[derive(Drop)]
pub struct AssociatedData {
    kept: DataBytes,
}

impl Model for AssociatedData {
    ghost use Rattle.std.specs.Prelude.{List, ℕ};
    ghost use Rattle.std.specs.Coded.{coded_list, coded_ℕ};
    ghost use Rattle.osc_model.specs.AssociatedData.{data_of};

    ghost Value = { List ℕ };

    ghost coded = { coded_list coded_ℕ };

    ghost view = { λ a. data_of a.kept };
}

// The bytes aren't printed.
impl fmt::Debug for AssociatedData {
    fn fmt<W: fmt::Write>(&self, f: &mut fmt::Formatter<W>) -> fmt::Result {
        f.write_str("AssociatedData")
    }
}

impl AssociatedData {
    /// A copy of these bytes, which are at most 32; takes no memory.
    pub fn from_slice(bytes: &[u8]) -> AssociatedData
        requires { length bytes.now ≤ 32 }
        ensures { result ≡ bytes.now }
    {
        let mut short = ArrayVec::new();
        short.try_extend_from_slice(bytes).unwrap();
        AssociatedData {
            kept: DataBytes::Short(short),
        }
    }

    /// These bytes, which are not copied.
    pub fn from_bytes(bytes: Bytes) -> AssociatedData
        ensures { result ≡ bytes }
    {
        AssociatedData {
            kept: DataBytes::Long(bytes),
        }
    }

    /// The bytes, lent.
    pub fn as_slice(&self) -> &[u8]
        ensures { result.now ≡ self.now }
    {
        match &self.kept {
            DataBytes::Short(bytes) => bytes.as_slice(),
            DataBytes::Long(bytes) => bytes.as_slice(),
        }
    }
}

impl Clone for AssociatedData {
    ghost is_clone = { λ aad copy. copy ≡ aad };

    fn clone(&self) -> Result<Self, AllocError> {
        match &self.kept {
            DataBytes::Short(bytes) => Ok(AssociatedData {
                kept: DataBytes::Short(bytes.clone()?),
            }),
            DataBytes::Long(bytes) => Ok(AssociatedData {
                kept: DataBytes::Long(bytes.clone()?),
            }),
        }
    }
}

impl PartialEq for AssociatedData {
    ghost eq = { pointwise nat_eq };

    ghost laws = { partial_equiv_from_equiv nat_list_eq_equiv };

    fn eq(&self, other: &AssociatedData) -> bool {
        self.as_slice() == other.as_slice()
    }
}

impl Eq for AssociatedData {
    ghost laws = { nat_list_eq_equiv };
}
