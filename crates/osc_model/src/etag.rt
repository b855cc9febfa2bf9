//! The values of If-Match options.
ghost use Rattle.std.specs.Prelude.{◌≡◌, [], ◌++◌, ◌∷◌, ◌==◌, length, IfOk, OnErr, OnOk, nat_eq};
ghost use Rattle.std.specs.Cmp.{partial_equiv_from_equiv};
ghost use Rattle.std.specs.Cmp.Lexicographic.{pointwise, lists_equiv, nat_list_eq_equiv};

use crate::bytes::Bytes;
use arrayvec::ArrayVec;
use std::alloc::{AllocError, Global};
use std::fmt;
use std::marker::Model;

/// The most bytes of an entity-tag (RFC 7252 section 5.10.6).
const TAG_LIMIT: usize = 8;

/// The bytes of a value: those of an entity-tag take no heap.
#[derive(Drop)]
enum TagBytes {
    Short(ArrayVec<u8, TAG_LIMIT>),
    Long(Bytes),
}

/// The value of an If-Match option, which contracts see as the list of its bytes. One of at most 8 bytes takes no heap.
#[derive(Drop)]
pub struct ETag {
    kept: TagBytes,
}

impl Model for ETag {
    ghost use Rattle.std.specs.Prelude.{List, ℕ};
    ghost use Rattle.std.specs.Coded.{coded_list, coded_ℕ};
    ghost use Rattle.osc_model.specs.ETag.{bytes_of};

    ghost Value = { List ℕ };

    ghost coded = { coded_list coded_ℕ };

    ghost view = { λ tag. bytes_of tag.kept };
}

impl fmt::Debug for ETag {
    fn fmt<W: fmt::Write>(&self, f: &mut fmt::Formatter<W>) -> fmt::Result {
        self.as_slice().fmt(f)
    }
}

impl ETag {
    /// A copy of these bytes; memory is taken where there are more than 8.
    #[inline(always)]
    pub fn copied(alloc: Global, bytes: &[u8]) -> Result<ETag, AllocError>
        ensures { IfOk result (λ tag. tag ≡ bytes.now) }
    {
        let mut short = ArrayVec::new();
        match short.try_extend_from_slice(bytes) {
            Ok(()) => Ok(ETag {
                kept: TagBytes::Short(short),
            }),
            Err(_) => Ok(ETag {
                kept: TagBytes::Long(Bytes::from_slice(alloc, bytes)?),
            }),
        }
    }

    /// The bytes, lent.
    #[inline(always)]
    pub fn as_slice(&self) -> &[u8]
        ensures { result.now ≡ self.now }
    {
        match &self.kept {
            TagBytes::Short(bytes) => bytes.as_slice(),
            TagBytes::Long(bytes) => bytes.as_slice(),
        }
    }

    /// Whether there is none.
    pub fn is_empty(&self) -> bool
        ensures { result ≡ (length self.now == 0) }
    {
        self.as_slice().is_empty()
    }
}

impl Clone for ETag {
    ghost is_clone = { λ tag copy. copy ≡ tag };

    fn clone(&self) -> Result<Self, AllocError> {
        match &self.kept {
            TagBytes::Short(bytes) => Ok(ETag {
                kept: TagBytes::Short(bytes.clone()?),
            }),
            TagBytes::Long(bytes) => Ok(ETag {
                kept: TagBytes::Long(bytes.clone()?),
            }),
        }
    }
}

impl PartialEq for ETag {
    ghost eq = { pointwise nat_eq };

    ghost laws = { partial_equiv_from_equiv nat_list_eq_equiv };

    fn eq(&self, other: &ETag) -> bool {
        self.as_slice() == other.as_slice()
    }
}

impl Eq for ETag {
    ghost laws = { nat_list_eq_equiv };
}

/// The values of a request's If-Match options, in their order (RFC 7252 section 5.10.8.1). Contracts see the list.
#[derive(Debug, Drop)]
pub struct ETags {
    tags: Vec<ETag>,
}

impl Model for ETags {
    ghost use Rattle.std.specs.Prelude.{List, ℕ};
    ghost use Rattle.std.specs.Coded.{coded_list, coded_ℕ};

    ghost Value = { List (List ℕ) };

    ghost coded = { coded_list (coded_list coded_ℕ) };

    ghost view = { λ e. e.tags.items };
}

impl ETags {
    /// No If-Match option.
    pub fn new(alloc: Global) -> Self
        ensures { result ≡ [] }
    {
        ETags {
            tags: Vec::new(alloc),
        }
    }

    /// Adds the value of a further option; without memory all stays as it was.
    #[inline(always)]
    pub fn push(&mut self, alloc: Global, tag: &[u8]) -> Result<(), AllocError>
        ensures ok { OnOk result (self.new ≡ self.old ++ tag.now ∷ []) }
        ensures err { OnErr result (self.new ≡ self.old) }
    {
        let tag = ETag::copied(alloc, tag)?;
        Ok(self.tags.push(tag)?)
    }

    /// The values, lent.
    pub fn as_slice(&self) -> &[ETag]
        ensures { result.now ≡ self.now }
    {
        &self.tags
    }
}

impl Clone for ETags {
    ghost is_clone = { λ tags copy. copy ≡ tags };

    fn clone(&self) -> Result<Self, AllocError> {
        Ok(ETags {
            tags: self.tags.clone()?,
        })
    }
}

impl PartialEq for ETags {
    ghost eq = { pointwise (pointwise nat_eq) };

    ghost laws = { partial_equiv_from_equiv (lists_equiv nat_list_eq_equiv) };

    fn eq(&self, other: &ETags) -> bool {
        self.tags == other.tags
    }
}

impl Eq for ETags {
    ghost laws = { lists_equiv nat_list_eq_equiv };
}
