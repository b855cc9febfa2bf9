//! A resource with its ETag.
ghost use Rattle.std.specs.Prelude.{◌≡◌};
ghost use Rattle.osc_model.specs.{etag_of};

use crate::tags::etag;
use osc_model::Resource;
use std::alloc::AllocError;
use std::fmt;
use std::marker::Model;

/// A resource, and its ETag where that is kept. Contracts see the resource.
#[derive(Drop)]
pub(crate) struct Tagged {
    resource: Resource,
    kept: Option<[u8; 8]>,
}

impl Model for Tagged {
    ghost use Rattle.std.specs.Prelude.{◌≡◌, IfSome};
    ghost use Rattle.osc_model.specs.{etag_of};
    ghost use Rattle.osc_model.specs.Tree.{coded_resource};
    ghost use Rattle.osc_model.specs.declared.resource.Resource.{Resource as AnyResource};

    ghost Value = { AnyResource };

    ghost coded = { coded_resource };

    ghost view = { λ t. t.resource };

    ghost invariant = { λ t. IfSome t.kept (λ tag. tag ≡ etag_of t.resource) };
}

impl Tagged {
    /// The resource, without an ETag that is kept.
    pub(crate) fn new(resource: Resource) -> Self
        ensures { result ≡ resource }
    {
        Tagged {
            resource,
            kept: None,
        }
    }

    /// The resource, lent.
    pub(crate) fn resource(&self) -> &Resource
        ensures { result.now ≡ self.now }
    {
        &self.resource
    }

    /// Its ETag: the one that is kept, or else computed. Takes no memory.
    pub(crate) fn tag(&self) -> [u8; 8]
        ensures { result ≡ etag_of self.now }
    {
        match self.kept {
            Some(tag) => tag,
            None => etag(&self.resource),
        }
    }

    /// Whether its ETag is kept.
    pub(crate) fn is_kept(&self) -> bool {
        self.kept.is_some()
    }

    /// Keeps its ETag, which the caller knows.
    pub(crate) fn keep(&mut self, tag: Option<[u8; 8]>)
        requires { tag ≡ Some (etag_of self.old) }
        ensures { self.new ≡ self.old }
    {
        self.kept = tag;
    }

    /// Sets the resource. An ETag that was kept is no more.
    pub(crate) fn set(&mut self, resource: Resource)
        ensures { self.new ≡ resource }
    {
        self.resource = resource;
        self.kept = None;
    }
}

impl Clone for Tagged {
    ghost is_clone = { λ tagged copy. copy ≡ tagged };

    fn clone(&self) -> Result<Self, AllocError> {
        Ok(Tagged {
            resource: self.resource.clone()?,
            kept: self.kept,
        })
    }
}

// The ETag is no part of the value, and isn't printed.
impl fmt::Debug for Tagged {
    fn fmt<W: fmt::Write>(&self, f: &mut fmt::Formatter<W>) -> fmt::Result {
        self.resource.fmt(f)
    }
}
