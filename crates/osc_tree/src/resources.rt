//! The resources of a tree, one after another.
ghost use Rattle.std.specs.Prelude.{length};
ghost use Rattle.std.specs.Iterator.{at_most};
ghost use Rattle.std.specs.Map.Iter.{TakesFirst, deref_pair};

use crate::tagged::Tagged;
use osc_model::{Path, Resource};
use std::collections::btree_map::Iter;
use std::marker::Model;

/// The paths that are left, each with its resource. Contracts see the list of them.
#[derive(Drop)]
pub struct Resources<'a> {
    pub(crate) entries: Iter<'a, Path, Tagged>,
}

impl<'a> Model for Resources<'a> {
    ghost use Rattle.std.specs.Prelude.{List, ℕ};
    ghost use Rattle.osc_model.specs.declared.resource.Resource.{Resource as AnyResource};

    ghost Value = { List (List ℕ × AnyResource) };

    ghost view = { λ r. r.entries };
}

impl<'a> Iterator for Resources<'a> {
    type Item = (&'a Path, &'a Resource);

    ghost next_gives = { TakesFirst deref_pair };

    ghost remaining = { λ s. at_most (length s) };

    fn next(&mut self) -> Option<(&'a Path, &'a Resource)> {
        match self.entries.next() {
            Some((path, tagged)) => Some((path, tagged.resource())),
            None => None,
        }
    }
}
