//! The tree.
ghost use Rattle.std.specs.Prelude.{◌≡◌, ◌≤◌, ◌<◌, ◌==◌, false, length, nat_le, option_copied, option_map, IfOk, IfSome, OnOk, OnErr, IsSome, Some};
ghost use Rattle.std.specs.BTreeMap.{IsUnchanged, Updates, get_by};
ghost use Rattle.std.specs.FinMap as map;
ghost use Rattle.osc_model.specs.{path_cmp, etag_of, IsWithinLimits, most_resources, longest_payload, is_full_at, most_at};

use crate::resources::Resources;
use crate::tagged::Tagged;
use osc_model::limits::{MOST_ELSEWHERE, MOST_RESOURCES};
use osc_model::{Path, Resource, laws};
use std::alloc::{AllocError, Global};
use std::collections::BTreeMap;
use std::marker::Model;

/// A finite map from paths to resources: at most 1024, each of at most 512 bytes. To look a path up takes logarithmic
/// time and no memory. An ETag that was answered is kept beside its resource until that is written.
#[derive(Debug)]
pub struct Tree {
    resources: BTreeMap<Path, Tagged>,
}

impl Drop for Tree {
    fn drop(self) {
        let Tree { resources: _ } = self;
    }
}

impl Model for Tree {
    ghost use Rattle.std.specs.FinMap as map;
    ghost use Rattle.osc_model.specs.{coded_tree, IsWithinLimits};
    ghost use Rattle.osc_model.specs.Tree.{Tree as Resources};

    ghost Value = { Resources };

    ghost coded = { coded_tree };

    ghost view = { λ t. map.from_entries t.resources.entries };

    ghost invariant = { λ t. IsWithinLimits (map.from_entries t.resources.entries) };
}

impl Tree {
    /// The empty tree; takes no memory.
    pub fn new(alloc: Global) -> Self
        ensures { result ≡ map.empty }
    {
        laws::trees_stay_within_limits();
        Tree {
            resources: BTreeMap::new(alloc),
        }
    }

    /// What the path has, if it has something; takes logarithmic time and no memory.
    pub fn get(&self, path: &Path) -> Option<&Resource>
        ensures found { option_copied result ≡ map.get self.now path.now }
        ensures limits { IsWithinLimits self.now }
    {
        match self.find(path) {
            Some(found) => Some(found.resource()),
            None => None,
        }
    }

    /// The same, with its ETag where that is kept.
    pub(crate) fn find(&self, path: &Path) -> Option<&Tagged>
        ensures found { option_copied result ≡ map.get self.now path.now }
        ensures limits { IsWithinLimits self.now }
    {
        laws::paths_are_ordered();
        self.resources.get(path)
    }

    /// Keeps the ETag of what the path has; takes no memory.
    pub(crate) fn keep_tag(&mut self, path: &Path, tag: Option<[u8; 8]>)
        requires { IfSome (map.get self.old path.now) (λ resource. tag ≡ Some (etag_of resource)) }
        ensures { self.new ≡ self.old }
    {
        laws::paths_are_ordered();
        keep_in(&mut self.resources, path, tag);
    }

    /// How many resources there are.
    pub fn len(&self) -> usize
        ensures len { result ≡ map.len self.now }
        ensures limits { IsWithinLimits self.now }
    {
        laws::paths_are_ordered();
        self.resources.len()
    }

    /// Whether there is none.
    pub fn is_empty(&self) -> bool
        ensures { result ≡ (map.len self.now == 0) }
    {
        self.len() == 0
    }

    /// Whether there are `MOST_RESOURCES`.
    pub fn is_full(&self) -> bool
        ensures { result ≡ nat_le most_resources (map.len self.now) }
    {
        MOST_RESOURCES <= self.len()
    }

    /// Whether there are too many for one more at this path, at a server that may have a revocation path: `MOST_RESOURCES`, or
    /// `MOST_ELSEWHERE` where the path isn't that one and none below it.
    pub fn is_full_at(&self, root: Option<&Path>, path: &Path) -> bool
        ensures { result ≡ is_full_at (option_map (λ path. path.now) root.entry) self.now path.now }
    {
        most_at(root, path) <= self.len()
    }

    /// Sets what the path has. The caller knows that the payload has at most `LONGEST_PAYLOAD` bytes, and that the path
    /// has something (`get`) or the tree is not full (`is_full`). Without memory the tree stays as it was.
    pub fn put(&mut self, _alloc: Global, path: Path, resource: Resource) -> Result<(), AllocError>
        requires short { length resource.payload ≤ longest_payload }
        requires room { map.contains_key self.old path ≡ false → map.len self.old < most_resources }
        ensures ok { OnOk result (self.new ≡ map.insert self.old path resource) }
        ensures err { OnErr result (self.new ≡ self.old) }
    {
        laws::paths_are_ordered();
        laws::trees_stay_within_limits();
        self.resources.insert(path, Tagged::new(resource))?;
        Ok(())
    }

    /// Puts this in the place of what the path has; takes no memory.
    pub(crate) fn replace(&mut self, path: &Path, resource: Resource)
        requires short { length resource.payload ≤ longest_payload }
        requires present { IsSome (map.get self.old path.now) }
        ensures { self.new ≡ map.insert self.old path.now resource }
    {
        laws::paths_are_ordered();
        laws::trees_stay_within_limits();
        replace_in(&mut self.resources, path, resource);
    }

    /// Leaves the path with nothing; takes no memory.
    pub(crate) fn remove(&mut self, path: &Path)
        ensures { self.new ≡ map.remove self.old path.now }
    {
        laws::paths_are_ordered();
        laws::trees_stay_within_limits();
        self.resources.remove(path);
    }

    /// The paths with their resources, in the byte order of the paths' texts; takes no memory.
    pub fn iter(&self) -> Resources<'_>
        ensures { result ≡ map.entries self.now }
    {
        laws::paths_are_ordered();
        Resources {
            entries: self.resources.iter(),
        }
    }

    /// Another tree of the same resources. Without memory an `AllocError`.
    pub fn copy(&self, _alloc: Global) -> Result<Tree, AllocError>
        ensures { IfOk result (λ copy. copy ≡ self.now) }
    {
        Ok(Tree {
            resources: self.resources.clone()?,
        })
    }
}

// The number of resources from which no more is made at this path.
fn most_at(root: Option<&Path>, path: &Path) -> usize
    ensures { result ≡ most_at (option_map (λ path. path.now) root.entry) path.now }
{
    match root {
        Some(root) if !path.begins_with(root) => MOST_ELSEWHERE,
        _ => MOST_RESOURCES,
    }
}

// Writes over what the path has.
fn replace_in(resources: &mut BTreeMap<Path, Tagged>, path: &Path, resource: Resource)
    requires { IsSome (get_by (path_cmp path.now) resources.old) }
    ensures { Updates path_cmp resources.old resources.new path.now (Some resource) }
{
    if let Some(found) = resources.get_mut(path) {
        found.set(resource);
    }
}

// Keeps the ETag of what the path has.
fn keep_in(resources: &mut BTreeMap<Path, Tagged>, path: &Path, tag: Option<[u8; 8]>)
    requires { IfSome (get_by (path_cmp path.now) resources.old) (λ resource. tag ≡ Some (etag_of resource)) }
    ensures { IsUnchanged resources.old resources.new }
{
    if let Some(found) = resources.get_mut(path) {
        found.keep(tag);
    }
}
