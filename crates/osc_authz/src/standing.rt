//! What a context is judged by.
ghost use Rattle.std.specs.Prelude.{◌≡◌};
ghost use Rattle.std.specs.FinMap as map;
ghost use Rattle.osc_model.specs.{stands};

use osc_model::{Moment, Path};
use osc_tree::Tree;
use std::marker::Model;

/// What a context is judged by: when, and on which resources.
#[derive(Drop)]
pub struct Standing<'a> {
    /// The moment.
    pub at: Moment,
    /// The resources of the server.
    pub tree: &'a Tree,
}

impl<'a> Model for Standing<'a> {
    ghost use Rattle.osc_authz.specs.Standing.{Standing as Stood};
    ghost use Rattle.std.specs.Coded.{codes};
    ghost use Rattle.osc_model.specs.{coded_tree};

    ghost Value = { Stood };

    ghost coded = { Prim.hlevel (codes, coded_tree) };

    ghost view = { λ on. record { at = on.at; tree = on.tree.now } };
}

/// Whether a resource is at a path, if there is one.
pub(crate) fn is_there(tree: &Tree, path: &Option<Path>) -> bool
    ensures { result ≡ stands tree.now path.now }
{
    match path {
        Some(path) => has_resource(tree, path),
        None => false,
    }
}

/// Whether a resource is at this path.
pub(crate) fn has_resource(tree: &Tree, path: &Path) -> bool
    ensures { result ≡ map.contains_key tree.now path.now }
{
    tree.get(path).is_some()
}
