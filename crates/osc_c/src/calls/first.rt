//! The resources that a device has from the start.
ghost use Rattle.std.specs.Prelude.{◌≡◌, ◌≤◌, ◌<◌, IfErr, IfOk, IsTrue, OnOk, length};
ghost use Rattle.std.specs.FinMap as map;
ghost use Rattle.osc_model.specs.{IsPath, longest_payload};
ghost use Rattle.osc_model.specs.declared.resource.Resource.{Resource as AnyResource};
ghost use Rattle.osc_c.specs.Arguments.{IsFormatNumber};
ghost use Rattle.osc_c.specs.First.{FitAll, FitsFirst, HasRoom, IsUnfitOrWants, format_of, resource_of, with_all, with_first};
ghost use Rattle.osc_c.specs.Given.{resource_size};
ghost use Rattle.osc_c.specs.declared.calls.outcome.Outcome.TheVariants.{BadArgument};

use crate::calls::arguments;
use crate::calls::arguments::sized;
use crate::calls::outcome::Outcome;
use crate::calls::plain::PlainResource;
use osc_model::limits::LONGEST_PAYLOAD;
use osc_model::{Bytes, Path, Resource};
use osc_tree::Tree;
use std::alloc::Global;

/// Whether a tree has room for something at this path.
fn has_room(tree: &Tree, path: &Path) -> bool
    ensures yes { IsTrue result → HasRoom tree.now path.now }
    ensures no { HasRoom tree.now path.now → IsTrue result }
{
    tree.get(path).is_some() || !tree.is_full()
}

/// The Content-Format of this number.
fn format(number: i32) -> Result<Option<u16>, Outcome>
    ensures ok { IfOk result (λ format. (format ≡ format_of number) × IsFormatNumber number) }
    ensures err { IfErr result (λ outcome. (outcome ≡ BadArgument) × ¬ (IsFormatNumber number)) }
{
    arguments::format(number)
}

/// Refuses a payload that is too long for a resource.
fn short(payload: &[u8]) -> Result<(), Outcome>
    ensures ok { OnOk result (length payload.now ≤ longest_payload) }
    ensures err { IfErr result (λ outcome. (outcome ≡ BadArgument) × ¬ (length payload.now ≤ longest_payload)) }
{
    if payload.len() > LONGEST_PAYLOAD {
        return Err(Outcome::BadArgument);
    }
    Ok(())
}

/// Puts this value at its path, where there is room for it.
fn put_first(alloc: Global, tree: &mut Tree, given: &PlainResource<'_>) -> Result<(), Outcome>
    ensures ok { OnOk result (FitsFirst tree.old given.now × (tree.new ≡ with_first tree.old given.now)) }
    ensures err { IfErr result (IsUnfitOrWants (FitsFirst tree.old given.now)) }
{
    sized(given.size, size_of::<PlainResource<'_>>())?;
    let format = format(given.format)?;
    short(given.payload.bytes)?;
    let path = arguments::path(alloc, given.path.bytes)?;
    if !has_room(tree, &path) {
        return Err(Outcome::BadArgument);
    }
    let payload = Bytes::from_slice(alloc, given.payload.bytes)?;
    tree.put(alloc, path, Resource { format, payload })?;
    Ok(())
}

/// A tree of these, one after the other.
pub(crate) fn first_tree(alloc: Global, resources: &[PlainResource<'_>]) -> Result<Tree, Outcome>
    ensures ok { IfOk result (λ tree. (tree ≡ with_all map.empty resources.now) × FitAll map.empty resources.now) }
    ensures err { IfErr result (IsUnfitOrWants (FitAll map.empty resources.now)) }
{
    let mut tree = Tree::new(alloc);
    for given in resources {
        put_first(alloc, &mut tree, given)?;
    }
    Ok(tree)
}
