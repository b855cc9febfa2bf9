//! Scopes.
ghost use Rattle.std.specs.Prelude.{◌≡◌, OnOk, OnErr, IsOk, IsTrue, map, option_map};
ghost use Rattle.std.specs.List.{All};
ghost use Rattle.std.specs.FinSet as set;
ghost use Rattle.osc_model.specs.{exactly, has_subtrees};
ghost use Rattle.osc_scope.specs.Entries.{IsLawful, scope_of};
ghost use Rattle.osc_scope.specs.Reading.{entry_with};
ghost use Rattle.osc_scope.specs.Verdict.{verdict_of};

use crate::kept::Entries;
use crate::lookup::{goes_below, has_exactly, place_for, verdict_in_order, verdict_on};
use crate::methods::bit_of;
use crate::verdict::Verdict;
use osc_model::{Code, Method, Path};
use std::alloc::{AllocError, Global};
use std::marker::Model;

/// Which methods a holder may use on which paths, as contracts see it: a set of permissions, each of a method on a path, or on that
/// path and each path below it. It is kept as entries of a path and a set of methods (RFC 9237 section 3), in two blocks of memory.
/// Those that were allowed one by one are in the order of their paths, so that a look-up finds them by bisection, in logarithmic time;
/// those that were read are as they came, and a look-up goes over them once. It takes no memory.
#[derive(Debug, Drop)]
pub struct Scope {
    // Each with some method; a path may be in several.
    entries: Entries,
    // Whether one of them counts on the paths below its own, too.
    goes_below: bool,
    // Whether they are in the order of their paths, and none counts on the paths below its own.
    in_order: bool,
}

impl Model for Scope {
    ghost use Rattle.std.specs.Prelude.{◌≡◌, map};
    ghost use Rattle.osc_model.specs.{coded_scope};
    ghost use Rattle.osc_model.specs.Scope.{Scope as Permissions};

    ghost Value = { Permissions };

    ghost coded = { coded_scope };

    ghost use Rattle.std.specs.List.{All, list_any};
    ghost use Rattle.osc_scope.specs.Entries.{IsLawful, scope_of, is_below};
    ghost use Rattle.osc_scope.specs.Reading.{entry_with};

    ghost view = { λ s. scope_of (map entry_with s.entries) };

    ghost use Rattle.std.specs.Prelude.{IsTrue, false};
    ghost use Rattle.osc_scope.specs.Inner.Kept.{AreInOrder};

    ghost invariant = { λ s. All IsLawful (map entry_with s.entries) × (s.goes_below ≡ list_any (λ entry. is_below entry.1) s.entries)
        × (IsTrue s.in_order → (s.goes_below ≡ false) × AreInOrder s.entries) };
}

impl Scope {
    /// The scope that grants nothing; takes no memory.
    pub fn new(alloc: Global) -> Self
        ensures { result ≡ set.empty }
    {
        Scope {
            entries: Entries::new(alloc),
            goes_below: false,
            in_order: true,
        }
    }

    /// The scope of these entries, which are not copied.
    pub(crate) fn of_entries(entries: Entries) -> Self
        requires { All IsLawful (map entry_with entries) }
        ensures { result ≡ scope_of (map entry_with entries) }
    {
        let goes_below = goes_below(&entries);
        Scope {
            entries,
            goes_below,
            in_order: false,
        }
    }

    /// Adds a method on this path alone. A permission that the scope has already takes no memory; without memory for another,
    /// the scope stays as it was.
    pub fn allow(&mut self, _alloc: Global, path: Path, method: Method) -> Result<(), AllocError>
        ensures ok { OnOk result (self.new ≡ set.insert self.old (exactly path method)) }
        ensures err { OnErr result (self.new ≡ self.old) }
        ensures present { IsTrue (set.contains self.old (exactly path method)) → IsOk result }
    {
        osc_model::laws::permissions_are_ordered();
        if !self.has_exactly(&path, method) {
            let place = place_for(&self.entries, self.in_order, &path);
            self.entries.insert(place, path.text(), bit_of(method))?;
        }
        Ok(())
    }

    /// What the scope says of a request with this path, or with none, and this code; takes no memory.
    pub fn verdict(&self, path: Option<&Path>, code: Code) -> Verdict
        ensures { result ≡ verdict_of self.now (option_map (λ p. p.now) path.entry) code }
    {
        match path {
            Some(path) if self.in_order => verdict_in_order(&self.entries, path, code),
            Some(path) => verdict_on(&self.entries, self.goes_below, path, code),
            None => Verdict::NoPath,
        }
    }

    /// Whether a permission counts on the paths below its own, too. It is known from the start: nothing is looked up.
    pub fn has_subtrees(&self) -> bool
        ensures { result ≡ has_subtrees self.now }
    {
        osc_model::laws::any_permission();
        self.goes_below
    }

    // Whether the scope has the method on exactly this path.
    fn has_exactly(&self, path: &Path, method: Method) -> bool
        ensures { result ≡ set.contains self.now (exactly path.now method) }
    {
        osc_model::laws::permissions_are_ordered();
        has_exactly(&self.entries, path, method)
    }
}
