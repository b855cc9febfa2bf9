//! The right to a request.
ghost use Rattle.std.specs.Prelude.{◌≡◌, ◌↔◌, List, ℕ, Option, Some, true, IsOk, IfOk, IfErr, IfSome};
ghost use Rattle.osc_model.specs.{allows, apply as outcome, bare, method_of};
ghost use Rattle.osc_model.specs.Tree.{Tree as AnyTree};
ghost use Rattle.osc_scope.specs.{verdict_of};
ghost use Rattle.osc_scope.specs.declared.verdict.Verdict.TheVariants.{Granted as Grants};

use osc_model::{Code, Path, Request};
use osc_scope::{Scope, Verdict};
use std::fmt;
use std::marker::Model;

/// That a scope grants a request: [`Grant::of`] alone makes one, and asks the scope. It holds what it speaks of by reference; contracts see
/// both.
#[derive(Drop)]
pub struct Grant<'a> {
    scope: &'a Scope,
    path: &'a Path,
    request: &'a Request,
}

impl<'a> Model for Grant<'a> {
    ghost use Rattle.std.specs.Prelude.{◌≡◌, Some, true};
    ghost use Rattle.osc_model.specs.{allows, coded_scope, method_of};
    ghost use Rattle.osc_tree.specs.Granted.{Granted};
    ghost use Rattle.std.specs.Coded.{codes};

    ghost Value = { Granted };

    ghost coded = { Prim.hlevel (codes, coded_scope) };

    ghost view = { λ g. record { scope = g.scope.now; request = g.request.now } };

    ghost invariant = { λ g. (g.request.now.path ≡ Some g.path.now) × (allows g.scope.now g.path.now (method_of g.request.now.code) ≡ true) };
}

// What is asked isn't printed.
impl<'a> fmt::Debug for Grant<'a> {
    fn fmt<W: fmt::Write>(&self, f: &mut fmt::Formatter<W>) -> fmt::Result {
        f.write_str("Grant")
    }
}

impl<'a> Grant<'a> {
    /// The grant of this request by this scope; takes no memory.
    ///
    /// # Errors
    ///
    /// Exactly where the scope doesn't grant it: the code that answers it then, 4.03 where the scope has no such path, and else 4.05.
    #[tactic(auto, unfolding(osc_model::specs::Apply::apply, osc_model::specs::Checks::refusal))]
    pub fn of(scope: &'a Scope, request: &'a Request) -> Result<Grant<'a>, Code>
        ensures grant { IfOk result (λ grant. grant ≡ record { scope = scope.now; request = request.now }) }
        ensures exact { IsOk result ↔ (verdict_of scope.now request.now.path request.now.code ≡ Grants) }
        ensures refused { IfErr result (λ code. (root : Option (List ℕ)) (tree : AnyTree)
            → outcome root tree scope.now request.now ≡ record { tree = tree; reply = bare code }) }
    {
        let Some(path) = &request.path else {
            return Err(Code::FORBIDDEN);
        };
        match scope.verdict(Some(path), request.code) {
            Verdict::NoPath => Err(Code::FORBIDDEN),
            Verdict::NoMethod => Err(Code::METHOD_NOT_ALLOWED),
            Verdict::Granted => Ok(Grant {
                scope,
                path,
                request,
            }),
        }
    }

    /// The request.
    pub fn request(&self) -> &'a Request
        ensures { result.now ≡ self.now.request }
    {
        self.request
    }

    /// The path that the request names.
    pub fn path(&self) -> &'a Path
        ensures path { self.now.request.path ≡ Some result.now }
        ensures allowed { allows self.now.scope result.now (method_of self.now.request.code) ≡ true }
    {
        self.path
    }
}
