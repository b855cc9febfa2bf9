//! What a request does.
ghost use Rattle.std.specs.Prelude.{◌≡◌, ◌≤◌, ◌<◌, false, length, Some, if◌then◌else◌, IsTrue, IsSome, IfOk, IfSome, OnOk, OnErr, option_copied, option_map};
ghost use Rattle.std.specs.FinMap as map;
ghost use Rattle.osc_model.specs.{code, etag_of, method_of, most_resources, longest_payload, bare, takes_memory, written as new_resource, apply as outcome, read as reading};
ghost use Rattle.osc_model.specs.Tree.{Tree as AnyTree};

use crate::checks::accepted;
use crate::grant::Grant;
use crate::tagged::Tagged;
use crate::tree::Tree;
use osc_model::{Bytes, Code, Method, Path, Reply, Request, Resource};
use osc_scope::Scope;
use std::alloc::{AllocError, Global};

impl Tree {
    /// Does what the request asks under this scope, at a server that may have a revocation path, and answers it: the reply, and the tree after
    /// it, are those of the definition `apply`, with 4.03, 4.05, 4.12, 4.04, 4.06, 4.13 and 5.03 for the checks that fail, the first of them
    /// alone. Without memory for the reply or the resource an `AllocError`, and the tree stays as it was; a refusal and
    /// a DELETE take no memory. The path is looked up once, and once more to write or to remove, or to keep the ETag of the
    /// first GET after a write, in logarithmic time; it is copied only where it is new.
    pub fn apply(
        &mut self,
        alloc: Global,
        root: Option<&Path>,
        scope: &Scope,
        request: &Request,
    ) -> Result<Reply, AllocError>
        ensures reply { IfOk result (λ reply. reply ≡ (outcome (option_map (λ path. path.now) root.entry) self.old scope.now request.now).reply) }
        ensures tree { OnOk result (self.new ≡ (outcome (option_map (λ path. path.now) root.entry) self.old scope.now request.now).tree) }
        ensures err { OnErr result (self.new ≡ self.old) }
        ensures needs_memory { OnErr result (IsTrue (takes_memory (outcome (option_map (λ path. path.now) root.entry) self.old scope.now request.now).reply)) }
    {
        match Grant::of(scope, request) {
            Ok(grant) => self.apply_granted(alloc, root, &grant),
            Err(code) => Ok(Reply::bare(alloc, code)),
        }
    }

    /// The same of a request that its scope grants, which isn't asked again.
    #[tactic(auto, unfolding(osc_model::specs::Apply::apply))]
    pub fn apply_granted(
        &mut self,
        alloc: Global,
        root: Option<&Path>,
        grant: &Grant<'_>,
    ) -> Result<Reply, AllocError>
        ensures reply { IfOk result (λ reply. reply ≡ (outcome (option_map (λ path. path.now) root.entry) self.old grant.now.scope grant.now.request).reply) }
        ensures tree { OnOk result (self.new ≡ (outcome (option_map (λ path. path.now) root.entry) self.old grant.now.scope grant.now.request).tree) }
        ensures err { OnErr result (self.new ≡ self.old) }
        ensures needs_memory { OnErr result (IsTrue (takes_memory (outcome (option_map (λ path. path.now) root.entry) self.old grant.now.scope grant.now.request).reply)) }
    {
        let path = grant.path();
        let request = grant.request();
        match accepted(self, root, grant, path) {
            Err(code) => Ok(Reply::bare(alloc, code)),
            Ok(found) => match Method::from_code(request.code) {
                Some(Method::Get) => {
                    let is_kept = is_kept(found);
                    let reply = read(alloc, found)?;
                    if !is_kept {
                        self.keep_tag(path, reply.etag);
                    }
                    Ok(reply)
                }
                Some(Method::Delete) => {
                    self.remove(path);
                    Ok(Reply::bare(alloc, Code::DELETED))
                }
                method => {
                    let is_there = found.is_some();
                    match written(alloc, method, found, request)? {
                        None => Ok(Reply::bare(alloc, Code::METHOD_NOT_ALLOWED)),
                        Some(resource) => self.write(alloc, path, is_there, resource),
                    }
                }
            },
        }
    }

    // Sets what the path has, and answers whether it had something, which the caller knows.
    fn write(
        &mut self,
        alloc: Global,
        path: &Path,
        is_there: bool,
        resource: Resource,
    ) -> Result<Reply, AllocError>
        requires short { length resource.payload ≤ longest_payload }
        requires room { map.contains_key self.old path.now ≡ false → map.len self.old < most_resources }
        requires known { is_there ≡ map.contains_key self.old path.now }
        ensures reply { IfOk result (λ reply. reply ≡ bare (if map.contains_key self.old path.now then code 2 4 else code 2 1)) }
        ensures tree { OnOk result (self.new ≡ map.insert self.old path.now resource) }
        ensures err { OnErr result (self.new ≡ self.old) }
    {
        if is_there {
            self.replace(path, resource);
            Ok(Reply::bare(alloc, Code::CHANGED))
        } else {
            self.put(alloc, path.clone()?, resource)?;
            Ok(Reply::bare(alloc, Code::CREATED))
        }
    }
}

// Whether nothing is there, or what is there has its ETag kept.
fn is_kept(found: Option<&Tagged>) -> bool {
    match found {
        None => true,
        Some(found) => found.is_kept(),
    }
}

// Answers what the path has.
fn read(alloc: Global, found: Option<&Tagged>) -> Result<Reply, AllocError>
    ensures etag { IfOk result (λ reply. IfSome (option_copied found.entry) (λ resource. reply.etag ≡ Some (etag_of resource))) }
    ensures reply { (tree : AnyTree) → IfOk result (λ reply. reply ≡ (reading tree (option_copied found.entry)).reply) }
    ensures needs_memory { OnErr result (IsSome (option_copied found.entry)) }
{
    match found {
        None => Ok(Reply::bare(alloc, Code::NOT_FOUND)),
        Some(found) => Ok(Reply {
            code: Code::CONTENT,
            etag: Some(found.tag()),
            format: found.resource().format,
            payload: found.resource().payload.clone()?,
        }),
    }
}

// What a PUT or a POST makes of what is there, and none for the other methods.
fn written(
    alloc: Global,
    method: Option<Method>,
    found: Option<&Tagged>,
    request: &Request,
) -> Result<Option<Resource>, AllocError>
    ensures value { IfOk result (λ new. new ≡ new_resource method (option_copied found.entry) request.now) }
    ensures needs_memory { OnErr result (IsSome (new_resource method (option_copied found.entry) request.now)) }
{
    match (method, found) {
        (Some(Method::Post), Some(found)) => {
            let old = found.resource();
            Ok(Some(Resource {
                format: old.format,
                payload: Bytes::joined(alloc, old.payload.as_slice(), request.payload.as_slice())?,
            }))
        }
        (Some(Method::Put | Method::Post), _) => Ok(Some(Resource {
            format: request.format,
            payload: request.payload.clone()?,
        })),
        _ => Ok(None),
    }
}
