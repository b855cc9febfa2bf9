//! What one client's requests are answered alone.
ghost use Rattle.std.specs.Prelude.{◌≡◌, ◌++◌, ◌∷◌, List, IfOk, OnOk, map, option_map, ◌==◌, ◌&&◌, bytes_eq};
ghost use Rattle.osc_model.specs.{apply_read, grant_of, alone as answers_alone, entries_under, held_by, machine_answers};
ghost use Rattle.osc_model.specs.Grant.{Grant};
ghost use Rattle.osc_model.specs.declared.step.Entry.{Entry as Served};
ghost use Rattle.osc_run.specs.{grants_of};
ghost use Rattle.osc_options.specs.{read_request};

use osc_model::{Bytes, ContextName, Entry, Path, Reply};
use osc_options::request_in;
use osc_run::Minted;
use osc_scope::Scope;
use osc_tree::Tree;
use std::alloc::{AllocError, Global};

/// What the entries in contexts of the client's grants are answered where they alone follow these resources, at a server that may have a
/// revocation path, each with its number, in their order. Without memory there is no list.
pub(crate) fn alone(
    alloc: Global,
    minted: &[Minted],
    client: usize,
    root: Option<&Path>,
    first: &Tree,
    entries: &[&Entry],
) -> Result<Vec<(u64, Reply)>, AllocError>
    ensures { IfOk result (λ answers. answers.items
        ≡ answers_alone read_request (option_map (λ path. path.now) root.entry) (grants_of minted.now) client first.now (map (λ entry. entry.now) entries.now)) }
{
    let mut tree = first.copy(alloc)?;
    let mut answers = Vec::new(alloc);
    for entry in entries {
        let grant = grant_of(minted, client, &entry.context);
        answer(alloc, grant, root, &mut tree, entry, &mut answers)?;
    }
    Ok(answers)
}

/// Answers an entry, where its context belongs to a grant of these, and adds the answer.
fn answer(
    alloc: Global,
    grant: Option<&Minted>,
    root: Option<&Path>,
    tree: &mut Tree,
    entry: &Entry,
    answers: &mut Vec<(u64, Reply)>,
) -> Result<(), AllocError>
    ensures { OnOk result ((grants : List Grant) (more : List Served)
        → option_map (λ m. m.now.grant) grant.entry ≡ grant_of grants entry.now.context
        → answers.new.items
        ++ machine_answers read_request (option_map (λ path. path.now) root.entry) grants tree.new (entries_under grants more)
        ≡ answers.old.items
        ++ machine_answers read_request (option_map (λ path. path.now) root.entry) grants tree.old (entries_under grants (entry.now ∷ more))) }
{
    if let Some(minted) = grant {
        let reply = reply_to(alloc, root, tree, &minted.grant.scope, &entry.plaintext)?;
        answers.push((entry.number, reply))?;
    }
    Ok(())
}

/// The client's grant that a context of this name belongs to; takes no memory.
fn grant_of<'a>(minted: &'a [Minted], client: usize, name: &ContextName) -> Option<&'a Minted>
    ensures { option_map (λ m. m.now.grant) result ≡ grant_of (held_by client (grants_of minted.now)) name.now }
{
    for m in minted {
        if is_held(m, client, &name.secret) {
            return Some(m);
        }
    }
    None
}

/// Whether the client holds the grant, and it has this secret.
fn is_held(m: &Minted, client: usize, secret: &Bytes) -> bool
    ensures { result ≡ (m.now.grant.holder == client && bytes_eq m.now.grant.secret secret.now) }
{
    m.grant.holder == client && m.grant.material.secret == *secret
}

/// What the machine makes of a plaintext, and its reply.
fn reply_to(
    alloc: Global,
    root: Option<&Path>,
    tree: &mut Tree,
    scope: &Scope,
    plaintext: &Bytes,
) -> Result<Reply, AllocError>
    ensures reply { IfOk result (λ reply. reply ≡ (apply_read (option_map (λ path. path.now) root.entry) tree.old scope.now (read_request plaintext.now)).reply) }
    ensures tree { OnOk result (tree.new ≡ (apply_read (option_map (λ path. path.now) root.entry) tree.old scope.now (read_request plaintext.now)).tree) }
{
    match request_in(alloc, plaintext.as_slice())? {
        Ok(request) => tree.apply(alloc, root, scope, &request),
        Err(code) => Ok(Reply::bare(alloc, code)),
    }
}
