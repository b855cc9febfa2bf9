//! What is kept of a step.
ghost use Rattle.std.specs.Prelude.{◌≡◌, ◌≤◌, false, IfErr, IsOk, None, OnErr, OnOk, is_some, option_copied};
ghost use Rattle.sqlite_disk.specs.Disk.{MoreFaults};
ghost use Rattle.osc_model.specs.Tree.{Tree as AnyTree};
ghost use Rattle.osc_store.specs.Causes.{WhyNotKept};
ghost use Rattle.osc_turn.specs.Kept.Changes.{HasTooLong, IsChangeOf, path_asked, path_changed_by, tells_change as tells_change_of};

use osc_model::{Code, Entry, Path, Request};
use osc_store::{KeepError, Keeping};
use osc_tree::Tree;

/// Writes what the request that a step served changed, if it served one: what its path has now in the tree, or that it has nothing. A commit keeps
/// it. One change at most is written. The path is that of the entry, and no memory is taken for it.
pub fn write_change<K: Keeping>(
    keeping: &mut K,
    tree: &Tree,
    served: Option<&Entry>,
) -> Result<(), KeepError>
    ensures written { (kept before : AnyTree) → IsChangeOf (option_copied served.entry) before tree.now → K.writes keeping.old kept before
        → OnOk result (K.writes keeping.new kept tree.now) }
    ensures crash { (kept before : AnyTree) → IsChangeOf (option_copied served.entry) before tree.now → K.writes keeping.old kept before
        → K.may_hold keeping.new kept kept }
    ensures cause { (kept before : AnyTree) → IsChangeOf (option_copied served.entry) before tree.now → K.writes keeping.old kept before → K.trusted keeping.new
        → IfErr result (WhyNotKept (MoreFaults (K.faults keeping.old) (K.faults keeping.new)) (HasTooLong tree.now)) }
    ensures nothing { path_changed_by (option_copied served.entry) ≡ None → IsOk result × (keeping.new ≡ keeping.old) }
    ensures fails { OnErr result K.may_fail }
    ensures named { IfErr result (K.names keeping.new) }
    ensures counts { K.faults keeping.old ≤ K.faults keeping.new }
    ensures trust { K.trusted keeping.new → K.trusted keeping.old }
{
    match changed_path(served) {
        Some(path) => keeping.write(path, tree.get(path)),
        None => Ok(()),
    }
}

/// Writes the same, and commits it: one change at most is kept.
pub fn keep_change<K: Keeping>(
    keeping: &mut K,
    tree: &Tree,
    served: Option<&Entry>,
) -> Result<(), KeepError>
    ensures kept { (before : AnyTree) → IsChangeOf (option_copied served.entry) before tree.now → K.keeps keeping.old before
        → OnOk result (K.keeps keeping.new tree.now) }
    ensures crash { (before : AnyTree) → IsChangeOf (option_copied served.entry) before tree.now → K.keeps keeping.old before
        → K.may_hold keeping.new before tree.now }
    ensures cause { (before : AnyTree) → IsChangeOf (option_copied served.entry) before tree.now → K.keeps keeping.old before → K.trusted keeping.new
        → IfErr result (WhyNotKept (MoreFaults (K.faults keeping.old) (K.faults keeping.new)) (HasTooLong tree.now)) }
    ensures nothing { path_changed_by (option_copied served.entry) ≡ None → IsOk result × (keeping.new ≡ keeping.old) }
    ensures fails { OnErr result K.may_fail }
    ensures named { IfErr result (K.names keeping.new) }
    ensures counts { K.faults keeping.old ≤ K.faults keeping.new }
    ensures trust { K.trusted keeping.new → K.trusted keeping.old }
{
    if changed_path(served).is_none() {
        return Ok(());
    }
    write_change(keeping, tree, served)?;
    keeping.commit()
}

/// Keeps all that is written, at once.
pub(crate) fn commit_changes<K: Keeping>(keeping: &mut K) -> Result<(), KeepError>
    ensures kept { (kept written : AnyTree) → K.writes keeping.old kept written → OnOk result (K.keeps keeping.new written) }
    ensures crash { (kept written : AnyTree) → K.writes keeping.old kept written → K.may_hold keeping.new kept written }
    ensures cause { (kept written : AnyTree) → K.writes keeping.old kept written → K.trusted keeping.new
        → IfErr result (WhyNotKept (MoreFaults (K.faults keeping.old) (K.faults keeping.new)) ⊥) }
    ensures nothing { K.pending keeping.old ≡ false → IsOk result × (keeping.new ≡ keeping.old) }
    ensures done { OnOk result (K.pending keeping.new ≡ false) }
    ensures fails { OnErr result K.may_fail }
    ensures named { IfErr result (K.names keeping.new) }
    ensures counts { K.faults keeping.old ≤ K.faults keeping.new }
    ensures trust { K.trusted keeping.new → K.trusted keeping.old }
{
    keeping.commit()
}

/// Whether the reply of a served request tells of a change.
pub fn is_change(served: Option<&Entry>) -> bool
    ensures { result ≡ is_some (path_changed_by (option_copied served.entry)) }
{
    changed_path(served).is_some()
}

// The path that the request that a step served changed, if it served one.
fn changed_path(served: Option<&Entry>) -> Option<&Path>
    ensures { option_copied result ≡ path_changed_by (option_copied served.entry) }
{
    match served {
        Some(entry) if tells_change(entry.reply.code) => asked_path(&entry.request),
        _ => None,
    }
}

// The path that was asked for, if one was.
fn asked_path(read: &Result<Request, Code>) -> Option<&Path>
    ensures { option_copied result ≡ path_asked read.now }
{
    match read {
        Ok(request) => request.path.as_ref(),
        Err(_) => None,
    }
}

// Whether a reply tells of a change.
fn tells_change(code: Code) -> bool
    ensures { result ≡ tells_change_of code }
{
    code == Code::CREATED || code == Code::DELETED || code == Code::CHANGED
}
