//! Look-ups in entries, each a path and a set of methods.
ghost use Rattle.std.specs.Prelude.{◌≡◌, ◌≤◌, false, length, Some, IsTrue, map, take, bytes_eq, not, ◌&&◌, ◌==◌};
ghost use Rattle.std.specs.List.{All, list_all, list_any};
ghost use Rattle.osc_model.specs.{IsPath, segments_of, begins_with};
ghost use Rattle.osc_scope.specs.Entries as spec;
ghost use Rattle.osc_scope.specs.Entries.{IsLawful, scope_of};
ghost use Rattle.osc_scope.specs.Inner.Kept.{AreInOrder, IsPlaceOf};
ghost use Rattle.osc_scope.specs.Reading.{entry_with, grants};
ghost use Rattle.osc_scope.specs.Verdict.{verdict_of};

use crate::kept::Entries;
use crate::methods::{has, is_below};
use crate::verdict::Verdict;
use osc_model::{Code, Method, Path};

/// Whether one of the entries has the method on exactly this path.
pub(crate) fn has_exactly(entries: &Entries, path: &Path, method: Method) -> bool
    ensures { result ≡ list_any (λ entry. bytes_eq path.now entry.0 && (not (spec.is_below entry.1) && spec.has entry.1 method)) entries.now }
{
    for entry in entries.iter() {
        if path.text() == entry.0 && (!is_below(entry.1) && has(entry.1, method)) {
            return true;
        }
    }
    false
}

/// Whether one of the entries counts on the paths below its own, too.
pub(crate) fn goes_below(entries: &Entries) -> bool
    ensures { result ≡ list_any (λ entry. spec.is_below entry.1) entries.now }
{
    for entry in entries.iter() {
        if is_below(entry.1) {
            return true;
        }
    }
    false
}

/// Where an entry of this path is added: among entries in order where it keeps them so, and else at the end.
pub(crate) fn place_for(entries: &Entries, in_order: bool, path: &Path) -> usize
    requires { IsTrue in_order → AreInOrder entries.now }
    ensures within { result ≤ length entries.now }
    ensures in_order { IsTrue in_order → IsPlaceOf path.now entries.now result }
{
    if in_order {
        entries.place_of(path.text())
    } else {
        entries.len()
    }
}

/// What entries in order, each for its path alone, say of a request with this path and this code; finds those of the path by bisection.
pub(crate) fn verdict_in_order(entries: &Entries, path: &Path, code: Code) -> Verdict
    requires lawful { All IsLawful (map entry_with entries.now) }
    requires below { false ≡ list_any (λ entry. spec.is_below entry.1) entries.now }
    requires in_order { AreInOrder entries.now }
    ensures { result ≡ verdict_of (scope_of (map entry_with entries.now)) (Some path.now) code }
{
    osc_model::laws::any_permission();
    osc_model::laws::paths_are_ordered();
    let method = Method::from_code(code);
    let mut said = Verdict::NoPath;
    for entry in entries.iter_from(entries.place_of(path.text())) {
        if !has_path::<false>(entry, path) {
            return said;
        }
        if has_named(entry.1, method) {
            return Verdict::Granted;
        }
        said = Verdict::NoMethod;
    }
    said
}

/// What the entries say of a request with this path and this code; goes over them once.
pub(crate) fn verdict_on(entries: &Entries, goes_below: bool, path: &Path, code: Code) -> Verdict
    requires lawful { All IsLawful (map entry_with entries.now) }
    requires below { goes_below ≡ list_any (λ entry. spec.is_below entry.1) entries.now }
    ensures { result ≡ verdict_of (scope_of (map entry_with entries.now)) (Some path.now) code }
{
    if goes_below {
        verdict_by::<true>(entries, path, code)
    } else {
        verdict_by::<false>(entries, path, code)
    }
}

/// The same, made for entries of which one goes below its path, or none: then the loop only compares paths.
fn verdict_by<const GOES_BELOW: bool>(entries: &Entries, path: &Path, code: Code) -> Verdict
    requires lawful { All IsLawful (map entry_with entries.now) }
    requires below { GOES_BELOW ≡ list_any (λ entry. spec.is_below entry.1) entries.now }
    ensures { result ≡ verdict_of (scope_of (map entry_with entries.now)) (Some path.now) code }
{
    osc_model::laws::any_permission();
    let method = Method::from_code(code);
    let mut verdict = Verdict::NoPath;
    for entry in entries.iter() {
        if has_path::<GOES_BELOW>(entry, path) {
            if has_named(entry.1, method) {
                return Verdict::Granted;
            }
            verdict = Verdict::NoMethod;
        }
    }
    verdict
}

/// Whether the entry has the path.
fn has_path<const GOES_BELOW: bool>(entry: (&[u8], u64), path: &Path) -> bool
    requires is_path { IsPath entry.0.now }
    requires below { IsTrue (spec.is_below entry.1) → IsTrue GOES_BELOW }
    ensures { result ≡ spec.has_path (entry_with (entry.entry.0.now, entry.entry.1)) path.now }
{
    if GOES_BELOW && is_below(entry.1) {
        begins_with(path, entry.0)
    } else {
        path.text() == entry.0
    }
}

/// Whether the path begins with all segments of the one with this text: it is that path, or one below it.
fn begins_with(path: &Path, above: &[u8]) -> bool
    requires { IsPath above.now }
    ensures { result ≡ begins_with (segments_of path.now) (segments_of above.now) }
{
    osc_model::laws::paths_are_cut_at_slashes();
    match path.text().strip_prefix(above) {
        Some(rest) => ends_a_segment(rest),
        None => false,
    }
}

/// Whether a segment is whole where this follows: nothing, or a further segment.
fn ends_a_segment(rest: &[u8]) -> bool
    ensures { result ≡ list_all (λ b. b == 47) (take 1 rest.now) }
{
    matches!(rest, [] | [b'/', ..])
}

/// Whether the set has the method, where one is known.
fn has_named(mask: u64, method: Option<Method>) -> bool
    ensures { result ≡ grants mask method }
{
    match method {
        Some(method) => has(mask, method),
        None => false,
    }
}
