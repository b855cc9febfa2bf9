//! A list of changes of a tree, and the tree that some of them leave.

use osc_model::{Bytes, Path, Resource};
use osc_store::{KeepError, Keeping};
use osc_tree::Tree;
use std::alloc::Global;
use std::test::Fail;

/// What a path has after a change: a format, how many bytes, and each of them; or nothing.
pub type Had = Option<(Option<u16>, usize, u8)>;

/// Puts, an append, and deletes, over several paths.
pub const CHANGES: [(&str, Had); 8] = [
    ("/log", Some((Some(60), 3, 1))),
    ("/lock/state", Some((None, 1, 2))),
    ("/log", Some((Some(60), 303, 3))),
    ("/a", Some((Some(0), 512, 7))),
    ("/lock/state", None),
    ("/log", None),
    ("/b/c/d", Some((None, 0, 0))),
    ("/a", Some((Some(65535), 511, 8))),
];

pub const PATHS: [&str; 4] = ["/log", "/lock/state", "/a", "/b/c/d"];

pub fn path_of(alloc: Global, text: &str) -> Result<Path, Fail> {
    match Path::from_text(alloc, text.as_bytes())? {
        Some(path) => Ok(path),
        None => Err(Fail::from("no path")),
    }
}

pub fn resource_of(alloc: Global, had: Had) -> Result<Option<Resource>, Fail> {
    let Some((format, length, byte)) = had else {
        return Ok(None);
    };
    let payload = Bytes::from_vec(vec![in alloc; byte; length]?);
    Ok(Some(Resource { format, payload }))
}

/// Keeps one change by itself.
pub fn keep<K: Keeping>(
    keeper: &mut K,
    path: &Path,
    resource: Option<&Resource>,
) -> Result<(), KeepError> {
    keeper.write(path, resource)?;
    keeper.commit()
}

/// Keeps all changes, each by itself.
pub fn keep_each<K: Keeping>(alloc: Global, keeper: &mut K) -> Result<(), Fail> {
    for change in &CHANGES {
        let path = path_of(alloc, change.0)?;
        let resource = resource_of(alloc, change.1)?;
        keep(keeper, &path, resource.as_ref())?;
    }
    Ok(())
}

/// The same until one isn't kept. How many were.
pub fn keep_until<K: Keeping>(alloc: Global, keeper: &mut K) -> Result<usize, Fail> {
    for (at, change) in CHANGES.iter().enumerate() {
        let path = path_of(alloc, change.0)?;
        let resource = resource_of(alloc, change.1)?;
        if keep(keeper, &path, resource.as_ref()).is_err() {
            return Ok(at);
        }
    }
    Ok(CHANGES.len())
}

// What the path has after the first of the changes.
fn had(text: &str, kept: usize) -> Had {
    let mut had = None;
    for (at, change) in CHANGES.iter().enumerate() {
        if at < kept && change.0 == text {
            had = change.1;
        }
    }
    had
}

/// Whether the tree is what the first of the changes leave.
pub fn is_after(alloc: Global, tree: &Tree, kept: usize) -> Result<bool, Fail> {
    let mut count = 0usize;
    for text in &PATHS {
        let want = resource_of(alloc, had(text, kept))?;
        if want.is_some() {
            count = count.saturating_add(1);
        }
        let path = path_of(alloc, text)?;
        if tree.get(&path) != want.as_ref() {
            return Ok(false);
        }
    }
    Ok(tree.len() == count)
}
