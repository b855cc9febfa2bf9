//! A back-up of a store: a new file, which alone is a store of the same resources.
ghost use Rattle.std.specs.Prelude.{IfErr, OnOk};
ghost use Rattle.osc_programs.specs.Ended as ends;
ghost use Rattle.osc_programs.specs.Storing as spec;

use crate::ended::Ended;
use crate::store::{refused, refused_by_io, sync_folder};
use osc_store::{OpenStoreError, whole_file};
use osc_tree::Tree;
use std::alloc::{AllocError, Global};
use std::fs::{self, File, OpenOptions};
use std::io::{self, Eprint, ErrorKind, Write};
use std::os::unix::fs::OpenOptionsExt;

/// Writes the new file, which this user alone may read and write. It is there whole or not at all, and nothing that is there is written over. A line
/// on the standard error tells why none is written.
pub(crate) fn save_tree(rt: &HostRuntime, to: &str, tree: &Tree) -> Result<(), Ended>
    ensures saved { OnOk result (spec.IsSaved tree.now) }
    ensures ends { IfErr result ends.NotOpened }
{
    match whole_file(rt.alloc(), tree) {
        Ok(bytes) => save(rt, to, &bytes),
        Err(error) => Err(refused(rt, to, to, error)),
    }
}

// What stands beside the file: itself, before it is whole, and what would be taken for a log or a journal of it.
#[derive(Drop)]
struct Places {
    new: String,
    log: String,
    journal: String,
}

fn places_of(alloc: Global, to: &str) -> Result<Places, AllocError> {
    Ok(Places {
        new: format!(in alloc; "{to}-new")?,
        log: format!(in alloc; "{to}-wal")?,
        journal: format!(in alloc; "{to}-journal")?,
    })
}

fn save(rt: &HostRuntime, to: &str, bytes: &[u8]) -> Result<(), Ended>
    ensures ends { IfErr result ends.NotOpened }
{
    let Ok(places) = places_of(rt.alloc(), to) else {
        return Err(Ended::OutOfMemory);
    };
    are_free(rt, to, &places)?;
    match create(rt, to, places.new.as_str()) {
        Ok(file) => save_in(rt, to, &places, file, bytes),
        Err(ended) => Err(ended),
    }
}

// Writes them to this file, which then gets its name. A file that isn't whole is removed.
fn save_in(
    rt: &HostRuntime,
    to: &str,
    places: &Places,
    file: File,
    bytes: &[u8],
) -> Result<(), Ended>
    ensures ends { IfErr result ends.NotOpened }
{
    match save_beside(rt, to, places, file, bytes) {
        Ok(()) => Ok(()),
        Err(ended) => {
            let _ = fs::remove_file(rt, places.new.as_str());
            Err(ended)
        }
    }
}

fn save_beside(
    rt: &HostRuntime,
    to: &str,
    places: &Places,
    file: File,
    bytes: &[u8],
) -> Result<(), Ended>
    ensures ends { IfErr result ends.NotOpened }
{
    if let Err(error) = write(file, bytes) {
        return Err(refused_by_io(rt, to, &error));
    }
    are_free(rt, to, places)?;
    match put_in_place(rt, to, places.new.as_str()) {
        Ok(()) => Ok(()),
        Err(error) => Err(refused_by_io(rt, to, &error)),
    }
}

fn create(rt: &HostRuntime, to: &str, new: &str) -> Result<File, Ended>
    ensures ends { IfErr result ends.NotOpened }
{
    match OpenOptions::new()
        .write(true)
        .create_new(true)
        .mode(0o600)
        .open(rt, new)
    {
        Ok(file) => Ok(file),
        Err(error) if error.kind() == ErrorKind::AlreadyExists => Err(in_the_way(rt, to, new)),
        Err(error) => Err(refused_by_io(rt, to, &error)),
    }
}

fn write(file: File, bytes: &[u8]) -> io::Result<()> {
    let mut file = file;
    file.write_all(bytes)?;
    file.sync_all()
}

fn put_in_place(rt: &HostRuntime, to: &str, new: &str) -> io::Result<()> {
    fs::rename(rt, new, to)?;
    sync_folder(rt, to)
}

// Nothing is there yet, and nothing that would be taken for a log or a journal of it.
fn are_free(rt: &HostRuntime, to: &str, places: &Places) -> Result<(), Ended>
    ensures ends { IfErr result ends.NotOpened }
{
    is_free(rt, to, to)?;
    is_free(rt, to, places.log.as_str())?;
    is_free(rt, to, places.journal.as_str())
}

fn is_free(rt: &HostRuntime, to: &str, place: &str) -> Result<(), Ended>
    ensures ends { IfErr result ends.NotOpened }
{
    match fs::symlink_metadata(rt, place) {
        Ok(_) => Err(in_the_way(rt, to, place)),
        Err(error) if error.kind() == ErrorKind::NotFound => Ok(()),
        Err(error) => Err(refused_by_io(rt, to, &error)),
    }
}

fn in_the_way(rt: &HostRuntime, to: &str, place: &str) -> Ended
    ensures ends { ends.NotOpened result }
{
    if let Ok(line) = format!(in rt.alloc(); "store {to}: {place} is there already") {
        let _told = rt.eprintln(line.as_str());
    }
    Ended::Unopened(OpenStoreError::Failed)
}
