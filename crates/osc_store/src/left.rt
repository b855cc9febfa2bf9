//! What is left of two files.
ghost use Rattle.std.specs.Prelude.{◌≡◌};
ghost use Rattle.osc_store.specs.Opening.{files_left, tally_left};

use sqlite_disk::{Disk, Files, Tally};
use sqlite_store::{FileStore, Unopened};

/// What is left of a database file and its log where a start fails.
pub enum Left<D: Disk> {
    /// The files, which were only read.
    Files(Files<D>),
    /// The files, as a first start was making a store in them, or as a store was looked for in them.
    Unopened(Unopened<D>),
    /// A store in them, whose rows aren't those of a tree or couldn't be read.
    Store(FileStore<D>),
}

impl<D: Disk> Left<D> {
    /// Gives the files back; nothing is read or written.
    pub fn into_files(self) -> Files<D>
        ensures { (result.log, result.db) ≡ files_left self }
    {
        match self {
            Left::Files(files) => files,
            Left::Unopened(files) => files.close(),
            Left::Store(store) => store.close(),
        }
    }

    // What the failed calls of both files met.
    pub(crate) fn tally(&self) -> Tally
        ensures { result ≡ tally_left self.now }
    {
        match self {
            Left::Files(files) => files.tally(),
            Left::Unopened(files) => files.tally(),
            Left::Store(store) => store.tally(),
        }
    }
}

impl<D: Disk + Drop> Drop for Left<D> {
    fn drop(self) {
        match self {
            Left::Files(_files) => {}
            Left::Unopened(_files) => {}
            Left::Store(_store) => {}
        }
    }
}
