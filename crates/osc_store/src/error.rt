//! Why a store isn't opened, or a change isn't kept.
ghost use Rattle.std.specs.Prelude.{◌≡◌, ◌≢◌};
ghost use Rattle.osc_store.specs.Causes.{told, of_open, of_probe, of_call, by_fault};

use sqlite_store::OpenError as FileError;
use sqlite_trees::error::StoreError;
use sqlite_wal::Error as LogError;
use thiserror::Error;

/// Why a change isn't kept. After each of these the store has to be opened again: the files hold what they held, or the change.
#[derive(Clone, Copy, Debug, PartialEq, Eq, Error)]
pub enum KeepError {
    /// There was no memory.
    #[error("out of memory")]
    OutOfMemory,
    /// The disk has no room, or the file has met a limit of its format.
    #[error("the disk or the file is full")]
    Full,
    /// The disk failed.
    #[error("the disk failed")]
    Failed,
    /// What was read isn't what was written.
    #[error("the file is damaged")]
    Damaged,
    /// An earlier call failed, or the store has another table.
    #[error("the store has to be opened again")]
    Closed,
    /// Path and payload have more than a billion bytes.
    #[error("the resource is too long")]
    TooLong,
}

/// Why a store isn't opened.
#[derive(Clone, Copy, Debug, PartialEq, Eq, Error)]
pub enum OpenStoreError {
    /// There was no memory.
    #[error("out of memory")]
    OutOfMemory,
    /// The disk has no room, or the file has met a limit of its format.
    #[error("the disk or the file is full")]
    Full,
    /// The disk failed, or the system doesn't open the file.
    #[error("the file can't be opened")]
    Failed,
    /// Another process has the file open.
    #[error("another process has the file open")]
    Busy,
    /// sqlite3 left a rollback journal beside the file, which it alone can play back.
    #[error("the file has a rollback journal")]
    Journal,
    /// The file is no store: it is no database, or one of other tables.
    #[error("the file is no store")]
    NoStore,
    /// The file is a store of another version.
    #[error("the file is a store of another version")]
    OtherVersion,
    /// A page isn't what was written there, or a row of the table is no resource.
    #[error("the file is damaged")]
    Damaged,
    /// The file has no byte, or isn't there, and a log stands beside it.
    #[error("the file is empty or missing, beside a log")]
    EmptyFile,
    /// The file says that a log belongs to it, and there is none.
    #[error("its log is missing")]
    NoLog,
    /// The log is that of another file, or of another time of this one.
    #[error("its log is that of another file")]
    ForeignLog,
    /// The log is damaged before its end.
    #[error("its log is damaged")]
    DamagedLog,
}

// The error of a store's call, as one of ours.
pub(crate) fn told(error: StoreError) -> KeepError
    ensures { result ≡ told error }
{
    match error {
        StoreError::OutOfMemory => KeepError::OutOfMemory,
        StoreError::Io => KeepError::Failed,
        StoreError::Corrupt => KeepError::Damaged,
        StoreError::Full => KeepError::Full,
        StoreError::Broken => KeepError::Closed,
        StoreError::Unstorable => KeepError::TooLong,
    }
}

// The error of opening the two files, as one of ours.
pub(crate) fn of_open(error: FileError) -> OpenStoreError
    ensures value { result ≡ of_open error }
    ensures kind { result ≢ OpenStoreError.NoStore }
{
    match error {
        FileError::OutOfMemory => OpenStoreError::OutOfMemory,
        FileError::Io => OpenStoreError::Failed,
        FileError::Full => OpenStoreError::Full,
        FileError::Refused => OpenStoreError::Damaged,
    }
}

// The error of a look at the files, as one of ours.
pub(crate) fn of_probe(error: LogError) -> OpenStoreError
    ensures { result ≡ of_probe error }
{
    match error {
        LogError::OutOfMemory => OpenStoreError::OutOfMemory,
        LogError::Io(_) => OpenStoreError::Failed,
        LogError::Full => OpenStoreError::Full,
        _ => OpenStoreError::Damaged,
    }
}

// The error of a store that was just opened. Which failure of the disk it was, the files tell.
pub(crate) fn of_call(error: StoreError) -> OpenStoreError
    ensures { result ≡ of_call error }
{
    match error {
        StoreError::OutOfMemory => OpenStoreError::OutOfMemory,
        _ => OpenStoreError::Failed,
    }
}

// The same error, or the name of a failure of the disk.
pub(crate) fn by_fault(kind: StoreError, error: OpenStoreError) -> OpenStoreError
    ensures { result ≡ by_fault kind error }
{
    match (kind, error) {
        (StoreError::Corrupt, OpenStoreError::Failed) => OpenStoreError::Damaged,
        (StoreError::Full, OpenStoreError::Failed) => OpenStoreError::Full,
        (_, error) => error,
    }
}
