//! Whether a database file and its log belong together. It is looked at before the two are recovered, which would take a log that is missing
//! for none; nothing is written.
ghost use Rattle.std.specs.Prelude.{◌≡◌, ◌≤◌, ◌↔◌, ◌+◌, ◌⊎◌, ℕ, ⊤, IfOk, IfErr, OnOk, IsTrue};
ghost use Rattle.sqlite_disk.specs.Disk.{CountsFault, MoreFaults};
ghost use Rattle.sqlite_wal.specs.Format.{be32};
ghost use Rattle.sqlite_wal.specs.Reads.{AreClean, IsClean, OnlyReads};
ghost use Rattle.osc_store.specs.Belonging.{BelongTogether, GivesVersion, IsLogged, IsMark, RefusesPair, SaysOther, version_in};
ghost use Rattle.osc_store.specs.Opening.{Fails, IsTooLong, faults_of, image_of};

use crate::error::OpenStoreError;
use crate::logged::{logged_version, number_at};
use sqlite_disk::{Disk, Files};
use std::alloc::Global;
use std::io;

/// How many bytes the header of a log has.
pub(crate) const LOG_HEADER: usize = 32;

/// How many bytes a log has at least that has a frame: its header, and what stands before the frame's page.
pub const FRAMED_LOG: usize = 56;

/// Where the user version is in the header of a database file, which has four bytes.
pub(crate) const VERSION_AT: usize = 60;

/// What every mark begins with, and what it has of its own below that.
const TAG: u32 = 0x05c;

const OWN: u32 = 1 << 20;

/// Refuses a database file without a byte beside a log, one that says that a log belongs to it, beside none, and one beside the log of another.
pub(crate) fn check_pair<D: Disk>(alloc: Global, files: &mut Files<D>) -> Result<(), OpenStoreError>
    requires log { IsTrue (D.Disk.is_usable files.old.log) }
    requires db { IsTrue (D.Disk.is_usable files.old.db) }
    ensures ok { OnOk result (AreClean D.Disk files.new.log files.new.db → BelongTogether (image_of D.Disk files.old)) }
    ensures cause { IfErr result (λ e. AreClean D.Disk files.new.log files.new.db
        → Fails (MoreFaults (faults_of D.Disk files.old) (faults_of D.Disk files.new)) (IsTooLong (image_of D.Disk files.new)) ⊤ ⊥ e ⊎ RefusesPair (image_of D.Disk files.old) ⊥ e) }
    ensures counts { faults_of D.Disk files.old ≤ faults_of D.Disk files.new }
    ensures log { OnlyReads D.Disk files.old.log files.new.log }
    ensures db { OnlyReads D.Disk files.old.db files.new.db }
{
    let Ok(log) = files.log.len() else {
        return Err(OpenStoreError::Failed);
    };
    let Ok(db) = files.db.len() else {
        return Err(OpenStoreError::Failed);
    };
    if db <= 1 && log >= FRAMED_LOG {
        return Err(OpenStoreError::EmptyFile);
    }
    let Ok(version) = version_of(&mut files.db) else {
        return Err(OpenStoreError::Failed);
    };
    if log < LOG_HEADER {
        return if is_mark(version) {
            Err(OpenStoreError::NoLog)
        } else {
            Ok(())
        };
    }
    check_log(alloc, files, version)
}

// Refuses a log that isn't that of a file with this user version.
fn check_log<D: Disk>(
    alloc: Global,
    files: &mut Files<D>,
    version: u32,
) -> Result<(), OpenStoreError>
    requires log { IsTrue (D.Disk.is_usable files.old.log) }
    requires db { IsTrue (D.Disk.is_usable files.old.db) }
    ensures ok { OnOk result (AreClean D.Disk files.new.log files.new.db
        → (logged : ℕ) → GivesVersion (D.Disk.seen files.old.log) logged → IsLogged logged → ¬ SaysOther version logged) }
    ensures cause { IfErr result (λ e. AreClean D.Disk files.new.log files.new.db
        → Fails (MoreFaults (faults_of D.Disk files.old) (faults_of D.Disk files.new)) (IsTooLong (image_of D.Disk files.new)) ⊤ ⊥ e
        ⊎ ((e ≡ OpenStoreError.ForeignLog) × (logged : ℕ) × GivesVersion (D.Disk.seen files.old.log) logged × IsLogged logged × SaysOther version logged)) }
    ensures counts { faults_of D.Disk files.old ≤ faults_of D.Disk files.new }
    ensures log { OnlyReads D.Disk files.old.log files.new.log }
    ensures db { OnlyReads D.Disk files.old.db files.new.db }
{
    match logged_version(alloc, files) {
        Ok(None) => Ok(()),
        Ok(Some(logged)) => {
            if is_of_another(version, logged) {
                Err(OpenStoreError::ForeignLog)
            } else {
                Ok(())
            }
        }
        Err(error) => Err(error),
    }
}

/// A mark with these bits of its own, of which twenty count.
pub(crate) fn mark_of(own: u32) -> u32
    ensures { IsMark result }
{
    TAG * OWN + own % OWN
}

/// The user version of the commits in the log that belongs to a file with the mark of the same bits: no mark, so that a file whose log another
/// program carried in is a store alone.
pub(crate) fn logged_of(own: u32) -> u32
    ensures logged { IsLogged result }
    ensures mark { ¬ IsMark result }
{
    (TAG + 1) * OWN + own % OWN
}

fn is_mark(version: u32) -> bool
    ensures { IsTrue result ↔ IsMark version }
{
    version / OWN == TAG
}

// Whether a log with this user version is that of a marked file, and not of a file with the other.
fn is_of_another(file: u32, logged: u32) -> bool
    ensures { IsTrue result ↔ (IsLogged logged × SaysOther file logged) }
{
    let is_logged = logged / OWN == TAG + 1;
    is_logged && (file == 0 || (is_mark(file) && logged != file + OWN))
}

// The user version of a database file.
fn version_of<D: Disk>(db: &mut D) -> io::Result<u32>
    requires { IsTrue (D.Disk.is_usable db.old) }
    ensures version { IfOk result (λ n. IsClean D.Disk db.new → n ≡ version_in (D.Disk.seen db.old)) }
    ensures faults { CountsFault result (D.Disk.faults db.old) (D.Disk.faults db.new) }
    ensures same { OnlyReads D.Disk db.old db.new }
{
    match number_at(db, VERSION_AT)? {
        Some(version) => Ok(version),
        None => Ok(0),
    }
}
