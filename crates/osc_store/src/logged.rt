//! The user version that a log gives a database. Nothing is written.
ghost use Rattle.std.specs.Prelude.{◌≡◌, ◌≢◌, ◌≤◌, ◌<◌, ◌+◌, ◌^◌, ◌⊎◌, ℕ, ⊤, IfOk, IfErr, IfSome, IsTrue, None, length, slice_index};
ghost use Rattle.sqlite_disk.specs.Disk.{CountsFault, MoreFaults};
ghost use Rattle.sqlite_wal.specs.Files.{IsHuge};
ghost use Rattle.sqlite_wal.specs.Format.{be32};
ghost use Rattle.sqlite_wal.specs.PageSize.{bytes_of};
ghost use Rattle.sqlite_wal.specs.Reads.{AreClean, IsClean, OnlyReads};
ghost use Rattle.sqlite_wal.specs.Recovery.{AreFramesOf, Replays, frame_at};
ghost use Rattle.osc_store.specs.Belonging.{GivesVersion};
ghost use Rattle.osc_store.specs.Opening.{Fails, IsTooLong, faults_of, image_of};

use crate::belonging::{LOG_HEADER, VERSION_AT};
use crate::error::{OpenStoreError, of_probe};
use sqlite_disk::{Disk, Files};
use sqlite_wal::{Error as LogError, PageSize, probe_frames, probe_page_size};
use std::alloc::Global;
use std::io;

/// How many bytes of a frame stand before its page.
pub(crate) const FRAME_HEADER: usize = 24;

/// The user version that the log gives the database, where recovery takes the database's first page from it.
pub(crate) fn logged_version<D: Disk>(
    alloc: Global,
    files: &mut Files<D>,
) -> Result<Option<u32>, OpenStoreError>
    requires log { IsTrue (D.Disk.is_usable files.old.log) }
    requires db { IsTrue (D.Disk.is_usable files.old.db) }
    ensures some { IfOk result (λ found. AreClean D.Disk files.new.log files.new.db → IfSome found (GivesVersion (D.Disk.seen files.old.log))) }
    ensures none { IfOk result (λ found. AreClean D.Disk files.new.log files.new.db → found ≡ None → (version : ℕ) → ¬ GivesVersion (D.Disk.seen files.old.log) version) }
    ensures cause { IfErr result (λ e. AreClean D.Disk files.new.log files.new.db
        → Fails (MoreFaults (faults_of D.Disk files.old) (faults_of D.Disk files.new)) (IsTooLong (image_of D.Disk files.new)) ⊤ ⊥ e) }
    ensures counts { faults_of D.Disk files.old ≤ faults_of D.Disk files.new }
    ensures log { OnlyReads D.Disk files.old.log files.new.log }
    ensures db { OnlyReads D.Disk files.old.db files.new.db }
{
    let Ok(found) = probe_page_size(files) else {
        return Err(OpenStoreError::Failed);
    };
    let Some(size) = found else {
        return Ok(None);
    };
    let pages = match pages_of_frames(alloc, files, size) {
        Ok(pages) => pages,
        Err(error) => return Err(error),
    };
    let Some(at) = last_first(&pages) else {
        return Ok(None);
    };
    match version_at(&mut files.log, size, at) {
        Ok(version) => Ok(Some(version)),
        Err(_) => Err(OpenStoreError::Failed),
    }
}

// The page of each frame that recovery takes: none where it takes no log in pages of this size.
fn pages_of_frames<D: Disk>(
    alloc: Global,
    files: &mut Files<D>,
    size: PageSize,
) -> Result<Vec<u32>, OpenStoreError>
    requires log { IsTrue (D.Disk.is_usable files.old.log) }
    ensures frames { IfOk result (λ pages. AreClean D.Disk files.new.log files.new.db
        → AreFramesOf (bytes_of size) (D.Disk.seen files.old.log) pages.items
        ⊎ ((length pages.items ≡ 0) × ((k : ℕ) → ¬ Replays (bytes_of size) (D.Disk.seen files.old.log) k))) }
    ensures cause { IfErr result (λ e. AreClean D.Disk files.new.log files.new.db
        → Fails (MoreFaults (faults_of D.Disk files.old) (faults_of D.Disk files.new)) (IsHuge (bytes_of size) (image_of D.Disk files.old)) ⊤ ⊥ e) }
    ensures counts { faults_of D.Disk files.old ≤ faults_of D.Disk files.new }
    ensures log { OnlyReads D.Disk files.old.log files.new.log }
    ensures db { files.new.db ≡ files.old.db }
{
    match probe_frames(alloc, &mut files.log, size) {
        Ok(pages) => Ok(pages),
        Err(LogError::Corrupt) => Ok(Vec::new(alloc)),
        Err(error) => Err(of_probe(error)),
    }
}

// The last of the frames of these pages that is the first page's.
fn last_first(pages: &[u32]) -> Option<usize>
    ensures some { IfSome result (λ at. (at < length pages.now) × (slice_index pages.now at ≡ 1)
        × ((i : ℕ) → at < i → i < length pages.now → slice_index pages.now i ≢ 1)) }
    ensures none { result ≡ None → (i : ℕ) → i < length pages.now → slice_index pages.now i ≢ 1 }
{
    let mut at = pages.len();
    while at > 0 {
        at -= 1;
        if pages[at] == 1 {
            return Some(at);
        }
    }
    None
}

// The user version in the page of this frame, where the log has the whole frame.
fn version_at<D: Disk>(log: &mut D, size: PageSize, at: usize) -> io::Result<u32>
    requires { IsTrue (D.Disk.is_usable log.old) }
    ensures version { IfOk result (λ n. IsClean D.Disk log.new → frame_at (bytes_of size) at + (24 + bytes_of size) ≤ length (D.Disk.seen log.old)
        → n ≡ be32 (D.Disk.seen log.old) (frame_at (bytes_of size) at + 84)) }
    ensures faults { CountsFault result (D.Disk.faults log.old) (D.Disk.faults log.new) }
    ensures same { OnlyReads D.Disk log.old log.new }
{
    // (no file is so long that this wraps)
    let frame = at.wrapping_mul(FRAME_HEADER + size.bytes());
    let place = frame.wrapping_add(LOG_HEADER + FRAME_HEADER + VERSION_AT);
    match number_at(log, place)? {
        Some(version) => Ok(version),
        None => Ok(0),
    }
}

/// The number of four bytes from this place on, or none where the file ends before.
pub(crate) fn number_at<D: Disk>(file: &mut D, place: usize) -> io::Result<Option<u32>>
    requires { IsTrue (D.Disk.is_usable file.old) }
    ensures some { IfOk result (λ found. IsClean D.Disk file.new → IfSome found (λ n. (place + 4 ≤ length (D.Disk.seen file.old)) × (n ≡ be32 (D.Disk.seen file.old) place))) }
    ensures fits { IfOk result (λ _. IsClean D.Disk file.new → length (D.Disk.seen file.old) < 2 ^ 64) }
    ensures none { IfOk result (λ found. IsClean D.Disk file.new → found ≡ None → length (D.Disk.seen file.old) < place + 4) }
    ensures faults { CountsFault result (D.Disk.faults file.old) (D.Disk.faults file.new) }
    ensures same { OnlyReads D.Disk file.old file.new }
{
    let len = file.len()?;
    if len < 4 || place > len - 4 {
        return Ok(None);
    }
    let mut field = [0; 4];
    file.read_at(place, &mut field)?;
    Ok(Some(number(&field)))
}

fn number(field: &[u8; 4]) -> u32
    ensures { result ≡ be32 field.now 0 }
{
    field[0] as u32 * 0x100_0000
        + field[1] as u32 * 0x1_0000
        + field[2] as u32 * 0x100
        + field[3] as u32
}
