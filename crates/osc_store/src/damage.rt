//! Damage in a log, which recovery would take for its end. It is looked for before the two files are recovered; nothing is written.
ghost use Rattle.std.specs.Prelude.{◌≡◌, ◌≢◌, ◌≤◌, ◌<◌, ◌+◌, ◌^◌, ◌↔◌, ◌⊎◌, ℕ, ⊤, IfOk, IfErr, IfSome, IsTrue, None, OnOk, length};
ghost use Rattle.sqlite_disk.specs.Disk.{CountsFault, MoreFaults};
ghost use Rattle.sqlite_wal.specs.Files.{IsHuge};
ghost use Rattle.sqlite_wal.specs.Format.{IsSigned, be32, stored_sum};
ghost use Rattle.sqlite_wal.specs.PageSize.{bytes_of};
ghost use Rattle.sqlite_wal.specs.Reads.{AreClean, IsClean, OnlyReads};
ghost use Rattle.sqlite_wal.specs.Recovery.{IsIgnored, Replays, frame_at};
ghost use Rattle.osc_store.specs.Belonging.{EndTwoCommits, EndsCommit, IsDamagedLog, Refuses};
ghost use Rattle.osc_store.specs.Opening.{Fails, IsTooLong, faults_of, image_of};

use crate::belonging::{FRAMED_LOG, LOG_HEADER};
use crate::error::{OpenStoreError, of_probe};
use crate::logged::{FRAME_HEADER, number_at};
use sqlite_disk::{Disk, Files};
use sqlite_wal::{Error as LogError, PageSize, checksum_of, probe_frames, probe_page_size};
use std::alloc::Global;
use std::io;

/// Where the two salts are in the header of a log. Each has four bytes, as the other numbers.
const SALT_AT: usize = 16;

const OTHER_SALT_AT: usize = 20;

/// Where a frame has them.
const FRAME_SALT_AT: usize = 8;

const FRAME_OTHER_SALT_AT: usize = 12;

/// Where a frame that ends a commit says how many pages the database has then, which is 0 in any other.
const FRAME_COMMIT_AT: usize = 4;

/// Refuses a log in which two commits end past the first frame that recovery doesn't take.
pub(crate) fn check_damage<D: Disk>(
    alloc: Global,
    files: &mut Files<D>,
) -> Result<(), OpenStoreError>
    requires log { IsTrue (D.Disk.is_usable files.old.log) }
    requires db { IsTrue (D.Disk.is_usable files.old.db) }
    ensures ok { OnOk result (AreClean D.Disk files.new.log files.new.db → ¬ IsDamagedLog (D.Disk.seen files.old.log)) }
    ensures cause { IfErr result (λ e. AreClean D.Disk files.new.log files.new.db
        → Fails (MoreFaults (faults_of D.Disk files.old) (faults_of D.Disk files.new)) (IsTooLong (image_of D.Disk files.new)) ⊤ ⊥ e
        ⊎ Refuses (image_of D.Disk files.old) ⊥ e) }
    ensures counts { faults_of D.Disk files.old ≤ faults_of D.Disk files.new }
    ensures log { OnlyReads D.Disk files.old.log files.new.log }
    ensures db { OnlyReads D.Disk files.old.db files.new.db }
{
    let Ok(is_log) = is_log(&mut files.log) else {
        return Err(OpenStoreError::Failed);
    };
    if !is_log {
        return Ok(());
    }
    let Ok(found) = probe_page_size(files) else {
        return Err(OpenStoreError::Failed);
    };
    let Some(size) = found else {
        return Ok(());
    };
    check_frames(alloc, files, size)
}

// The same of a log in pages of this size.
fn check_frames<D: Disk>(
    alloc: Global,
    files: &mut Files<D>,
    size: PageSize,
) -> Result<(), OpenStoreError>
    requires log { IsTrue (D.Disk.is_usable files.old.log) }
    ensures ok { OnOk result (AreClean D.Disk files.new.log files.new.db
        → (k : ℕ) → Replays (bytes_of size) (D.Disk.seen files.old.log) k → ¬ EndTwoCommits (bytes_of size) (D.Disk.seen files.old.log) k) }
    ensures cause { IfErr result (λ e. AreClean D.Disk files.new.log files.new.db
        → Fails (MoreFaults (faults_of D.Disk files.old) (faults_of D.Disk files.new)) (IsHuge (bytes_of size) (image_of D.Disk files.old)) ⊤ ⊥ e
        ⊎ ((e ≡ OpenStoreError.DamagedLog) × (k : ℕ) × Replays (bytes_of size) (D.Disk.seen files.old.log) k × EndTwoCommits (bytes_of size) (D.Disk.seen files.old.log) k)) }
    ensures counts { faults_of D.Disk files.old ≤ faults_of D.Disk files.new }
    ensures log { OnlyReads D.Disk files.old.log files.new.log }
    ensures db { files.new.db ≡ files.old.db }
{
    let taken = match frames_taken(alloc, files, size) {
        Ok(Some(taken)) => taken,
        Ok(None) => return Ok(()),
        Err(error) => return Err(error),
    };
    match end_two_commits(&mut files.log, size, taken) {
        Ok(false) => Ok(()),
        Ok(true) => Err(OpenStoreError::DamagedLog),
        Err(_) => Err(OpenStoreError::Failed),
    }
}

// How many frames recovery takes: none where it takes no log in pages of this size.
fn frames_taken<D: Disk>(
    alloc: Global,
    files: &mut Files<D>,
    size: PageSize,
) -> Result<Option<usize>, OpenStoreError>
    requires log { IsTrue (D.Disk.is_usable files.old.log) }
    ensures some { IfOk result (λ taken. AreClean D.Disk files.new.log files.new.db → IfSome taken (Replays (bytes_of size) (D.Disk.seen files.old.log))) }
    ensures none { IfOk result (λ taken. AreClean D.Disk files.new.log files.new.db → taken ≡ None → (k : ℕ) → ¬ Replays (bytes_of size) (D.Disk.seen files.old.log) k) }
    ensures cause { IfErr result (λ e. AreClean D.Disk files.new.log files.new.db
        → Fails (MoreFaults (faults_of D.Disk files.old) (faults_of D.Disk files.new)) (IsHuge (bytes_of size) (image_of D.Disk files.old)) ⊤ ⊥ e) }
    ensures counts { faults_of D.Disk files.old ≤ faults_of D.Disk files.new }
    ensures log { OnlyReads D.Disk files.old.log files.new.log }
    ensures db { files.new.db ≡ files.old.db }
{
    match probe_frames(alloc, &mut files.log, size) {
        Ok(pages) => Ok(Some(pages.len())),
        Err(LogError::Corrupt) => Ok(None),
        Err(error) => Err(of_probe(error)),
    }
}

// Whether the file counts as a log: it has room for a frame, and a header that ends in its sum.
fn is_log<D: Disk>(log: &mut D) -> io::Result<bool>
    requires { IsTrue (D.Disk.is_usable log.old) }
    ensures ok { IfOk result (λ b. IsClean D.Disk log.new → (IsTrue b ↔ ¬ IsIgnored (D.Disk.seen log.old))) }
    ensures faults { CountsFault result (D.Disk.faults log.old) (D.Disk.faults log.new) }
    ensures same { OnlyReads D.Disk log.old log.new }
{
    if log.len()? < FRAMED_LOG {
        return Ok(false);
    }
    let mut head = [0; 32];
    log.read_at(0, &mut head)?;
    Ok(is_signed(&head))
}

fn is_signed(head: &[u8; 32]) -> bool
    ensures { IsTrue result ↔ IsSigned head.now }
{
    if head[0] != 0x37 || head[1] != 0x7f || head[2] != 0x06 {
        return false;
    }
    if head[3] != 0x82 && head[3] != 0x83 {
        return false;
    }
    checksum_of(head[3] == 0x83, (0, 0), &head[..24]) == sum_at_end(head)
}

fn sum_at_end(head: &[u8; 32]) -> (u32, u32)
    ensures { result ≡ stored_sum head.now 24 }
{
    let first = head[24] as u32 * 0x100_0000
        + head[25] as u32 * 0x1_0000
        + head[26] as u32 * 0x100
        + head[27] as u32;
    let second = head[28] as u32 * 0x100_0000
        + head[29] as u32 * 0x1_0000
        + head[30] as u32 * 0x100
        + head[31] as u32;
    (first, second)
}

// Whether two commits end in the log past this frame.
fn end_two_commits<D: Disk>(log: &mut D, size: PageSize, past: usize) -> io::Result<bool>
    requires { IsTrue (D.Disk.is_usable log.old) }
    ensures ok { IfOk result (λ b. IsClean D.Disk log.new → (IsTrue b ↔ EndTwoCommits (bytes_of size) (D.Disk.seen log.old) past)) }
    ensures faults { CountsFault result (D.Disk.faults log.old) (D.Disk.faults log.new) }
    ensures same { OnlyReads D.Disk log.old log.new }
{
    let frames = whole_frames(log, size)?;
    let Some(first) = next_end(log, size, past, frames)? else {
        return Ok(false);
    };
    let second = next_end(log, size, first, frames)?;
    Ok(second.is_some())
}

// How many whole frames the log has room for.
fn whole_frames<D: Disk>(log: &mut D, size: PageSize) -> io::Result<usize>
    requires { IsTrue (D.Disk.is_usable log.old) }
    ensures ok { IfOk result (λ n. IsClean D.Disk log.new → (i : ℕ) → (i < n ↔ (frame_at (bytes_of size) i + (24 + bytes_of size) ≤ length (D.Disk.seen log.old)))) }
    ensures faults { CountsFault result (D.Disk.faults log.old) (D.Disk.faults log.new) }
    ensures same { OnlyReads D.Disk log.old log.new }
{
    let len = log.len()?;
    Ok(len.saturating_sub(LOG_HEADER) / (FRAME_HEADER + size.bytes()))
}

// The first frame past this one that ends a commit, of so many.
fn next_end<D: Disk>(
    log: &mut D,
    size: PageSize,
    past: usize,
    frames: usize,
) -> io::Result<Option<usize>>
    requires usable { IsTrue (D.Disk.is_usable log.old) }
    requires frames { IsClean D.Disk log.old → (i : ℕ) → (i < frames ↔ (frame_at (bytes_of size) i + (24 + bytes_of size) ≤ length (D.Disk.seen log.old))) }
    ensures some { IfOk result (λ found. IsClean D.Disk log.new → IfSome found (λ at. (past < at) × EndsCommit (bytes_of size) (D.Disk.seen log.old) at
        × ((i : ℕ) → past < i → i < at → ¬ EndsCommit (bytes_of size) (D.Disk.seen log.old) i))) }
    ensures none { IfOk result (λ found. IsClean D.Disk log.new → found ≡ None → (i : ℕ) → past < i → ¬ EndsCommit (bytes_of size) (D.Disk.seen log.old) i) }
    ensures faults { CountsFault result (D.Disk.faults log.old) (D.Disk.faults log.new) }
    ensures same { OnlyReads D.Disk log.old log.new }
{
    let mut at = past;
    while at < frames {
        at += 1;
        if at < frames && ends_commit(log, size, at)? {
            return Ok(Some(at));
        }
    }
    Ok(None)
}

// Whether this frame, which the log has whole, ends a commit.
fn ends_commit<D: Disk>(log: &mut D, size: PageSize, at: usize) -> io::Result<bool>
    requires { IsTrue (D.Disk.is_usable log.old) }
    ensures ok { IfOk result (λ b. IsClean D.Disk log.new → frame_at (bytes_of size) at + (24 + bytes_of size) ≤ length (D.Disk.seen log.old)
        → (IsTrue b ↔ EndsCommit (bytes_of size) (D.Disk.seen log.old) at)) }
    ensures faults { CountsFault result (D.Disk.faults log.old) (D.Disk.faults log.new) }
    ensures same { OnlyReads D.Disk log.old log.new }
{
    // (no file is so long that this wraps)
    let frame = at
        .wrapping_mul(FRAME_HEADER + size.bytes())
        .wrapping_add(LOG_HEADER);
    let commits = is_other_than_0(log, frame.wrapping_add(FRAME_COMMIT_AT))?;
    if !commits {
        return Ok(false);
    }
    let has_salt = are_equal(log, frame.wrapping_add(FRAME_SALT_AT), SALT_AT)?;
    if !has_salt {
        return Ok(false);
    }
    are_equal(log, frame.wrapping_add(FRAME_OTHER_SALT_AT), OTHER_SALT_AT)
}

// Whether the log has another number than 0 at this place.
fn is_other_than_0<D: Disk>(log: &mut D, place: usize) -> io::Result<bool>
    requires { IsTrue (D.Disk.is_usable log.old) }
    ensures ok { IfOk result (λ b. IsClean D.Disk log.new → place + 4 ≤ length (D.Disk.seen log.old) → (IsTrue b ↔ (be32 (D.Disk.seen log.old) place ≢ 0))) }
    ensures fits { OnOk result (IsClean D.Disk log.new → length (D.Disk.seen log.old) < 2 ^ 64) }
    ensures faults { CountsFault result (D.Disk.faults log.old) (D.Disk.faults log.new) }
    ensures same { OnlyReads D.Disk log.old log.new }
{
    let found = number_at(log, place)?;
    Ok(found != Some(0))
}

// Whether the log has the same number at both places.
fn are_equal<D: Disk>(log: &mut D, one: usize, other: usize) -> io::Result<bool>
    requires { IsTrue (D.Disk.is_usable log.old) }
    ensures ok { IfOk result (λ b. IsClean D.Disk log.new → one + 4 ≤ length (D.Disk.seen log.old) → other + 4 ≤ length (D.Disk.seen log.old)
        → (IsTrue b ↔ (be32 (D.Disk.seen log.old) one ≡ be32 (D.Disk.seen log.old) other))) }
    ensures faults { CountsFault result (D.Disk.faults log.old) (D.Disk.faults log.new) }
    ensures same { OnlyReads D.Disk log.old log.new }
{
    let first = number_at(log, one)?;
    let second = number_at(log, other)?;
    Ok(first == second)
}
