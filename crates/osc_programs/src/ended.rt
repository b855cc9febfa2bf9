//! How a program ends.
ghost use Rattle.std.specs.IoError.{error_kind};
ghost use Rattle.std.specs.Prelude.{◌≡◌, ◌⊎◌, Some, IfOk, option_map, string_bytes};
ghost use Rattle.osc_programs.specs.Ended as spec;

use clap::error::ErrorKind as WordsKind;
use osc_store::{KeepError, OpenStoreError};
use osc_words::{TokenWords, WordsError};
use std::alloc::{AllocError, Global};
use std::io::{self, ErrorKind};

/// How a program ended.
#[derive(Clone, Copy, Debug, PartialEq, Eq)]
pub enum Ended {
    Done,
    BadCommandLine,
    /// The script's line of this number, counted from 1, is bad.
    BadLine(u64),
    /// The script has more bytes than one may have.
    TooLong,
    /// The settings are none.
    BadSettings,
    OutOfMemory,
    /// The input or the output failed.
    Failed,
    /// The socket failed, or its address can't be had.
    PortFailed,
    /// The last result of `osc client` is no answer of class 2.
    NotDone,
    /// The store isn't opened.
    Unopened(OpenStoreError),
    /// What a step changed isn't kept in the store, so nothing of the step was sent.
    NotKept(KeepError),
}

/// The exit status: 0, 1 for a client without an answer of class 2, 2 for a bad command line, bad settings, a bad line or a script
/// that is too long, 3 for lack of memory, and 4 for a socket, an input, an output or a store that failed.
pub fn status(ended: Ended) -> u8
    ensures { result ≡ spec.status_of ended }
{
    match ended {
        Ended::Done => 0,
        Ended::NotDone => 1,
        Ended::BadCommandLine | Ended::BadLine(_) | Ended::TooLong | Ended::BadSettings => 2,
        Ended::OutOfMemory => 3,
        Ended::Failed | Ended::PortFailed | Ended::Unopened(_) | Ended::NotKept(_) => 4,
    }
}

/// How the program ends on a command line with this error.
pub fn ended_by(error: &WordsError) -> Ended
    ensures { result ≡ spec.ended_by error.now }
{
    match error {
        WordsError::Clap(error) => ended_by_kind(error.kind()),
        WordsError::Value(_) | WordsError::NotOne(_) => Ended::BadCommandLine,
        WordsError::Unread(_) => Ended::Failed,
        WordsError::Memory => Ended::OutOfMemory,
    }
}

fn ended_by_kind(kind: WordsKind) -> Ended
    ensures { result ≡ spec.ended_by_kind kind }
{
    match kind {
        WordsKind::DisplayHelp | WordsKind::DisplayVersion => Ended::Done,
        WordsKind::OutOfMemory => Ended::OutOfMemory,
        _ => Ended::BadCommandLine,
    }
}

/// How a program ends whose input or output failed so: lack of memory is told apart.
pub fn ended_by_io(error: &io::Error) -> Ended
    ensures value { result ≡ spec.ended_by_io (error_kind error.now) }
    ensures either { (result ≡ Ended.OutOfMemory) ⊎ (result ≡ Ended.Failed) }
    ensures fault { spec.IsFault result }
{
    match error.kind() {
        ErrorKind::OutOfMemory => Ended::OutOfMemory,
        _ => Ended::Failed,
    }
}

/// How a program ends that could not read its command line, or not tell of its fault: a word that isn't UTF-8 is a bad one.
pub fn started_by_io(error: &io::Error) -> Ended
    ensures { result ≡ spec.started_by_io (error_kind error.now) }
{
    match error.kind() {
        ErrorKind::InvalidData => Ended::BadCommandLine,
        _ => ended_by_io(error),
    }
}

/// The line that tells on the standard error how a program ended that runs nodes on sockets, if one does.
pub fn running_fault(alloc: Global, ended: Ended) -> Result<Option<String>, AllocError>
    ensures { IfOk result (λ line. option_map string_bytes line ≡ spec.running_fault_of ended) }
{
    match ended {
        Ended::BadLine(number) => bad_line(alloc, number),
        Ended::TooLong => said(alloc, "the script has more than 16777216 bytes"),
        Ended::BadSettings => said(alloc, "settings: bad"),
        Ended::OutOfMemory => said(alloc, "out of memory"),
        Ended::PortFailed => said(alloc, "port failed"),
        Ended::Done | Ended::NotDone | Ended::BadCommandLine | Ended::Failed => Ok(None),
        // The line of a store has its file's name, and is told where that is known.
        Ended::Unopened(_) | Ended::NotKept(_) => Ok(None),
    }
}

fn bad_line(alloc: Global, number: u64) -> Result<Option<String>, AllocError>
    ensures { IfOk result (λ line. option_map string_bytes line ≡ spec.running_fault_of (Ended.BadLine number)) }
{
    Ok(Some(format!(in alloc; "line {number}: bad")?))
}

pub(crate) fn said(alloc: Global, text: &str) -> Result<Option<String>, AllocError>
    ensures { IfOk result (λ line. option_map string_bytes line ≡ Some text.now) }
{
    Ok(Some(text.to_string(alloc)?))
}

/// The line that tells on the standard error why no token was printed, if one does.
pub fn token_fault(ended: Ended) -> Option<&'static str>
    ensures { option_map (λ line. line.now) result ≡ spec.token_fault_of ended }
{
    match ended {
        Ended::BadCommandLine => Some("error: the claims have more than 65535 bytes"),
        Ended::OutOfMemory => Some("out of memory"),
        _ => None,
    }
}

/// The line that warns on the standard error of a token that is printed at this second, counted from 1970, if one does: nobody can take back one
/// that never expires, and nobody can use one that is over.
pub fn token_warning(words: &TokenWords, now: u64) -> Option<&'static str>
    ensures { option_map (λ line. line.now) result ≡ spec.token_warning_of words.now.claims now }
{
    match words.claims.expires {
        Some(expires) => expiry_warning(words, now, expires),
        None => Some(
            "warning: without --exp the token never expires, and keeps one of the server's 64 places",
        ),
    }
}

fn expiry_warning(words: &TokenWords, now: u64, expires: u64) -> Option<&'static str>
    ensures { option_map (λ line. line.now) result ≡ spec.expiry_warning words.now.claims now expires }
{
    if expires <= now {
        Some("warning: the token is over already")
    } else if expires <= words.claims.not_before.unwrap_or(0) {
        Some("warning: the token is over before it begins")
    } else {
        None
    }
}
