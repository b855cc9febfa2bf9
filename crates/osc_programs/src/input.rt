//! Inputs have an end.
ghost use Rattle.std.specs.Prelude.{◌≡◌, ◌≤◌, ◌+◌, ◌++◌, ◌⊎◌, List, ℕ, IfErr, IfOk, IfSome, OnOk, false, length, option_map};
ghost use Rattle.std.specs.Io.KnownBytes.{Consumes, IsAtEnd};
ghost use Rattle.osc_programs.specs.Ended as ends;
ghost use Rattle.osc_programs.specs.Input as spec;

use crate::ended::{Ended, ended_by_io};
use std::alloc::Global;
use std::cmp::min;
use std::io::{ErrorKind, Read};

/// The most bytes of a text of settings.
pub const LONGEST_SETTINGS: usize = 1_048_576;

/// The most bytes of a script.
pub const LONGEST_SCRIPT: usize = 16_777_216;

/// The most bytes of a file that a key or a secret is in: its digits, and the end of a line, are fewer.
pub const LONGEST_KEY: usize = 256;

/// The most bytes of a file that a payload is in: a datagram holds fewer.
pub const LONGEST_PAYLOAD_FILE: usize = 1_048_576;

/// The most bytes of one read.
const PIECE: usize = 4096;

/// All that the reader gives, where that is no more than `most` bytes, and none where it is more. At most one byte more than that is read.
pub fn bytes_within<I: Read>(
    alloc: Global,
    reader: &mut I,
    most: usize,
) -> Result<Option<Vec<u8>>, Ended>
    ensures bytes { IfOk result (λ found. IfSome (I.remaining reader.old) (λ known. option_map (λ bytes. bytes.items) found ≡ spec.within most known)) }
    ensures end { spec.TakesAtMost (most + 1) (I.remaining reader.old) (I.remaining reader.new) }
    ensures either { IfErr result (λ ended. (ended ≡ Ended.OutOfMemory) ⊎ (ended ≡ Ended.Failed)) }
    ensures fault { IfErr result ends.IsFault }
{
    let mut bytes = Vec::new(alloc);
    for _ in 0..u64::MAX {
        if !read_once(reader, &mut bytes, most)? {
            return Ok(Some(bytes));
        }
        if bytes.len() > most {
            return Ok(None);
        }
    }
    Err(Ended::Failed)
}

/// The script that the reader gives. Of one that is too long, at most a byte more than a script may have is read.
pub fn script_bytes<I: Read>(alloc: Global, reader: &mut I) -> Result<Vec<u8>, Ended>
    ensures bytes { IfOk result (λ bytes. IfSome (I.remaining reader.old) (λ known. bytes.items ≡ known)) }
    ensures short { IfOk result (λ _. spec.IsWithin spec.longest_script (I.remaining reader.old)) }
    ensures long { IfErr result (λ ended. ended ≡ Ended.TooLong → spec.IsBeyond spec.longest_script (I.remaining reader.old)) }
    ensures end { spec.TakesAtMost (spec.longest_script + 1) (I.remaining reader.old) (I.remaining reader.new) }
    ensures ends { IfErr result ends.NoScript }
{
    match bytes_within(alloc, reader, LONGEST_SCRIPT) {
        Ok(Some(script)) => Ok(script),
        Ok(None) => Err(Ended::TooLong),
        Err(ended) => Err(ended),
    }
}

// Reads once, no further than one byte after `most`, and tells whether more may come.
fn read_once<I: Read>(reader: &mut I, bytes: &mut Vec<u8>, most: usize) -> Result<bool, Ended>
    requires { length bytes.old.items ≤ most }
    ensures took { (more : List ℕ) × (length bytes.old.items + length more ≤ most + 1) × Consumes (I.remaining reader.old) (I.remaining reader.new) more
        × OnOk result (bytes.new.items ≡ bytes.old.items ++ more) }
    ensures last { IfOk result (λ goes_on. goes_on ≡ false → IsAtEnd (I.remaining reader.new) × (bytes.new.items ≡ bytes.old.items)) }
    ensures either { IfErr result (λ ended. (ended ≡ Ended.OutOfMemory) ⊎ (ended ≡ Ended.Failed)) }
{
    let mut piece = [0; PIECE];
    let room = min(PIECE - 1, most - bytes.len()) + 1;
    match reader.read(&mut piece[..room]) {
        Ok(0) => Ok(false),
        Ok(count) => match bytes.extend_from_slice(&piece[..count]) {
            Ok(()) => Ok(true),
            Err(_) => Err(Ended::OutOfMemory),
        },
        Err(error) if error.kind() == ErrorKind::Interrupted => Ok(true),
        Err(error) => Err(ended_by_io(&error)),
    }
}
