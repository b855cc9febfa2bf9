//! A key that is drawn at random.
ghost use Rattle.std.specs.Prelude.{◌≡◌, ℕ, List, IfOk, string_bytes};
ghost use Rattle.std.specs.Io.KnownBytes.{Appends};
ghost use Rattle.osc_turn.specs.{IsDrawn};
ghost use Rattle.osc_programs.specs.Ended as ends;
ghost use Rattle.osc_programs.specs.KeyLine.{key_text};

use crate::ended::{Ended, ended_by_io};
use crate::issue::written;
use osc_turn::{Seeds, generator_of};
use rand::Rng;
use std::alloc::{AllocError, Global};
use std::io::{self, Write};

/// Writes 16 bytes in hexadecimal, and a line feed: the first bytes of a generator whose seed comes from the source.
pub fn issue_key<S: Seeds, W: Write>(alloc: Global, source: &S, writer: &mut W) -> Ended
    ensures done { result ≡ Ended.Done → (key : List ℕ) × IsDrawn (S.gave source.now) 16 key
        × Appends (W.contents writer.old) (W.contents writer.new) (key_text key) }
    ensures ends { ends.EndsToken result }
{
    match drawn_key(source) {
        Ok(key) => print_key(alloc, &key, writer),
        Err(error) => ended_by_io(&error),
    }
}

fn drawn_key<S: Seeds>(source: &S) -> io::Result<[u8; 16]>
    ensures { IfOk result (λ key. IsDrawn (S.gave source.now) 16 key) }
{
    let mut generator = generator_of(source)?;
    let mut key = [0; 16];
    generator.fill_bytes(&mut key);
    Ok(key)
}

fn print_key<W: Write>(alloc: Global, key: &[u8; 16], writer: &mut W) -> Ended
    ensures done { result ≡ Ended.Done → Appends (W.contents writer.old) (W.contents writer.new) (key_text key.now) }
    ensures ends { ends.EndsToken result }
{
    match key_line(alloc, key) {
        Ok(line) => written(writer, line.as_bytes()),
        Err(_) => Ended::OutOfMemory,
    }
}

fn key_line(alloc: Global, key: &[u8; 16]) -> Result<String, AllocError>
    ensures { IfOk result (λ line. string_bytes line ≡ key_text key.now) }
{
    let mut line = hex::encode(alloc, key.as_slice())?;
    line.push('\n')?;
    Ok(line)
}
