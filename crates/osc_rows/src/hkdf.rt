//! HMAC-SHA-256 (RFC 2104), and HKDF with it (RFC 5869).

use crate::line::Line;
use crate::words::Word;
use osc_hkdf::{OutputTooLong, Prk, expand, extract, hmac};
use std::alloc::Global;

/// `hmac KEY TEXT`
pub fn code(words: &[Word<'_>], line: &mut Line) -> Option<()> {
    let [key, text] = words else {
        return None;
    };
    line.bytes(&hmac(key.bytes()?, text.bytes()?));
    Some(())
}

/// `extract SALT IKM`: the pseudorandom key.
pub fn extracted(words: &[Word<'_>], line: &mut Line) -> Option<()> {
    let [salt, ikm] = words else {
        return None;
    };
    line.bytes(&extract(salt.bytes()?, ikm.bytes()?));
    Some(())
}

/// `expand PRK INFO OUT`: as much output as OUT has bytes, or the number of the refusal; and whether all of OUT is as before.
pub fn expanded(alloc: Global, words: &[Word<'_>], line: &mut Line) -> Option<()> {
    let [prk, info, before] = words else {
        return None;
    };
    let (prk, info, before) = (prk.bytes()?, info.bytes()?, before.bytes()?);
    let mut out = Vec::from_slice(alloc, before).ok()?;
    let done = expand(prk, info, &mut out);
    write_output(done, before, &out, line);
    Some(())
}

fn write_output(done: Result<(), OutputTooLong>, before: &[u8], out: &[u8], line: &mut Line) {
    match done {
        Ok(()) => line.short_bytes(out),
        Err(error) => line.number(error.number().into()),
    }
    line.test(out == before);
}

/// `expand_twice SALT IKM INFO OUT`: the pseudorandom key, and its output as by `expand`, two times.
pub fn expanded_twice(alloc: Global, words: &[Word<'_>], line: &mut Line) -> Option<()> {
    let [salt, ikm, info, before] = words else {
        return None;
    };
    let (info, before) = (info.bytes()?, before.bytes()?);
    let prk = Prk::extract(salt.bytes()?, ikm.bytes()?);
    line.bytes(prk.as_bytes());
    write_expanded(alloc, &prk, info, before, line)?;
    write_expanded(alloc, &prk, info, before, line)
}

fn write_expanded(
    alloc: Global,
    prk: &Prk,
    info: &[u8],
    before: &[u8],
    line: &mut Line,
) -> Option<()> {
    let mut out = Vec::from_slice(alloc, before).ok()?;
    let done = prk.expand(info, &mut out);
    write_output(done, before, &out, line);
    Some(())
}
