//! Tokens whose IV is drawn, or whose file or output breaks off. What `osc token` prints else is in examples/cases/tokens.
use crate::broken::{BrokenReader, BrokenWriter};
use osc_programs::{Ended, drawn_iv, ended_by, filled, issue_token, token};
use osc_words::{TokenAsked, TokenWords, Words, read_words};
use std::alloc::Global;
use std::test::Fail;

// The words of a token under no IV that is asked for.
const WITHOUT_IV: [&str; 12] = [
    "osc",
    "token",
    "--key",
    "404142434445464748494a4b4c4d4e4f",
    "--aud",
    "s",
    "--id",
    "01",
    "--secret",
    "01",
    "--scope",
    "/log:GET",
];

// The same, whose key and secret are in files.
const IN_FILES: [&str; 12] = [
    "osc",
    "token",
    "--key-file",
    "key",
    "--aud",
    "s",
    "--id",
    "01",
    "--secret-file",
    "secret",
    "--scope",
    "/log:GET",
];

const KEY: &[u8] = b"404142434445464748494a4b4c4d4e4f";

const SECRET: &[u8] = b"00000000000000000000000000000001";

// What these words ask for.
fn asked(alloc: Global, words: &[&str]) -> Option<TokenAsked> {
    match read_words(alloc, words) {
        Ok(Words::Token(asked)) => Some(asked),
        _ => None,
    }
}

// The token that they ask for, where no file is opened.
fn given_words(alloc: Global, words: &[&str]) -> Option<TokenWords> {
    let no_key_file: Option<&[u8]> = None;
    let no_secret_file: Option<&[u8]> = None;
    filled(alloc, asked(alloc, words)?, 0, no_key_file, no_secret_file).ok()
}

// ---- what is drawn

#[test]
fn drawn_ivs_differ(rt: HostRuntime) -> Result<(), Fail> {
    assert!(rt; drawn_iv(&rt)? != drawn_iv(&rt)?);
    Ok(())
}

// What `osc token` writes for the words, under an IV of its own.
fn drawn_token(rt: &HostRuntime, words: &TokenWords) -> Result<Vec<u8>, Fail> {
    let mut written = Vec::new(rt.alloc());
    match issue_token(rt.alloc(), rt, words, &mut written) {
        Ended::Done => Ok(written),
        _ => Err("no token".into()),
    }
}

// Whether two tokens of the words differ.
fn two_tokens_differ(rt: &HostRuntime, words: &TokenWords) -> Result<bool, Fail> {
    let one = drawn_token(rt, words)?;
    Ok(one.as_slice() != drawn_token(rt, words)?.as_slice())
}

#[test]
fn two_tokens_without_an_iv_differ(rt: HostRuntime) -> Result<(), Fail> {
    let differ = match given_words(rt.alloc(), &WITHOUT_IV) {
        Some(words) => two_tokens_differ(&rt, &words)?,
        None => false,
    };
    assert!(rt; differ);
    Ok(())
}

// ---- files and outputs that break off

// How a token ends whose secret's file breaks off.
fn broken(alloc: Global) -> Option<Ended> {
    let secret_file = BrokenReader { bytes: SECRET };
    match filled(
        alloc,
        asked(alloc, &IN_FILES)?,
        0,
        Some(KEY),
        Some(secret_file),
    ) {
        Ok(_) => None,
        Err(error) => Some(ended_by(&error)),
    }
}

#[test]
fn a_file_that_breaks_off_fails(rt: HostRuntime) {
    assert_eq!(rt; broken(rt.alloc()), Some(Ended::Failed));
}

// How a token ends that is not written.
fn unwritten(alloc: Global) -> Option<Ended> {
    let words = given_words(alloc, &WITHOUT_IV)?;
    let mut writer = BrokenWriter { writes: 0 };
    Some(token(alloc, &words, &[0; 13], &mut writer))
}

#[test]
fn a_token_that_is_not_written_fails(rt: HostRuntime) {
    assert_eq!(rt; unwritten(rt.alloc()), Some(Ended::Failed));
}
