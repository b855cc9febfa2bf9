//! Keys that are drawn, and a payload whose file breaks off.
use crate::broken::BrokenReader;
use osc_programs::{Ended, ended_by, issue_key, with_payload};
use osc_words::{Words, read_words};
use std::alloc::Global;

// How `osc key` ends, and what it writes.
fn key(rt: &HostRuntime) -> (Ended, Vec<u8>) {
    let mut written = Vec::new(rt.alloc());
    let ended = issue_key(rt.alloc(), rt, &mut written);
    (ended, written)
}

#[test]
fn two_keys_differ(rt: HostRuntime) {
    let (ended, first) = key(&rt);
    assert_eq!(rt; ended, Ended::Done);
    assert_eq!(rt; first.len(), 33);
    let (ended, second) = key(&rt);
    assert_eq!(rt; ended, Ended::Done);
    assert_eq!(rt; second.len(), 33);
    assert!(rt; first.as_slice() != second.as_slice());
}

// How the command ends whose payload's file breaks off.
fn broken(alloc: Global) -> Option<Ended> {
    let words = [
        "osc",
        "client",
        "--turns",
        "1",
        "--method",
        "PUT",
        "--path",
        "/e",
        "--payload-file",
        "f",
    ];
    match read_words(alloc, &words) {
        Ok(Words::Client(asked)) => {
            match with_payload(alloc, asked, Some(BrokenReader { bytes: b"61" })) {
                Ok(_) => None,
                Err(error) => Some(ended_by(&error)),
            }
        }
        _ => None,
    }
}

#[test]
fn a_payload_that_breaks_off_fails(rt: HostRuntime) {
    assert_eq!(rt; broken(rt.alloc()), Some(Ended::Failed));
}
