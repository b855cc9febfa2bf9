//! Inputs and outputs of scripts that fail.
use crate::broken::{BrokenReader, BrokenWriter, Endless};
use osc_programs::{Ended, TraceForm, draw, sim};
use osc_words::DiagramForm;
use std::io::{self, ErrorKind, Write};
use std::test::Fail;

const FIRST_RUN: &str = "put /e none -\nopen /e\ninject x s 40010002b165\n";

const FIRST_TRACE: &str =
    "sent 1 s>x ACK 2.05 60450002486e340b9cffb37a98\ntree /e none -\nhistory 0\npremise: held\n";

const REJECTED: &str =
    "# none of these is a request\n\nopen /e\ninject x s -\ninject x s 80010006\ninject x s 40000005\ninject x s 4025000c";

// A trace without numbers of lines.
fn plain(bytes: bool) -> TraceForm {
    TraceForm {
        bytes,
        lines: false,
    }
}

// Whether these bytes are a front of the trace of the first run, and the line that says why no more of it follows.
fn is_a_front(written: &[u8]) -> bool {
    match written.strip_suffix(b"out of memory\n") {
        Some(front) => FIRST_TRACE.as_bytes().starts_with(front),
        None => false,
    }
}

// Where an allocation fails, what is written is a front of the trace, and the line that says so.
#[test]
fn want_of_memory_is_told_last(rt: HostRuntime) -> Result<(), Fail> {
    let mut script = FIRST_RUN.as_bytes();
    let mut written = Vec::new(rt.alloc());
    let ended = sim(rt.alloc(), &mut script, &mut written, plain(true), None);
    let is_said = match ended {
        Ended::Done => written.as_slice() == FIRST_TRACE.as_bytes(),
        Ended::OutOfMemory => is_a_front(&written),
        _ => false,
    };
    assert!(rt; is_said);
    Ok(())
}

#[test]
fn a_broken_input_or_output_fails(rt: HostRuntime) -> Result<(), Fail> {
    let alloc = rt.alloc();
    let mut reader = BrokenReader {
        bytes: FIRST_RUN.as_bytes(),
    };
    let mut written = Vec::new(alloc);
    assert_eq!(rt;
        sim(alloc, &mut reader, &mut written, plain(true), None),
        Ended::Failed
    );
    assert_eq!(rt; written.len(), 0);
    // The event is written as it comes, and the end lines after it.
    for &(writes, ended) in &[(0, Ended::Failed), (1, Ended::Failed), (2, Ended::Done)] {
        let mut script = FIRST_RUN.as_bytes();
        let mut writer = BrokenWriter { writes };
        assert_eq!(rt;
            sim(alloc, &mut script, &mut writer, plain(true), None),
            ended
        );
    }
    Ok(())
}

// A script that has no end does nothing, and at most one byte more than a script may have is read of it.
#[test]
fn a_script_has_an_end(rt: HostRuntime) -> Result<(), Fail> {
    let alloc = rt.alloc();
    let mut endless = Endless { given: 0 };
    let mut written = Vec::new(alloc);
    assert_eq!(rt;
        sim(alloc, &mut endless, &mut written, plain(true), None),
        Ended::TooLong
    );
    assert_eq!(rt; written.len(), 0);
    assert_eq!(rt; endless.given, 16777217);
    let mut again = Endless { given: 0 };
    assert_eq!(rt;
        draw(alloc, &mut again, &mut written, DiagramForm::Text),
        Ended::TooLong
    );
    assert_eq!(rt; written.len(), 0);
    Ok(())
}

/// Keeps what it takes until it is flushed, and fails at some flush.
#[derive(Drop)]
struct FlushedWriter {
    flushed: Vec<u8>,
    taken: Vec<u8>,
    flushes: usize,
}

impl Write for FlushedWriter {
    fn write(&mut self, buf: &[u8]) -> io::Result<usize> {
        self.taken.extend_from_slice(buf)?;
        Ok(buf.len())
    }

    fn flush(&mut self) -> io::Result<()> {
        if self.flushes == 0 {
            return Err(io::Error::from(ErrorKind::BrokenPipe));
        }
        self.flushes -= 1;
        self.flushed.extend_from_slice(&self.taken)?;
        self.taken.clear();
        Ok(())
    }
}

// Each line's events are flushed before the next is done.
#[test]
fn lines_stand_as_they_are_done(rt: HostRuntime) -> Result<(), Fail> {
    let alloc = rt.alloc();
    for &(flushes, stands) in &[
        (0, ""),
        (1, "nothing\n"),
        (2, "nothing\nnothing\n"),
        (3, "nothing\nnothing\nsent 1 s>x RST 0.00\n"),
    ] {
        let mut script = REJECTED.as_bytes();
        let mut writer = FlushedWriter {
            flushed: Vec::new(alloc),
            taken: Vec::new(alloc),
            flushes,
        };
        let ended = sim(alloc, &mut script, &mut writer, plain(false), None);
        assert_eq!(rt; ended, Ended::Failed);
        assert!(rt; writer.flushed.as_slice() == stands.as_bytes(), "{stands}");
    }
    Ok(())
}
