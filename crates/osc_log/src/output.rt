//! What a log writes to, and how many lines that didn't take.
ghost use Rattle.std.specs.Prelude.{◌≡◌, ◌≤◌, ◌<◌, ◌==◌, count_by, length, take};
ghost use Rattle.std.specs.Io.KnownBytes.{Appends};
ghost use Rattle.osc_log.specs.LineEnd.{line};
ghost use Rattle.osc_log.specs.Output as spec;
ghost use Rattle.osc_log.specs.Output.{written_by};

use crate::faults::dropped_line;
use crate::form::Form;
use crate::time::time_text;
use osc_model::Moment;
use std::io::{ErrorKind, Write};

/// A writer of lines. What it doesn't take is no failure: the lines whose end it didn't take are counted.
#[derive(Drop)]
pub(crate) struct Output<W: Write + Drop> {
    writer: W,
    // How many lines couldn't be written.
    dropped: u64,
    // Of how many of them it was told.
    admitted: u64,
}

impl<W: Write + Drop> Output<W> {
    /// Lines that this writer takes.
    pub fn new(writer: W) -> Output<W>
        ensures writer { result.writer ≡ writer }
        ensures dropped { result.dropped ≡ 0 }
        ensures admitted { result.admitted ≡ 0 }
    {
        Output {
            writer,
            dropped: 0,
            admitted: 0,
        }
    }

    /// How many lines couldn't be written.
    pub fn dropped(&self) -> u64
        ensures { result ≡ self.now.dropped }
    {
        self.dropped
    }

    /// The writer.
    pub fn into_writer(self) -> W
        ensures { result ≡ self.writer }
    {
        let Output {
            writer,
            dropped: _,
            admitted: _,
        } = self;
        writer
    }

    /// Writes this text, or a beginning of it, and counts the lines whose end it doesn't write.
    pub fn put(&mut self, text: &[u8])
        ensures { spec.Puts (written_by W.contents self.old) (written_by W.contents self.new) text.now }
    {
        let taken = write_some(&mut self.writer, text);
        self.dropped = self.dropped.saturating_add(lines_left(&text[taken..]));
    }

    /// The same of these words as a line. Takes no memory.
    pub fn put_line(&mut self, words: &[u8])
        ensures { spec.Puts (written_by W.contents self.old) (written_by W.contents self.new) (line words.now) }
    {
        let taken = write_some(&mut self.writer, words);
        if taken == words.len() {
            self.put(b"\n");
        } else {
            let ended = count_lines(&words[taken..]).saturating_add(1);
            self.dropped = self.dropped.saturating_add(ended);
        }
    }

    /// Tells how many lines couldn't be written, where it wasn't told of all of them. Takes no memory.
    pub fn admit(&mut self, form: Form, now: Moment)
        ensures { spec.Admits form now (written_by W.contents self.old) (written_by W.contents self.new) }
    {
        if self.dropped > self.admitted {
            self.admit_more(form, now);
        }
    }

    fn admit_more(&mut self, form: Form, now: Moment)
        requires { self.old.admitted < self.old.dropped }
        ensures { spec.Admitted form now (written_by W.contents self.old) (written_by W.contents self.new) }
    {
        let time = time_text(now);
        let line = dropped_line(form, time.as_str(), self.dropped - self.admitted);
        let taken = write_some(&mut self.writer, line.as_bytes());
        if taken == line.len() {
            self.admitted = self.dropped;
        }
    }
}

/// Writes as much of this as the writer takes, and returns how many bytes that is.
pub fn write_some<W: Write>(writer: &mut W, text: &[u8]) -> usize
    ensures within { result ≤ length text.now }
    ensures appends { Appends (W.contents writer.old) (W.contents writer.new) (take result text.now) }
{
    let mut taken = 0;
    while taken < text.len() {
        let more = write_once(writer, &text[taken..]);
        if more == 0 {
            return taken;
        }
        taken += more;
    }
    taken
}

// The same by one write, which is tried again where a signal interrupts it.
fn write_once<W: Write>(writer: &mut W, text: &[u8]) -> usize
    ensures within { result ≤ length text.now }
    ensures appends { Appends (W.contents writer.old) (W.contents writer.new) (take result text.now) }
{
    for _ in 0..u64::MAX {
        match writer.write(text) {
            Ok(taken) => return taken,
            Err(error) => {
                if error.kind() != ErrorKind::Interrupted {
                    return 0;
                }
            }
        }
    }
    0
}

// How many lines end in what is left of a text, and one at least, where anything is left.
fn lines_left(left: &[u8]) -> u64
    ensures { result ≡ spec.lines_left left.now }
{
    if left.is_empty() {
        0
    } else {
        count_lines(left).max(1)
    }
}

fn count_lines(text: &[u8]) -> u64
    ensures { result ≡ count_by (λ b. b == 10) text.now }
{
    text.iter().filter(|b| **b == b'\n').count() as u64
}
