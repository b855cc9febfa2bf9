//! What a node tells of its turns, and to whom.
ghost use Rattle.std.specs.Prelude.{◌≡◌, [], ◌∷◌, IfOk, List, None, Some, ℕ, option_map};
ghost use Rattle.osc_log.specs.Faults.{IsUnreadText, fault_text, untold_text};
ghost use Rattle.osc_log.specs.Output.{written_by};
ghost use Rattle.osc_log.specs.Log as spec;
ghost use Rattle.osc_log.specs.Output.{Puts, none_dropped};
ghost use Rattle.osc_log.specs.Time.{IsTime};
ghost use Rattle.osc_log.specs.declared.form.Form.TheVariants as AnyForm;

use crate::faults::{behind_line, fault_object, lost_line, unsaid_line, untold_line};
use crate::form::Form;
use crate::held::TellsHeld;
use crate::output::Output;
use crate::seen::Seen;
use crate::time::time_text;
use crate::told::text_of;
use crate::turn::Turn;
use osc_model::Moment;
use std::alloc::{AllocError, Global};
use std::io::Write;

/// Where a node tells what its turns did, and before them why it has no settings. What can't be written is no failure: of what is told, a beginning
/// is written then, and each line whose end isn't counts as dropped.
pub trait Log {
    ghost use Rattle.osc_log.specs.Log.{Told};

    // How lines are written, what was seen, and what was written and dropped, where contracts can see it.
    ghost told: { Self → Told };

    /// The lines of a turn of this node: one for each datagram that it sent, and one of counters where these are due. Lines may be left out where
    /// there are many of their kind, but none of what was served.
    fn lines<N: TellsHeld>(
        &self,
        alloc: Global,
        turn: &Turn<'_>,
        node: &N,
    ) -> Result<Vec<u8>, AllocError>
        ensures { IfOk result (λ lines. spec.AreLines (told self.now).form (told self.now).seen turn.entry.now (N.held node.now) lines.items) };

    /// Tells of a turn by these lines of it; or, where there are none, by one line that there was no memory for them. Takes no memory.
    fn tell(&mut self, turn: &Turn<'_>, lines: Option<&[u8]>)
        ensures { spec.TellsBy (told self.old).seen (told self.old) (told self.new) turn.entry.now (option_map (λ lines. lines.now) lines.entry) };

    /// Tells that there was no memory for the step of what came at this moment.
    fn lost(&mut self, now: Moment)
        ensures { spec.Tells (told self.old) (told self.new) (spec.lost now ∷ []) };

    /// Tells by one line that the wall clock is so many seconds behind this moment.
    fn behind(&mut self, now: Moment, seconds: u64)
        ensures { spec.Tells (told self.old) (told self.new) (spec.behind now seconds ∷ []) };

    /// Tells by one line, in these words, why settings are none; or that there was no memory to say so, as where there are no words.
    fn no_settings(&mut self, alloc: Global, words: Option<&str>)
        ensures { (text : List ℕ) × IsUnreadText (told self.old).form (option_map (λ words. words.now) words.entry) text × spec.Writes (told self.old) (told self.new) text };

    /// Tells of a turn of this node by its lines; or, by one line, that there was no memory for them.
    final fn turn<N: TellsHeld>(&mut self, alloc: Global, turn: &Turn<'_>, node: &N)
        ensures { spec.Tells (told self.old) (told self.new) (spec.turned turn.entry.now (N.held node.now) ∷ []) }
    {
        match self.lines(alloc, turn, node) {
            Ok(lines) => self.tell(turn, Some(&lines)),
            Err(_) => self.tell(turn, None),
        }
    }
}

/// Tells nothing.
#[derive(Clone, Copy, Debug, Drop)]
pub struct Silent;

impl Log for Silent {
    ghost told = { λ _. spec.unseen };

    fn lines<N: TellsHeld>(
        &self,
        alloc: Global,
        _turn: &Turn<'_>,
        _node: &N,
    ) -> Result<Vec<u8>, AllocError> {
        Ok(Vec::new(alloc))
    }

    fn tell(&mut self, _turn: &Turn<'_>, _lines: Option<&[u8]>) {}

    fn lost(&mut self, _now: Moment) {}

    fn behind(&mut self, _now: Moment, _seconds: u64) {}

    fn no_settings(&mut self, _alloc: Global, _words: Option<&str>) {}
}

/// Tells by one line of text why settings are none, and nothing of turns.
#[derive(Drop)]
pub struct Faults<W: Write + Drop> {
    output: Output<W>,
}

impl<W: Write + Drop> Faults<W> {
    /// A line that this writer takes.
    pub fn new(writer: W) -> Faults<W>
        ensures { written_by W.contents result.output ≡ none_dropped (W.contents writer) }
    {
        Faults {
            output: Output::new(writer),
        }
    }
}

impl<W: Write + Drop> Log for Faults<W> {
    ghost told = { λ faults. record { form = AnyForm.Text; seen = None; output = written_by W.contents faults.output } };

    fn lines<N: TellsHeld>(
        &self,
        alloc: Global,
        _turn: &Turn<'_>,
        _node: &N,
    ) -> Result<Vec<u8>, AllocError> {
        Ok(Vec::new(alloc))
    }

    fn tell(&mut self, _turn: &Turn<'_>, _lines: Option<&[u8]>) {}

    fn lost(&mut self, _now: Moment) {}

    fn behind(&mut self, _now: Moment, _seconds: u64) {}

    fn no_settings(&mut self, _alloc: Global, words: Option<&str>) {
        put_text(&mut self.output, words);
    }
}

/// Tells by lines of one form. What is served has its line each time. Of other lines the first 20 of each kind in one second are told, and the
/// others counted: how many they were is told by a line for each kind, before the next line of a later second. The kinds are refusals for which
/// no security context was found, refusals of requests whose context was found, and what else was sent. A line has counters of all turns so far, after
/// each so many seconds. Lines that can't be written are counted too, and told of once something can be written again.
#[derive(Drop)]
pub struct Lines<W: Write + Drop> {
    form: Form,
    output: Output<W>,
    seen: Seen,
}

impl<W: Write + Drop> Lines<W> {
    /// Lines of this form, with counters after each so many seconds, which this writer takes.
    pub fn new(form: Form, every: u32, writer: W) -> Lines<W>
        ensures form { result.form ≡ form }
        ensures output { written_by W.contents result.output ≡ none_dropped (W.contents writer) }
        ensures writer { result.output.writer ≡ writer }
        ensures seen { result.seen ≡ spec.nothing_seen every }
    {
        Lines {
            form,
            output: Output::new(writer),
            seen: Seen::nothing(every),
        }
    }

    /// How many lines couldn't be written.
    pub fn dropped(&self) -> u64
        ensures { result ≡ self.now.output.dropped }
    {
        self.output.dropped()
    }

    /// The writer.
    pub fn into_writer(self) -> W
        ensures { result ≡ self.output.writer }
    {
        let Lines {
            form: _,
            output,
            seen: _,
        } = self;
        output.into_writer()
    }
}

impl<W: Write + Drop> Log for Lines<W> {
    ghost told = { λ lines. record { form = lines.form; seen = Some lines.seen; output = written_by W.contents lines.output } };

    fn lines<N: TellsHeld>(
        &self,
        alloc: Global,
        turn: &Turn<'_>,
        node: &N,
    ) -> Result<Vec<u8>, AllocError> {
        text_of(alloc, self.form, turn, node, &self.seen)
    }

    fn tell(&mut self, turn: &Turn<'_>, lines: Option<&[u8]>) {
        self.output.admit(self.form, turn.moment());
        put_turn(&mut self.output, self.form, turn, lines);
        self.seen.see(turn, lines);
    }

    fn lost(&mut self, now: Moment) {
        let time = time_text(now);
        self.output.admit(self.form, now);
        self.output
            .put(lost_line(self.form, time.as_str()).as_bytes());
        self.seen.counters = self.seen.counters.with_lost();
    }

    fn behind(&mut self, now: Moment, seconds: u64) {
        let time = time_text(now);
        self.output.admit(self.form, now);
        self.output
            .put(behind_line(self.form, time.as_str(), seconds).as_bytes());
    }

    fn no_settings(&mut self, alloc: Global, words: Option<&str>) {
        match self.form {
            Form::Text => put_text(&mut self.output, words),
            Form::Json => put_object(&mut self.output, alloc, words),
        }
    }
}

// The lines of a turn, or, where there are none, that there was no memory for them.
fn put_turn<W: Write + Drop>(
    output: &mut Output<W>,
    form: Form,
    turn: &Turn<'_>,
    lines: Option<&[u8]>,
)
    ensures { (text : List ℕ) × spec.IsTelling form turn.entry.now (option_map (λ lines. lines.now) lines.entry) text
        × Puts (written_by W.contents output.old) (written_by W.contents output.new) text }
{
    match lines {
        Some(lines) => output.put(lines),
        None => put_untold(output, form, turn.moment()),
    }
}

fn put_untold<W: Write + Drop>(output: &mut Output<W>, form: Form, now: Moment)
    ensures { (time : List ℕ) × IsTime now time × Puts (written_by W.contents output.old) (written_by W.contents output.new) (untold_text form time) }
{
    let time = time_text(now);
    output.put(untold_line(form, time.as_str()).as_bytes());
}

// These words as a line of text, or, where there are none, that there was no memory for them.
fn put_text<W: Write + Drop>(output: &mut Output<W>, words: Option<&str>)
    ensures { (text : List ℕ) × IsUnreadText AnyForm.Text (option_map (λ words. words.now) words.entry) text
        × Puts (written_by W.contents output.old) (written_by W.contents output.new) text }
{
    match words {
        Some(words) => output.put_line(words.as_bytes()),
        None => output.put(unsaid_line(Form::Text)),
    }
}

// The same by an object, for which there may be no memory.
fn put_object<W: Write + Drop>(output: &mut Output<W>, alloc: Global, words: Option<&str>)
    ensures { (text : List ℕ) × IsUnreadText AnyForm.Json (option_map (λ words. words.now) words.entry) text
        × Puts (written_by W.contents output.old) (written_by W.contents output.new) text }
{
    match said(alloc, words) {
        Some(line) => output.put(&line),
        None => output.put(unsaid_line(Form::Json)),
    }
}

// The object of these words, where there are any, and memory for it.
fn said(alloc: Global, words: Option<&str>) -> Option<Vec<u8>>
    ensures { (line : _) → result ≡ Some line → (known : List ℕ) × (option_map (λ words. words.now) words.entry ≡ Some known) × (line.items ≡ fault_text AnyForm.Json known) }
{
    match fault_object(alloc, words?) {
        Ok(line) => Some(line),
        Err(_) => None,
    }
}
