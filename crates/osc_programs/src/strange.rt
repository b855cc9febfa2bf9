//! What a client doesn't understand of an answer that opened, and how that is told.
ghost use Rattle.std.specs.Prelude.{◌≡◌, List, None, Option, Some};
ghost use Rattle.osc_options.specs.{unrecognised_critical};
ghost use Rattle.osc_programs.specs.Strange as spec;
ghost use Rattle.osc_programs.specs.Strange.{one_more};

use osc_coap::{Options, PlaintextRef, is_response_code};
use osc_model::{Code, StepNotes};
use osc_options::{is_critical, is_recognised};
use std::fmt;
use std::io::Eprint;

/// What an answer has that a client doesn't understand.
#[derive(Clone, Copy, Debug, PartialEq, Eq)]
pub(crate) enum Strange {
    /// It is no response of CoAP.
    NoResponse,
    /// A critical option of this number, which isn't recognised (RFC 7252 section 5.4.1).
    BadOption(u16),
    /// Of a 4.01, Echo: the server asks for the request again, with that option (RFC 9175 section 2.3).
    AsksAgain,
}

/// The line that tells it.
impl fmt::Display for Strange {
    ghost output = { λ strange. Some (spec.strange_text strange) };

    fn fmt<W: fmt::Write>(&self, f: &mut fmt::Formatter<W>) -> fmt::Result {
        match self {
            Strange::NoResponse => f.write_str("an answer came that is no response of CoAP"),
            Strange::BadOption(number) => Unknown(*number).fmt(f),
            Strange::AsksAgain => f.write_str(
                "an answer 4.01 came with option 252 (Echo): the server asks for the request again with it, which isn't done",
            ),
        }
    }
}

/// The line that tells an option of this number.
#[derive(Clone, Copy)]
struct Unknown(u16);

impl fmt::Display for Unknown {
    ghost output = { λ unknown. Some (spec.option_text unknown.0) };

    fn fmt<W: fmt::Write>(&self, f: &mut fmt::Formatter<W>) -> fmt::Result {
        let number = self.0;
        let named = Named(number);
        write!(
            f,
            "an answer came with option {number} {named}that isn't understood"
        )
    }
}

/// The name of a critical option, in brackets before a space, where it has one.
#[derive(Clone, Copy)]
struct Named(u16);

impl fmt::Display for Named {
    ghost output = { λ named. Some (spec.name_before named.0) };

    fn fmt<W: fmt::Write>(&self, f: &mut fmt::Formatter<W>) -> fmt::Result {
        f.write_str(match self.0 {
            1 => "(If-Match) ",
            3 => "(Uri-Host) ",
            5 => "(If-None-Match) ",
            7 => "(Uri-Port) ",
            9 => "(OSCORE) ",
            11 => "(Uri-Path) ",
            15 => "(Uri-Query) ",
            17 => "(Accept) ",
            19 => "(Q-Block1) ",
            21 => "(EDHOC) ",
            23 => "(Block2) ",
            27 => "(Block1) ",
            31 => "(Q-Block2) ",
            35 => "(Proxy-Uri) ",
            39 => "(Proxy-Scheme) ",
            _ => "",
        })
    }
}

/// What a client doesn't understand of the answer that a step opened, if there is such. Takes no memory.
pub(crate) fn strange_of(notes: &StepNotes) -> Option<Strange>
    ensures { spec.IsStrange notes.now.opens result }
{
    match notes.opens() {
        Some(note) => strange_in(note.plaintext.as_slice()),
        None => None,
    }
}

// The same of the plaintext that these bytes are.
fn strange_in(text: &[u8]) -> Option<Strange>
    ensures { spec.IsStrangeIn text.now result }
{
    match PlaintextRef::parse(text) {
        Some(plaintext) => strange_answer(&plaintext),
        None => Some(Strange::NoResponse),
    }
}

fn strange_answer(plaintext: &PlaintextRef<'_>) -> Option<Strange>
    ensures { result ≡ spec.strange_answer plaintext.now }
{
    if !is_response_code(plaintext.code()) {
        return Some(Strange::NoResponse);
    }
    if let Some(number) = bad_option(plaintext.options()) {
        return Some(Strange::BadOption(number));
    }
    if plaintext.code() == Code::UNAUTHORIZED.0 && has_echo(plaintext.options()) {
        return Some(Strange::AsksAgain);
    }
    None
}

// The first critical option that isn't recognised, by its number.
fn bad_option(options: Options<'_>) -> Option<u16>
    ensures { result ≡ unrecognised_critical 0 options.entry }
{
    let mut before = 0;
    for (number, value) in options {
        if is_critical(number) && !is_recognised(before, number, value) {
            return Some(number);
        }
        before = number;
    }
    None
}

// Whether Echo is among the options.
fn has_echo(options: Options<'_>) -> bool
    ensures { result ≡ spec.has_echo options.entry }
{
    for (number, _) in options {
        if number == ECHO {
            return true;
        }
    }
    false
}

/// Echo (RFC 9175 section 2.2).
const ECHO: u16 = 252;

// ---- where it is told

/// Where a client tells at once what it doesn't understand.
pub(crate) trait Aside {
    ghost use Rattle.osc_programs.specs.declared.strange.Strange.{Strange as AnyStrange};

    // What it was told so far, one after another, where contracts can see that.
    ghost told: { Self → Option (List AnyStrange) };

    /// Tells this.
    fn tell(&mut self, strange: Strange)
        ensures { told self.new ≡ one_more (told self.old) strange };
}

/// The standard error of a runtime: a line for each. What can't be written there is dropped.
#[derive(Drop)]
pub(crate) struct OnError<'a, R> {
    runtime: &'a R,
}

impl<'a, R> OnError<'a, R> {
    /// That of this runtime.
    pub fn new(runtime: &'a R) -> OnError<'a, R>
        ensures { result.runtime.now ≡ runtime.now }
    {
        OnError { runtime }
    }
}

impl<'a, R: Eprint> Aside for OnError<'a, R> {
    ghost told = { λ _. None };

    fn tell(&mut self, strange: Strange) {
        let _told = self.runtime.eprintln(strange);
    }
}

/// Tells what a client doesn't understand of the answer that a step opened, if there is such.
pub(crate) fn tell_strange<A: Aside>(aside: &mut A, notes: &StepNotes)
    ensures { spec.IsTold notes.now.opens (A.told aside.old) (A.told aside.new) }
{
    if let Some(strange) = strange_of(notes) {
        aside.tell(strange);
    }
}
