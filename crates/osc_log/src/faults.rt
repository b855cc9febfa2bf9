//! The lines of what failed.
ghost use Rattle.std.specs.Prelude.{◌≡◌, ◌≤◌, ◌++◌, IfOk, codes, length};
ghost use Rattle.osc_log.specs.Faults as spec;
ghost use Rattle.osc_log.specs.declared.form.Form.TheVariants as AnyForm;

use crate::form::Form;
use crate::object::Object;
use arrayvec::ArrayString;
use itoa::Buffer;
use std::alloc::{AllocError, Global};

// ---- without memory

/// There was no memory for a step. Takes none itself.
pub(crate) fn lost_line(form: Form, time: &str) -> ArrayString<160>
    requires { length time.now ≤ 33 }
    ensures { result.bytes ≡ spec.lost_text form time.now }
{
    bare_line(form, time, "out of memory: what came is lost")
}

/// There was no memory for the lines of a turn. Takes none itself.
pub(crate) fn untold_line(form: Form, time: &str) -> ArrayString<160>
    requires { length time.now ≤ 33 }
    ensures { result.bytes ≡ spec.untold_text form time.now }
{
    bare_line(form, time, "out of memory: what a step did is not told")
}

/// The wall clock is so many seconds behind the time of the node. Takes no memory itself.
pub(crate) fn behind_line(form: Form, time: &str, seconds: u64) -> ArrayString<160>
    requires { length time.now ≤ 33 }
    ensures { result.bytes ≡ spec.behind_text form time.now seconds }
{
    bare_line(form, time, behind_words(seconds).as_str())
}

fn behind_words(seconds: u64) -> ArrayString<80>
    ensures { result.bytes ≡ spec.behind_words seconds }
{
    let mut number = Buffer::new();
    let mut words = ArrayString::new();
    words.push_str("the clock is ");
    words.push_str(number.format(seconds));
    words.push_str(" seconds behind the time of this node");
    words
}

/// This number of lines couldn't be written, up to this time. Takes no memory itself.
pub(crate) fn dropped_line(form: Form, time: &str, count: u64) -> ArrayString<160>
    requires { length time.now ≤ 33 }
    ensures { result.bytes ≡ spec.dropped_text form time.now count }
{
    bare_line(form, time, dropped_words(count).as_str())
}

fn dropped_words(count: u64) -> ArrayString<80>
    ensures { result.bytes ≡ spec.dropped_words count }
{
    let mut number = Buffer::new();
    let mut words = ArrayString::new();
    words.push_str(number.format(count));
    words.push_str(" lines could not be written");
    words
}

fn bare_line(form: Form, time: &str, words: &str) -> ArrayString<160>
    requires time { length time.now ≤ 33 }
    requires words { length words.now ≤ 80 }
    ensures { result.bytes ≡ spec.bare_text form time.now words.now }
{
    match form {
        Form::Text => bare_text(words),
        Form::Json => bare_object(time, words),
    }
}

fn bare_text(words: &str) -> ArrayString<160>
    requires { length words.now ≤ 80 }
    ensures { result.bytes ≡ words.now ++ codes "\n" }
{
    let mut line = ArrayString::new();
    line.push_str(words);
    line.push_str("\n");
    line
}

fn bare_object(time: &str, words: &str) -> ArrayString<160>
    requires time { length time.now ≤ 33 }
    requires words { length words.now ≤ 80 }
    ensures { result.bytes ≡ codes "{\"level\":\"fault\",\"time\":\"" ++ time.now ++ codes "\",\"why\":\"" ++ words.now ++ codes "\"}" ++ codes "\n" }
{
    let mut line = ArrayString::new();
    line.push_str("{\"level\":\"fault\",\"time\":\"");
    line.push_str(time);
    line.push_str("\",\"why\":\"");
    line.push_str(words);
    line.push_str("\"}\n");
    line
}

/// There was no memory to say why settings are none. Takes none itself.
pub(crate) fn unsaid_line(form: Form) -> &'static [u8]
    ensures { result.now ≡ spec.unsaid_text form }
{
    match form {
        Form::Text => b"out of memory: why the settings are bad is not told\n",
        Form::Json =>
            b"{\"level\":\"fault\",\"why\":\"out of memory: why the settings are bad is not told\"}\n",
    }
}

// ---- in words

/// The object of a fault in these words.
pub(crate) fn fault_object(alloc: Global, words: &str) -> Result<Vec<u8>, AllocError>
    ensures { IfOk result (λ text. text.items ≡ spec.fault_text AnyForm.Json words.now) }
{
    Object::new(alloc)
        .with_text(alloc, "level", "fault")?
        .with_text(alloc, "why", words)?
        .line(alloc)
}
