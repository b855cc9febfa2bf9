//! A line of numbers as it grows, one after another.
ghost use Rattle.std.specs.Prelude.{◌≡◌, ◌++◌, IfOk, codes, decimal, string_bytes};
ghost use Rattle.osc_log.specs.Line as spec;
ghost use Rattle.osc_log.specs.Inner.Building.{line_of};
ghost use Rattle.osc_log.specs.Inner.Objects.{members_of};

use crate::form::Form;
use crate::object::Object;
use osc_model::Moment;
use std::alloc::{AllocError, Global};

/// A line as it grows: its text, or the members of its object.
#[derive(Drop)]
pub(crate) enum LogLine {
    Text(Vec<u8>),
    Json(Object),
}

impl LogLine {
    /// A line of this moment, time and level.
    pub fn new(
        alloc: Global,
        form: Form,
        now: Moment,
        time: &str,
        level: &str,
    ) -> Result<LogLine, AllocError>
        ensures { IfOk result (λ line. line_of line ≡ spec.begun form now time.now level.now) }
    {
        match form {
            Form::Text => Ok(LogLine::Text(begun_text(alloc, now, level)?)),
            Form::Json => Ok(LogLine::Json(Object::begun(alloc, time, level)?)),
        }
    }

    /// The same with a number under this key.
    pub fn number(self, alloc: Global, key: &str, n: u64) -> Result<LogLine, AllocError>
        ensures { IfOk result (λ line. line_of line ≡ spec.with_number key.now n (line_of self)) }
    {
        match self {
            LogLine::Text(text) => Ok(LogLine::Text(with_field(
                text,
                key,
                n.to_string(alloc)?.as_str(),
            )?)),
            LogLine::Json(members) => Ok(LogLine::Json(members.with_number(alloc, key, n)?)),
        }
    }

    /// The whole line, with its end.
    pub fn ended(self, alloc: Global) -> Result<Vec<u8>, AllocError>
        ensures { IfOk result (λ text. text.items ≡ spec.ended (line_of self)) }
    {
        match self {
            LogLine::Text(text) => ended_text(text),
            LogLine::Json(members) => members.line(alloc),
        }
    }
}

fn begun_text(alloc: Global, now: Moment, level: &str) -> Result<Vec<u8>, AllocError>
    ensures { IfOk result (λ text. text.items ≡ decimal now.ms ++ codes " " ++ level.now) }
{
    let ms = now.ms.to_string(alloc)?;
    let mut text = Vec::from_slice(alloc, ms.as_bytes())?;
    text.push(b' ')?;
    text.extend_from_slice(level.as_bytes())?;
    Ok(text)
}

fn ended_text(text: Vec<u8>) -> Result<Vec<u8>, AllocError>
    ensures { IfOk result (λ more. more.items ≡ spec.ended (spec.text text.items)) }
{
    let mut text = text;
    text.push(b'\n')?;
    Ok(text)
}

fn with_field(text: Vec<u8>, key: &str, value: &str) -> Result<Vec<u8>, AllocError>
    ensures { IfOk result (λ more. more.items ≡ text.items ++ codes " " ++ key.now ++ codes "=" ++ value.now) }
{
    let mut text = text;
    text.push(b' ')?;
    text.extend_from_slice(key.as_bytes())?;
    text.push(b'=')?;
    text.extend_from_slice(value.as_bytes())?;
    Ok(text)
}
