//! What a client learnt, as numbers and bytes.
ghost use Rattle.std.specs.Prelude.{◌≡◌};
ghost use Rattle.osc_c.specs.Results.{TellsResult, bare, numbers_of, payload_in, told_result};

use crate::calls::arguments::format_number;
use crate::calls::filling::fill;
use crate::calls::outcome::Outcome;
use crate::calls::plain::{PlainEtag, PlainResult};
use osc_model::{ClientResult, StepNotes};

/// What is told of it beside its payload.
#[derive(Clone, Copy)]
pub(crate) struct Learnt {
    what: u8,
    code: u8,
    format: i32,
    length: usize,
    etag: Option<[u8; 8]>,
}

/// Tells what was learnt, if anything was: its numbers, and its payload where there is room.
pub(crate) fn tell_result(notes: &StepNotes, told: &mut PlainResult, payload: &mut [u8]) -> Outcome
    ensures { TellsResult notes.now.result told.old payload.old result told.new payload.new }
{
    let Some(learnt) = notes.result() else {
        return Outcome::Nothing;
    };
    tell_numbers(numbers(learnt), told);
    if fill(payload, payload_of(learnt)) {
        Outcome::Done
    } else {
        Outcome::TooShort
    }
}

/// Tells the numbers: member by member, since a struct without an ETag ends before it.
fn tell_numbers(numbers: Learnt, told: &mut PlainResult)
    ensures { told.new ≡ told_result numbers told.old }
{
    told.what = numbers.what;
    told.code = numbers.code;
    told.format = numbers.format;
    told.length = numbers.length;
    if told.size == size_of::<PlainResult>() {
        told.etag = PlainEtag::of(numbers.etag);
    }
}

/// The payload of an answer.
fn payload_of(learnt: &ClientResult) -> &[u8]
    ensures { result.now ≡ payload_in learnt.now }
{
    match learnt {
        ClientResult::Answer(reply) => reply.payload.as_slice(),
        _ => &[],
    }
}

/// The numbers of what has no payload.
fn bare(what: u8, code: u8) -> Learnt
    ensures { result ≡ bare what code }
{
    Learnt {
        what,
        code,
        format: -1,
        length: 0,
        etag: None,
    }
}

/// The numbers.
fn numbers(learnt: &ClientResult) -> Learnt
    ensures { result ≡ numbers_of learnt.now }
{
    match learnt {
        ClientResult::Made => bare(1, 0),
        ClientResult::Answer(reply) => Learnt {
            what: 2,
            code: reply.code.0,
            format: format_number(reply.format),
            length: reply.payload.len(),
            etag: reply.etag,
        },
        ClientResult::Unverified(code) => bare(3, code.0),
        ClientResult::TimedOut => bare(4, 0),
        ClientResult::Refused(number) => bare(5, *number),
    }
}
