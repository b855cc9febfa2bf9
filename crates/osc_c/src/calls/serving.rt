//! What a device has, and what its server served and refused.
ghost use Rattle.std.specs.Prelude.{◌≡◌, Some, option_copied};
ghost use Rattle.std.specs.FinMap as map;
ghost use Rattle.osc_c.specs.Values.{HasValue, TellsValue, TellsValueAt, told_value};
ghost use Rattle.osc_c.specs.Serving.{HasServed, TellsRefused, TellsServed, bytes_of, first_of, flag_of, method_number_of, reason_of, served_by_last, told_refused, told_served};
ghost use Rattle.osc_device.specs.{served_in};

use crate::calls::arguments;
use crate::calls::arguments::format_number;
use crate::calls::device::DeviceNode;
use crate::calls::filling::{fill, fill_three};
use crate::calls::outcome::Outcome;
use crate::calls::plain::{PlainEtag, PlainId, PlainPeer, PlainRefused, PlainServed, PlainValue};
use osc_device::{Refused, Served};
use osc_model::{Path, Resource, Step};
use osc_tree::{Tree, etag};
use std::alloc::Global;

/// What is at a path of these resources.
fn tell_value(tree: &Tree, path: &Path, payload: &mut [u8], value: &mut PlainValue) -> Outcome
    ensures { TellsValue (map.get tree.now path.now) (record { payload = payload.old; value = value.old }) result (record { payload = payload.new; value = value.new }) }
{
    match tree.get(path) {
        Some(resource) => tell_resource(resource, payload, value),
        None => Outcome::Nothing,
    }
}

/// A resource: its payload, where there is room, and its numbers.
fn tell_resource(resource: &Resource, payload: &mut [u8], value: &mut PlainValue) -> Outcome
    ensures { HasValue resource.now (record { payload = payload.old; value = value.old }) result (record { payload = payload.new; value = value.new }) }
{
    tell_numbers_of(resource, value);
    if fill(payload, resource.payload.as_slice()) {
        Outcome::Done
    } else {
        Outcome::TooShort
    }
}

/// The numbers of a resource, and its ETag where the struct has room for it: member by member, since a struct without an ETag ends before it.
fn tell_numbers_of(resource: &Resource, value: &mut PlainValue)
    ensures { value.new ≡ told_value resource.now value.old }
{
    value.format = format_number(resource.format);
    value.length = resource.payload.len();
    if value.size == size_of::<PlainValue>() {
        value.etag = PlainEtag::of(Some(etag(resource)));
    }
}

/// The number of the method; 0 for none.
fn method_of(served: &Served<'_>) -> u8
    ensures { result ≡ method_number_of served.now.method }
{
    match served.method() {
        Some(method) => method.code().0,
        None => 0,
    }
}

/// The text of the path, or nothing.
fn path_of<'a>(served: &'a Served<'_>) -> &'a [u8]
    ensures { result.now ≡ bytes_of served.now.path }
{
    match served.path() {
        Some(path) => path.text(),
        None => &[],
    }
}

/// The first byte of the kid, which is the whole of it where a server gave it.
#[tactic(auto, using(crate::proofs::ServedParts::by_of))]
fn kid_of(served: &Served<'_>) -> u8
    ensures { result ≡ first_of served.now.by.kid }
{
    match served.by.kid {
        [kid, ..] => *kid,
        [] => 0,
    }
}

/// Whether there is an id context.
#[tactic(auto, using(crate::proofs::ServedParts::by_of))]
fn has_context(served: &Served<'_>) -> u8
    ensures { result ≡ flag_of served.now.by.kid_context }
{
    match served.by.kid_context {
        Some(_) => 1,
        None => 0,
    }
}

/// The id context, or nothing.
#[tactic(auto, using(crate::proofs::ServedParts::by_of))]
fn context_of<'a>(served: &'a Served<'_>) -> &'a [u8]
    ensures { result.now ≡ bytes_of served.now.by.kid_context }
{
    match served.by.kid_context {
        Some(context) => context,
        None => &[],
    }
}

/// The Partial IV.
#[tactic(auto, using(crate::proofs::ServedParts::number_of))]
fn number_of(served: &Served<'_>) -> u64
    ensures { result ≡ served.now.number }
{
    served.number
}

/// The code of the reply.
#[tactic(auto, using(crate::proofs::ServedParts::reply_of))]
fn code_of(served: &Served<'_>) -> u8
    ensures { result ≡ served.now.reply.code.0 }
{
    served.reply.code.0
}

/// The ETag of the reply.
#[tactic(auto, using(crate::proofs::ServedParts::reply_of))]
fn etag_of(served: &Served<'_>) -> Option<[u8; 8]>
    ensures { result ≡ served.now.reply.etag }
{
    served.reply.etag
}

/// The id of the token that made the context, or nothing.
#[tactic(auto, using(crate::proofs::ServedParts::token_of))]
fn token_of<'a>(served: &'a Served<'_>) -> &'a [u8]
    ensures { result.now ≡ bytes_of served.now.token }
{
    match served.token {
        Some(id) => id,
        None => &[],
    }
}

/// The numbers of what was served, and token and ETag where the struct has room for them: member by member, since one without them ends before.
fn tell_numbers(from: &Served<'_>, served: &mut PlainServed)
    ensures { served.new ≡ told_served from.now served.old }
{
    served.method = method_of(from);
    served.code = code_of(from);
    served.kid = kid_of(from);
    served.has_context = has_context(from);
    served.number = number_of(from);
    served.path_length = path_of(from).len();
    served.payload_length = from.payload().len();
    served.context_length = context_of(from).len();
    if served.size == size_of::<PlainServed>() {
        served.token = PlainId::of(token_of(from));
        served.etag = PlainEtag::of(etag_of(from));
    }
}

/// What was served: its numbers, and its bytes where they have room.
fn tell_served(from: &Served<'_>, served: &mut PlainServed, room: &mut [u8]) -> Outcome
    ensures { HasServed from.now served.old room.old result served.new room.new }
{
    tell_numbers(from, served);
    if fill_three(room, path_of(from), from.payload(), context_of(from)) {
        Outcome::Done
    } else {
        Outcome::TooShort
    }
}

/// What a step served.
fn tell_step(step: &Step, served: &mut PlainServed, room: &mut [u8]) -> Outcome
    ensures { TellsServed (served_in step.now.notes) served.old room.old result served.new room.new }
{
    match Served::in_step(step) {
        Some(from) => tell_served(&from, served, room),
        None => Outcome::Nothing,
    }
}

/// What a step refused.
fn tell_refused(step: &Step, refused: &mut PlainRefused) -> Outcome
    ensures { TellsRefused (Some step.now) refused.old result refused.new }
{
    match Refused::in_step(step) {
        Some(from) => {
            tell_refusal(from, refused);
            Outcome::Done
        }
        None => Outcome::Nothing,
    }
}

/// The numbers of what was refused, and its token where the struct has room for it: member by member, since one without it ends before.
fn tell_refusal(from: Refused<'_>, refused: &mut PlainRefused)
    ensures { refused.new ≡ told_refused (from.entry.from, from.entry.why) (option_copied from.entry.token) refused.old }
{
    refused.from = PlainPeer::of(from.from);
    refused.code = from.why.code.0;
    refused.reason = reason(from.why.reason);
    if refused.size == size_of::<PlainRefused>() {
        refused.has_token = flag(from.token);
        refused.token = PlainId::of(bytes(from.token));
    }
}

/// The number of a reason; 0 for none.
fn reason(number: Option<u8>) -> u8
    ensures { result ≡ reason_of number }
{
    match number {
        Some(number) => number,
        None => 0,
    }
}

/// Whether there are bytes.
fn flag(bytes: Option<&[u8]>) -> u8
    ensures { result ≡ flag_of (option_copied bytes.entry) }
{
    match bytes {
        Some(_) => 1,
        None => 0,
    }
}

/// The bytes, or nothing.
fn bytes(bytes: Option<&[u8]>) -> &[u8]
    ensures { result.now ≡ bytes_of (option_copied bytes.entry) }
{
    match bytes {
        Some(bytes) => bytes,
        None => &[],
    }
}

impl DeviceNode {
    /// What is at a path.
    pub fn get(
        &self,
        alloc: Global,
        path: &[u8],
        payload: &mut [u8],
        value: &mut PlainValue,
    ) -> Outcome
        ensures { TellsValueAt self.now path.now (record { payload = payload.old; value = value.old }) result (record { payload = payload.new; value = value.new }) }
    {
        match arguments::path(alloc, path) {
            Ok(path) => {
                let outcome = tell_value(self.device.server().tree(), &path, payload, value);
                drop(path);
                outcome
            }
            Err(outcome) => outcome,
        }
    }

    /// The protected request that the last step served.
    pub fn served(&self, served: &mut PlainServed, room: &mut [u8]) -> Outcome
        ensures { TellsServed (served_by_last self.now.last) served.old room.old result served.new room.new }
    {
        match self.last.step() {
            Some(step) => tell_step(step, served, room),
            None => Outcome::Nothing,
        }
    }

    /// The request that the last step refused.
    pub fn refused(&self, refused: &mut PlainRefused) -> Outcome
        ensures { TellsRefused self.now.last.step refused.old result refused.new }
    {
        match self.last.step() {
            Some(step) => tell_refused(step, refused),
            None => Outcome::Nothing,
        }
    }
}
