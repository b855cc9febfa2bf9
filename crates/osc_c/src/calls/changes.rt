//! What the last step of a device changed.
ghost use Rattle.std.specs.Prelude.{◌≡◌, is_some, option_copied};
ghost use Rattle.osc_turn.specs.Kept.{path_asked, path_changed_by, tells_change as tells_change_of};
ghost use Rattle.osc_model.specs.{format_of as format_of_value};
ghost use Rattle.osc_c.specs.Changes.{HasChange, TellsChange, change_of, flag_of, payload_of as payload_of_value, told_change};
ghost use Rattle.osc_c.specs.Last.{path_changed, waits};

use crate::calls::arguments::format_number;
use crate::calls::filling::fill_two;
use crate::calls::keeping::KeptNode;
use crate::calls::last::Last;
use crate::calls::outcome::Outcome;
use crate::calls::plain::PlainChange;
use osc_model::{Code, Entry, Path, Request, Resource};

/// Whether a reply tells of a change (RFC 7252 section 5.9.1).
fn tells_change(code: Code) -> bool
    ensures { result ≡ tells_change_of code }
{
    code == Code::CREATED || code == Code::DELETED || code == Code::CHANGED
}

/// The path that was asked for, if one was.
fn asked_path(read: &Result<Request, Code>) -> Option<&Path>
    ensures { option_copied result ≡ path_asked read.now }
{
    match read {
        Ok(request) => request.path.as_ref(),
        Err(_) => None,
    }
}

/// The path that a request changed, if one was served, and changed any.
fn changed_path(served: Option<&Entry>) -> Option<&Path>
    ensures { option_copied result ≡ path_changed_by (option_copied served.entry) }
{
    match served {
        Some(entry) if tells_change(entry.reply.code) => asked_path(&entry.request),
        _ => None,
    }
}

/// 1 for yes, 0 for no.
fn flag(is_so: bool) -> u8
    ensures { result ≡ flag_of is_so }
{
    if is_so { 1 } else { 0 }
}

/// The payload of what is there, or nothing.
fn payload_of(value: Option<&Resource>) -> &[u8]
    ensures { result.now ≡ payload_of_value (option_copied value.entry) }
{
    match value {
        Some(resource) => resource.payload.as_slice(),
        None => &[],
    }
}

/// The Content-Format of what is there, if it has one.
fn format_of(value: Option<&Resource>) -> Option<u16>
    ensures { result ≡ format_of_value (option_copied value.entry) }
{
    match value {
        Some(resource) => resource.format,
        None => None,
    }
}

/// A path, what it has now, and whether that waits to be kept: the numbers, and the bytes where they have room.
fn tell_change(
    path: &Path,
    value: Option<&Resource>,
    waits: bool,
    change: &mut PlainChange,
    room: &mut [u8],
) -> Outcome
    ensures { HasChange (record { path = path.now; value = option_copied value.entry; waits = waits }) change.old room.old result change.new room.new }
{
    let payload = payload_of(value);
    change.is_there = flag(value.is_some());
    change.waits = flag(waits);
    change.format = format_number(format_of(value));
    change.path_length = path.text().len();
    change.payload_length = payload.len();
    if fill_two(room, path.text(), payload) {
        Outcome::Done
    } else {
        Outcome::TooShort
    }
}

impl Last {
    /// The path that the step changed, if it changed any.
    pub(crate) fn changed(&self) -> Option<&Path>
        ensures { option_copied result ≡ path_changed self.now }
    {
        changed_path(self.entry())
    }

    /// Whether it changed something that isn't kept yet.
    pub(crate) fn waits(&self) -> bool
        ensures { result ≡ waits self.now }
    {
        self.changed().is_some() && !self.is_kept()
    }
}

impl KeptNode {
    /// What the last step changed.
    pub fn changed(&self, change: &mut PlainChange, room: &mut [u8]) -> Outcome
        ensures { TellsChange (change_of self.now) change.old room.old result change.new room.new }
    {
        match self.node.last.changed() {
            Some(path) => {
                let value = self.node.device.server().tree().get(path);
                tell_change(path, value, self.waits(), change, room)
            }
            None => Outcome::Nothing,
        }
    }
}
