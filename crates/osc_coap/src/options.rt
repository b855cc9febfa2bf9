//! The options of a message, read from its bytes (RFC 7252 section 3.1).

ghost use Rattle.std.specs.Prelude.{◌≡◌, ◌<◌, ◌↔◌, ◌+◌, ◌/◌, ◌%◌, ◌^◌, ◌∷◌, length, IfSome, IsTrue};
ghost use Rattle.std.specs.Option.{option_map, option_copied};
ghost use Rattle.std.specs.Iterator.{YieldsFirstBy, item_count};
ghost use Rattle.osc_coap.specs.Reading as spec;
ghost use Rattle.osc_coap.specs.Reading.{extended_at, option_at, options_in, payload_in, CanBeRead};

use std::fmt;
use std::marker::Model;

/// The byte that is between the options and the payload (RFC 7252 section 3).
pub const PAYLOAD_MARKER: u8 = 0xff;

/// The delta or length that four bits and their extension stand for, and the bytes after it. 15 is
/// reserved.
#[tactic(auto, unfolding(crate::specs::Reading::extended_at))]
fn extended(bits: u8, bytes: &[u8]) -> Option<(u32, &[u8])>
    ensures read { option_map (λ x. (x.0, x.1.now)) result ≡ extended_at bits bytes.now }
    ensures bound { IfSome result (λ x. x.0 < 2 ^ 16 + 269) }
{
    match bits {
        13 => {
            let (first, rest) = bytes.split_first()?;
            Some((13 + *first as u32, rest))
        }
        14 => match bytes {
            [high, low, rest @ ..] => Some((269 + 256 * *high as u32 + *low as u32, rest)),
            _ => None,
        },
        0..=12 => Some((bits as u32, bytes)),
        _ => None,
    }
}

/// Whether an option's first byte holds its delta and its length, without extensions.
#[inline(always)]
fn is_short(head: u8) -> bool
    ensures { IsTrue result ↔ ((head / 16 < 13) × (head % 16 < 13)) }
{
    head < 0xd0 && head % 16 < 13
}

/// The option after one of number `before` that starts with this byte, and the bytes after it, where delta and length have no
/// extension.
#[inline(always)]
#[tactic(auto, unfolding(crate::specs::Reading::option_at, crate::specs::Reading::extended_at))]
fn short_option_of(before: u16, head: u8, rest: &[u8]) -> Option<((u16, &[u8]), &[u8])>
    requires delta { head / 16 < 13 }
    requires size { head % 16 < 13 }
    ensures { option_map (λ x. ((x.0.0, x.0.1.now), x.1.now)) result ≡ option_at before (head ∷ rest.now) }
{
    let number = before as u32 + (head / 16) as u32;
    let size = (head % 16) as usize;
    if number > 65535 || rest.len() < size {
        return None;
    }
    let (value, rest) = rest.split_at(size);
    Some(((number as u16, value), rest))
}

/// The option after one of number `before` that starts with this byte, and the bytes after it.
#[inline(never)]
#[tactic(auto, unfolding(crate::specs::Reading::option_at))]
fn extended_option_of(before: u16, head: u8, rest: &[u8]) -> Option<((u16, &[u8]), &[u8])>
    ensures { option_map (λ x. ((x.0.0, x.0.1.now), x.1.now)) result ≡ option_at before (head ∷ rest.now) }
{
    let (delta, rest) = extended(head / 16, rest)?;
    let (size, rest) = extended(head % 16, rest)?;
    let number = before as u32 + delta;
    if number > 65535 || rest.len() < size as usize {
        return None;
    }
    let (value, rest) = rest.split_at(size as usize);
    Some(((number as u16, value), rest))
}

/// The option at the front of the bytes, after one of number `before`, and the bytes after it.
/// Numbers have 16 bits.
#[inline(always)]
#[tactic(auto, unfolding(crate::specs::Reading::option_at))]
fn option_of(before: u16, bytes: &[u8]) -> Option<((u16, &[u8]), &[u8])>
    ensures { option_map (λ x. ((x.0.0, x.0.1.now), x.1.now)) result ≡ option_at before bytes.now }
{
    let (head, rest) = bytes.split_first()?;
    if is_short(*head) {
        short_option_of(before, *head, rest)
    } else {
        // Taken apart, so that short options are held in registers.
        let (option, after) = extended_option_of(before, *head, rest)?;
        Some((option, after))
    }
}

/// Whether no option is at the front of the bytes.
fn is_end(bytes: &[u8]) -> bool
    ensures { result ≡ spec.is_end bytes.now }
{
    match bytes {
        [] => true,
        [first, ..] => *first == PAYLOAD_MARKER,
    }
}

/// The payload after the options, if there is one. `None` where the bytes are no options and
/// payload; a marker with nothing after it is a format error.
pub(crate) fn payload_of(bytes: &[u8]) -> Option<Option<&[u8]>>
    ensures { option_map option_copied result ≡ payload_in 0 bytes.now }
{
    let mut before = 0;
    let mut rest = bytes;
    while !is_end(rest) {
        let (option, after) = option_of(before, rest)?;
        before = option.0;
        rest = after;
    }
    let Some((_, payload)) = rest.split_first() else {
        return Some(None);
    };
    if payload.is_empty() {
        return None;
    }
    Some(Some(payload))
}

/// The options of a message that are left, in order: number and value.
#[derive(Clone, Drop)]
pub struct Options<'a> {
    before: u16,
    rest: &'a [u8],
}

// They may be those of a plaintext, and aren't printed.
impl<'a> fmt::Debug for Options<'a> {
    fn fmt<W: fmt::Write>(&self, f: &mut fmt::Formatter<W>) -> fmt::Result {
        f.write_str("Options")
    }
}

impl<'a> Model for Options<'a> {
    ghost use Rattle.std.specs.Prelude.{List};
    ghost use Rattle.osc_coap.specs.Message.{NumberAndValue};
    ghost use Rattle.osc_coap.specs.Reading.{options_in, CanBeRead};

    ghost Value = { List NumberAndValue };

    ghost view = { λ options. options_in options.before options.rest.now };

    ghost invariant = { λ options. CanBeRead options.before options.rest.now };
}

impl<'a> Options<'a> {
    /// The options at the front of the bytes after a token.
    pub(crate) fn new(body: &'a [u8]) -> Options<'a>
        requires { CanBeRead 0 body.now }
        ensures value { result ≡ options_in 0 body.now }
        ensures count { length result < 2 ^ 64 }
    {
        let _length = body.len();
        Options {
            before: 0,
            rest: body,
        }
    }

    /// The options that are left, to be gone through once more.
    pub fn rest(&self) -> Options<'a>
        ensures { result ≡ self.now }
    {
        Options {
            before: self.before,
            rest: self.rest,
        }
    }
}

impl<'a> Iterator for Options<'a> {
    type Item = (u16, &'a [u8]);

    ghost next_gives = { YieldsFirstBy (λ option. (option.0, option.1.now)) (λ options. options) };

    ghost remaining = { item_count (λ options. options) };

    #[inline(always)]
    fn next(&mut self) -> Option<(u16, &'a [u8])> {
        if is_end(self.rest) {
            return None;
        }
        let (option, after) = option_of(self.before, self.rest)?;
        self.before = option.0;
        self.rest = after;
        Some(option)
    }
}
