//! Which options of a message are recognised (RFC 7252 section 5.4).
ghost use Rattle.std.specs.Prelude.{◌≡◌, ◌==◌, [], ◌∷◌, MatchOption};
ghost use Rattle.std.specs.List.{list_any};
ghost use Rattle.std.specs.Option.{option_map};
ghost use Rattle.std.specs.Iterator.{YieldsFirstBy, item_count};
ghost use Rattle.osc_options.specs.Recognised as spec;
ghost use Rattle.osc_options.specs.Requests.{value as value_in};

use crate::table::{is_critical, rule_of};
use osc_coap::{MessageRef, Options};
use std::marker::Model;

/// Whether this option, after one of number `before` or first after 0, is recognised: it has a row in the table,
/// the length that the row allows, and is no second copy of one that doesn't repeat.
#[inline(always)]
pub fn is_recognised(before: u16, number: u16, value: &[u8]) -> bool
    ensures { result ≡ spec.is_recognised before (number, value.now) }
{
    let Some(rule) = rule_of(number) else {
        return false;
    };
    let size = value.len();
    rule.shortest as usize <= size
        && size <= rule.longest as usize
        && (rule.repeats || number != before)
}

/// The first critical option that isn't recognised, by its number.
pub(crate) fn unrecognised_among(options: Options<'_>) -> Option<u16>
    ensures { result ≡ spec.unrecognised_critical 0 options.entry }
{
    let mut before = 0;
    for (number, value) in options {
        if is_critical(number) && !is_recognised(before, number, value) {
            return Some(number);
        }
        before = number;
    }
    None
}

/// The first critical option of a message that isn't recognised, by its number: a message with one is refused (RFC 7252
/// section 5.4.1).
pub fn unrecognised_critical(message: &MessageRef<'_>) -> Option<u16>
    ensures { result ≡ spec.unrecognised_critical 0 message.now.options }
{
    unrecognised_among(message.options())
}

/// Whether an option of this number is in the message, recognised or not. It is looked for up to a larger number, since numbers
/// don't fall.
pub fn has_option(message: &MessageRef<'_>, number: u16) -> bool
    ensures { result ≡ list_any (λ option. option.0 == number) message.now.options }
{
    for (other, _) in message.options() {
        if other >= number {
            return other == number;
        }
    }
    false
}

/// Takes options until one is recognised, which it returns; `before` is the number of the option taken last.
#[inline(always)]
fn take_recognised<'a>(before: &mut u16, options: &mut Options<'a>) -> Option<(u16, &'a [u8])>
    ensures { MatchOption result
        ((spec.recognised before.old options.old ≡ []) × (spec.recognised before.new options.new ≡ []))
        (λ option. spec.recognised before.old options.old ≡ (option.0, option.1.now) ∷ spec.recognised before.new options.new) }
{
    while let Some((number, value)) = options.next() {
        let behind = *before;
        *before = number;
        if is_recognised(behind, number, value) {
            return Some((number, value));
        }
    }
    None
}

/// The recognised options of a message that are left, in order: number and value.
#[derive(Drop)]
pub(crate) struct RecognisedOptions<'a> {
    /// The number of the option before them.
    before: u16,
    options: Options<'a>,
}

impl<'a> Model for RecognisedOptions<'a> {
    ghost use Rattle.std.specs.Prelude.{List};
    ghost use Rattle.osc_coap.specs.{NumberAndValue};
    ghost use Rattle.osc_options.specs.Recognised as spec;

    ghost Value = { List NumberAndValue };

    ghost view = { λ left. spec.recognised left.before left.options };
}

impl<'a> Iterator for RecognisedOptions<'a> {
    type Item = (u16, &'a [u8]);

    ghost next_gives = { YieldsFirstBy (λ option. (option.0, option.1.now)) (λ options. options) };

    ghost remaining = { item_count (λ options. options) };

    #[inline(always)]
    fn next(&mut self) -> Option<(u16, &'a [u8])> {
        take_recognised(&mut self.before, &mut self.options)
    }
}

/// Those of the options that are recognised, in order.
pub(crate) fn recognised_options<'a>(options: Options<'a>) -> RecognisedOptions<'a>
    ensures { result ≡ spec.recognised 0 options.entry }
{
    RecognisedOptions { before: 0, options }
}

/// The value of the first recognised option of this number.
pub(crate) fn first_value<'a>(options: RecognisedOptions<'a>, number: u16) -> Option<&'a [u8]>
    ensures { option_map (λ value. value.now) result ≡ value_in number options.entry }
{
    for (found, value) in options {
        if found == number {
            return Some(value);
        }
    }
    None
}

/// The first recognised option of this number, by its value.
pub fn value_of<'a>(message: &MessageRef<'a>, number: u16) -> Option<&'a [u8]>
    ensures { option_map (λ value. value.now) result ≡ value_in number (spec.recognised 0 message.now.options) }
{
    first_value(recognised_options(message.options()), number)
}
