//! The options of a message in two parts (RFC 8613 section 4.1).
ghost use Rattle.std.specs.Prelude.{◌≡◌, [], ◌∷◌, MatchOption};
ghost use Rattle.std.specs.Iterator.{YieldsFirstBy, item_count};
ghost use Rattle.osc_options.specs.Split as spec;
ghost use Rattle.osc_options.specs.Inner.Merging as test;
ghost use Rattle.osc_coap.specs.{AreOptions};

use crate::numbers::OSCORE;
use crate::table::{Class, class_of};
use osc_coap::{MessageRef, Options};
use std::fmt;
use std::marker::Model;

/// Whether an option of this number stays outside.
fn is_outer(number: u16) -> bool
    ensures { result ≡ test.is_outer number }
{
    match class_of(number) {
        Class::U => number != OSCORE,
        Class::E => false,
    }
}

/// Whether an option of this number is encrypted.
fn is_inner(number: u16) -> bool
    ensures { result ≡ test.is_inner number }
{
    match class_of(number) {
        Class::U => false,
        Class::E => true,
    }
}

/// Takes options until one stays outside, which it returns.
fn take_outer<'a>(options: &mut Options<'a>) -> Option<(u16, &'a [u8])>
    ensures { MatchOption result
        ((spec.outer_options options.old ≡ []) × (spec.outer_options options.new ≡ []))
        (λ option. spec.outer_options options.old ≡ (option.0, option.1.now) ∷ spec.outer_options options.new) }
{
    while let Some((number, value)) = options.next() {
        if is_outer(number) {
            return Some((number, value));
        }
    }
    None
}

/// Takes options until one is encrypted, which it returns.
fn take_inner<'a>(options: &mut Options<'a>) -> Option<(u16, &'a [u8])>
    ensures { MatchOption result
        ((spec.inner_options options.old ≡ []) × (spec.inner_options options.new ≡ []))
        (λ option. spec.inner_options options.old ≡ (option.0, option.1.now) ∷ spec.inner_options options.new) }
{
    while let Some((number, value)) = options.next() {
        if is_inner(number) {
            return Some((number, value));
        }
    }
    None
}

/// The options of class U that are left, in order, but not OSCORE's own: number and value.
#[derive(Debug, Drop)]
pub struct OuterOptions<'a> {
    options: Options<'a>,
}

impl<'a> Model for OuterOptions<'a> {
    ghost use Rattle.std.specs.Prelude.{List};
    ghost use Rattle.osc_coap.specs.{NumberAndValue};
    ghost use Rattle.osc_options.specs.Split as spec;

    ghost Value = { List NumberAndValue };

    ghost view = { λ left. spec.outer_options left.options };

    ghost invariant = { λ left. spec.AreInOrder 0 (spec.outer_options left.options) };
}

impl<'a> OuterOptions<'a> {
    /// Their numbers don't fall.
    pub(crate) fn in_order(&self)
        ensures { spec.AreInOrder 0 self.now }
    {
        let _left = &self.options;
    }
}

impl<'a> Iterator for OuterOptions<'a> {
    type Item = (u16, &'a [u8]);

    ghost next_gives = { YieldsFirstBy (λ option. (option.0, option.1.now)) (λ options. options) };

    ghost remaining = { item_count (λ options. options) };

    fn next(&mut self) -> Option<(u16, &'a [u8])> {
        take_outer(&mut self.options)
    }
}

/// The options of class E that are left, in order: number and value.
#[derive(Drop)]
pub struct InnerOptions<'a> {
    options: Options<'a>,
}

// They are to be encrypted, or were, and aren't printed.
impl<'a> fmt::Debug for InnerOptions<'a> {
    fn fmt<W: fmt::Write>(&self, f: &mut fmt::Formatter<W>) -> fmt::Result {
        f.write_str("InnerOptions")
    }
}

impl<'a> Model for InnerOptions<'a> {
    ghost use Rattle.std.specs.Prelude.{List};
    ghost use Rattle.osc_coap.specs.{NumberAndValue};
    ghost use Rattle.osc_options.specs.Split as spec;

    ghost Value = { List NumberAndValue };

    ghost view = { λ left. spec.inner_options left.options };

    ghost invariant = { λ left. spec.AreInOrder 0 (spec.inner_options left.options) };
}

impl<'a> InnerOptions<'a> {
    /// Their numbers don't fall.
    pub(crate) fn in_order(&self)
        ensures { spec.AreInOrder 0 self.now }
    {
        let _left = &self.options;
    }
}

impl<'a> Iterator for InnerOptions<'a> {
    type Item = (u16, &'a [u8]);

    ghost next_gives = { YieldsFirstBy (λ option. (option.0, option.1.now)) (λ options. options) };

    ghost remaining = { item_count (λ options. options) };

    fn next(&mut self) -> Option<(u16, &'a [u8])> {
        take_inner(&mut self.options)
    }
}

/// Those of the options that stay outside.
pub(crate) fn outer_options<'a>(options: Options<'a>) -> OuterOptions<'a>
    requires { AreOptions 0 options }
    ensures { result ≡ spec.outer_options options.entry }
{
    OuterOptions { options }
}

/// Those of the options that are encrypted.
pub(crate) fn inner_options<'a>(options: Options<'a>) -> InnerOptions<'a>
    requires { AreOptions 0 options }
    ensures { result ≡ spec.inner_options options.entry }
{
    InnerOptions { options }
}

/// The two parts of a message's options.
#[derive(Debug, Drop)]
pub struct SplitOptions<'a> {
    pub outer: OuterOptions<'a>,
    pub inner: InnerOptions<'a>,
}

/// The options that stay outside and those that are encrypted.
pub fn split<'a>(message: &MessageRef<'a>) -> SplitOptions<'a>
    ensures outer { result.outer ≡ spec.outer_options message.now.options }
    ensures inner { result.inner ≡ spec.inner_options message.now.options }
{
    SplitOptions {
        outer: outer_options(message.options()),
        inner: inner_options(message.options()),
    }
}
