//! Two lists of options in one (RFC 8613 section 4.1).
ghost use Rattle.std.specs.Prelude.{◌≡◌, [], ◌∷◌, MatchOption, option_map};
ghost use Rattle.std.specs.Iterator.{YieldsFirstBy, item_count};
ghost use Rattle.osc_options.specs.Split as spec;
ghost use Rattle.osc_options.specs.Inner.Merging.{is_inner_next as spec_is_inner_next};
ghost use Rattle.osc_options.specs.MergedOptions.{behind_front, left_of};

use crate::numbers::OSCORE;
use crate::parts::{InnerOptions, OuterOptions};
use std::fmt;
use std::marker::Model;

/// Whether the option that is next, by the first outer and the first inner one, is no outer one.
fn is_inner_next(outer: &Option<(u16, &[u8])>, inner: &Option<(u16, &[u8])>) -> bool
    ensures { result ≡ spec_is_inner_next
        (option_map (λ option. (option.0, option.1.now)) outer.now)
        (option_map (λ option. (option.0, option.1.now)) inner.now) }
{
    match (outer, inner) {
        (None, _) => true,
        (Some(_), None) => false,
        (Some(outer), Some(inner)) => inner.0 < outer.0,
    }
}

/// Takes the first outer option, and looks at the one after it.
fn take_outer<'a>(
    front: &mut Option<(u16, &'a [u8])>,
    left: &mut OuterOptions<'a>,
) -> Option<(u16, &'a [u8])>
    ensures { MatchOption result
        ((behind_front (option_map (λ option. (option.0, option.1.now)) front.old) left.old ≡ [])
        × (behind_front (option_map (λ option. (option.0, option.1.now)) front.new) left.new ≡ []))
        (λ option. behind_front (option_map (λ option. (option.0, option.1.now)) front.old) left.old
        ≡ (option.0, option.1.now) ∷ behind_front (option_map (λ option. (option.0, option.1.now)) front.new) left.new) }
{
    let taken = (*front)?;
    *front = left.next();
    Some(taken)
}

/// The first of the inner options that are left.
fn next_inner<'a>(left: &mut Option<InnerOptions<'a>>) -> Option<(u16, &'a [u8])>
    ensures { MatchOption result
        ((left_of left.old ≡ []) × (left_of left.new ≡ []))
        (λ option. left_of left.old ≡ (option.0, option.1.now) ∷ left_of left.new) }
{
    match left {
        Some(options) => options.next(),
        None => None,
    }
}

/// Takes the first inner option, and looks at the one after it.
fn take_inner<'a>(
    front: &mut Option<(u16, &'a [u8])>,
    left: &mut Option<InnerOptions<'a>>,
) -> Option<(u16, &'a [u8])>
    ensures { MatchOption result
        ((behind_front (option_map (λ option. (option.0, option.1.now)) front.old) (left_of left.old) ≡ [])
        × (behind_front (option_map (λ option. (option.0, option.1.now)) front.new) (left_of left.new) ≡ []))
        (λ option. behind_front (option_map (λ option. (option.0, option.1.now)) front.old) (left_of left.old)
        ≡ (option.0, option.1.now) ∷ behind_front (option_map (λ option. (option.0, option.1.now)) front.new) (left_of left.new)) }
{
    let taken = (*front)?;
    *front = next_inner(left);
    Some(taken)
}

/// Outer and inner options that are left, in the order of their numbers: number and value. Of equal numbers the
/// outer option is first.
#[derive(Drop)]
pub struct Merged<'a> {
    /// The first outer option, and those after it.
    outer: Option<(u16, &'a [u8])>,
    outer_left: OuterOptions<'a>,
    /// The first inner option, and those after it.
    inner: Option<(u16, &'a [u8])>,
    inner_left: Option<InnerOptions<'a>>,
}

// They may be those of a plaintext, and aren't printed.
impl<'a> fmt::Debug for Merged<'a> {
    fn fmt<W: fmt::Write>(&self, f: &mut fmt::Formatter<W>) -> fmt::Result {
        f.write_str("Merged")
    }
}

impl<'a> Model for Merged<'a> {
    ghost use Rattle.std.specs.Prelude.{List};
    ghost use Rattle.osc_coap.specs.{NumberAndValue};

    ghost Value = { List NumberAndValue };

    ghost use Rattle.osc_options.specs.MergedOptions as merged;

    ghost view = { merged.view };

    ghost invariant = { merged.IsKept };
}

impl<'a> Iterator for Merged<'a> {
    type Item = (u16, &'a [u8]);

    ghost next_gives = { YieldsFirstBy (λ option. (option.0, option.1.now)) (λ options. options) };

    ghost remaining = { item_count (λ options. options) };

    fn next(&mut self) -> Option<(u16, &'a [u8])> {
        if is_inner_next(&self.outer, &self.inner) {
            take_inner(&mut self.inner, &mut self.inner_left)
        } else {
            take_outer(&mut self.outer, &mut self.outer_left)
        }
    }
}

/// The outer and the inner options, in the order of their numbers.
pub fn merge<'a>(outer: OuterOptions<'a>, inner: InnerOptions<'a>) -> Merged<'a>
    ensures { result ≡ spec.merge outer.entry inner.entry }
{
    outer.in_order();
    inner.in_order();
    let mut outer_left = outer;
    let mut inner_left = inner;
    Merged {
        outer: outer_left.next(),
        outer_left,
        inner: inner_left.next(),
        inner_left: Some(inner_left),
    }
}

/// The outer options, and OSCORE's own among them.
pub(crate) fn with_oscore<'a>(outer: OuterOptions<'a>, value: &'a [u8]) -> Merged<'a>
    ensures { result ≡ spec.merge outer.entry ((9, value.now) ∷ []) }
{
    outer.in_order();
    let mut outer_left = outer;
    Merged {
        outer: outer_left.next(),
        outer_left,
        inner: Some((OSCORE, value)),
        inner_left: None,
    }
}
