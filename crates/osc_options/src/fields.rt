//! The values that a request is made of, by option (RFC 7252 section 5.10).
ghost use Rattle.std.specs.Prelude.{◌≡◌, [], ◌∷◌, ◌++◌, List, take, map, IfOk, OnOk};
ghost use Rattle.std.specs.Option.{option_map, option_or};
ghost use Rattle.osc_coap.specs.{NumberAndValue};
ghost use Rattle.osc_options.specs.Requests.{value as value_in, values as values_in};
ghost use Rattle.osc_options.specs.Inner.Fields.{AreFieldsOf};

use crate::numbers::{ACCEPT, CONTENT_FORMAT, IF_MATCH, IF_NONE_MATCH, URI_PATH};
use crate::recognised::RecognisedOptions;
use arrayvec::ArrayVec;
use osc_model::ETags;
use std::alloc::{AllocError, Global};

/// Adds the value of a Uri-Path option, while there is room.
fn add_segment<'a>(segments: &mut ArrayVec<&'a [u8], 9>, number: u16, value: &'a [u8])
    ensures { (rest : List NumberAndValue)
        → take 9 (map (λ s. s.now) segments.new.items ++ values_in 11 rest)
        ≡ take 9 (map (λ s. s.now) segments.old.items ++ values_in 11 ((number, value.now) ∷ rest)) }
{
    if number != URI_PATH {
        return;
    }
    if segments.is_full() {
        return;
    }
    segments.push(value);
}

/// The value of the first option of the wanted number, among those that were known and this one.
pub(crate) fn first_of<'a>(
    known: Option<&'a [u8]>,
    wanted: u16,
    number: u16,
    value: &'a [u8],
) -> Option<&'a [u8]>
    ensures { (rest : List NumberAndValue)
        → option_or (option_map (λ v. v.now) result) (value_in wanted rest)
        ≡ option_or (option_map (λ v. v.now) known.entry) (value_in wanted ((number, value.now) ∷ rest)) }
{
    if known.is_some() {
        return known;
    }
    if number != wanted {
        return None;
    }
    Some(value)
}

/// The values that a request is made of.
#[derive(Drop)]
pub(crate) struct Fields<'a> {
    /// The first nine segments: a path has eight at most.
    pub(crate) segments: ArrayVec<&'a [u8], 9>,
    pub(crate) format: Option<&'a [u8]>,
    pub(crate) accept: Option<&'a [u8]>,
    pub(crate) if_match: ETags,
    pub(crate) if_none_match: Option<&'a [u8]>,
}

/// Adds an option; refused only without memory.
#[inline(always)]
pub(crate) fn add_field<'a>(
    alloc: Global,
    fields: &mut Fields<'a>,
    number: u16,
    value: &'a [u8],
) -> Result<(), AllocError>
    ensures segments { OnOk result ((rest : List NumberAndValue)
        → take 9 (map (λ s. s.now) fields.new.segments.items ++ values_in 11 rest)
        ≡ take 9 (map (λ s. s.now) fields.old.segments.items ++ values_in 11 ((number, value.now) ∷ rest))) }
    ensures format { OnOk result ((rest : List NumberAndValue)
        → option_or (option_map (λ v. v.now) fields.new.format) (value_in 12 rest)
        ≡ option_or (option_map (λ v. v.now) fields.old.format) (value_in 12 ((number, value.now) ∷ rest))) }
    ensures accept { OnOk result ((rest : List NumberAndValue)
        → option_or (option_map (λ v. v.now) fields.new.accept) (value_in 17 rest)
        ≡ option_or (option_map (λ v. v.now) fields.old.accept) (value_in 17 ((number, value.now) ∷ rest))) }
    ensures tags { OnOk result ((rest : List NumberAndValue)
        → fields.new.if_match ++ values_in 1 rest ≡ fields.old.if_match ++ values_in 1 ((number, value.now) ∷ rest)) }
    ensures none_match { OnOk result ((rest : List NumberAndValue)
        → option_or (option_map (λ v. v.now) fields.new.if_none_match) (value_in 5 rest)
        ≡ option_or (option_map (λ v. v.now) fields.old.if_none_match) (value_in 5 ((number, value.now) ∷ rest))) }
{
    match number {
        IF_MATCH => return fields.if_match.push(alloc, value),
        URI_PATH => add_segment(&mut fields.segments, number, value),
        CONTENT_FORMAT => fields.format = first_of(fields.format, number, number, value),
        ACCEPT => fields.accept = first_of(fields.accept, number, number, value),
        IF_NONE_MATCH => {
            fields.if_none_match = first_of(fields.if_none_match, number, number, value);
        }
        _ => {}
    }
    Ok(())
}

impl<'a> Fields<'a> {
    /// Those of no option.
    pub(crate) fn new(alloc: Global) -> Fields<'a>
        ensures { AreFieldsOf [] result }
    {
        Fields {
            segments: ArrayVec::new(),
            format: None,
            accept: None,
            if_match: ETags::new(alloc),
            if_none_match: None,
        }
    }
}

/// The values that a request is made of, in one pass over the options; refused only without memory.
pub(crate) fn fields_of<'a>(
    alloc: Global,
    options: RecognisedOptions<'a>,
) -> Result<Fields<'a>, AllocError>
    ensures { IfOk result (λ fields. AreFieldsOf options.entry fields) }
{
    let mut fields = Fields::new(alloc);
    for (number, value) in options {
        add_field(alloc, &mut fields, number, value)?;
    }
    Ok(fields)
}
