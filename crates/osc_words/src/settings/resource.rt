//! The resources that a server has at first.
ghost use Rattle.std.specs.Prelude.{MatchResult, Some, None, codes, option_map};
ghost use Rattle.osc_model.specs.{most_resources};
ghost use Rattle.toml.specs.View.{items_view, table_view, view};
ghost use Rattle.osc_words.specs.Settings.Faults.{IsFaultAt, IsKeyFault, IsWrongAt};
ghost use Rattle.osc_words.specs.Settings.Inner.Reading.{IsRefusal, StandForAll, StandForFew};
ghost use Rattle.osc_words.specs.Settings.Document.{StandForEach};
ghost use Rattle.osc_words.specs.Settings.Settings.{AreResources, AreResourcesAt, IsContentOf, IsFormatOf, IsPathOf, IsResource, IsResourceTable};
ghost use Rattle.osc_words.specs.declared.settings.key.SettingsKey.TheVariants as AnyKey;

use crate::settings::document::{has, items_at, other_key, read_at, untyped_at, value_at};
use crate::settings::error::{SettingsError, ValueError};
use crate::settings::key::SettingsKey;
use crate::settings::values;
use osc_model::limits::{LONGEST_PAYLOAD, MOST_RESOURCES};
use osc_model::{Bytes, Path};
use std::alloc::Global;
use toml::{Table, Value};

/// The keys of a resource.
const KEYS: [SettingsKey; 4] = [
    SettingsKey::Format,
    SettingsKey::Hex,
    SettingsKey::Path,
    SettingsKey::Text,
];

/// A resource that a server has at first.
#[derive(Debug, Drop)]
pub struct ResourceSetting {
    /// Its path: `path`, a text.
    pub path: Path,
    /// Its Content-Format: `format`, from 0 to 65535, and none where it is left out.
    pub format: Option<u16>,
    /// Its payload, of at most 512 bytes: `text`, a text as it is, or `hex`, bytes in hexadecimal.
    pub payload: Bytes,
}

/// The resources of a server's settings; there are none where they are left out.
pub(crate) fn resources(alloc: Global, table: &Table) -> Result<Vec<ResourceSetting>, SettingsError>
    ensures { MatchResult result
        (λ resources. AreResources (table_view table.now) resources.items)
        (IsKeyFault (IsWrongAt AnyKey.Resource AreResourcesAt (table_view table.now))) }
{
    if has(SettingsKey::Resource, table) {
        listed(alloc, table)
    } else {
        Ok(Vec::new(alloc))
    }
}

fn listed(alloc: Global, table: &Table) -> Result<Vec<ResourceSetting>, SettingsError>
    ensures { MatchResult result
        (λ resources. AreResourcesAt (codes "resource") (table_view table.now) resources.items)
        (IsKeyFault (IsFaultAt AnyKey.Resource AreResourcesAt (table_view table.now))) }
{
    match items_at(SettingsKey::Resource, table) {
        Some(values) => read_at(SettingsKey::Resource, few(alloc, values)),
        None => Err(untyped_at(SettingsKey::Resource, table)),
    }
}

fn few(alloc: Global, values: &[Value]) -> Result<Vec<ResourceSetting>, ValueError>
    ensures { MatchResult result
        (λ resources. StandForFew most_resources IsResourceTable (items_view values.now) resources.items)
        (IsRefusal (StandForFew most_resources IsResourceTable (items_view values.now))) }
{
    if values.len() > MOST_RESOURCES {
        return Err(ValueError::Bad);
    }
    all(alloc, values)
}

fn all(alloc: Global, values: &[Value]) -> Result<Vec<ResourceSetting>, ValueError>
    ensures { MatchResult result
        (StandForAll IsResourceTable (items_view values.now))
        (IsRefusal (StandForEach IsResourceTable (items_view values.now))) }
{
    let mut resources = Vec::with_capacity(alloc, values.len())?;
    for value in values {
        resources.push(resource(alloc, value)?)?;
    }
    Ok(resources)
}

fn resource(alloc: Global, value: &Value) -> Result<ResourceSetting, ValueError>
    ensures { MatchResult result (IsResourceTable (view value.now)) (IsRefusal (IsResourceTable (view value.now))) }
{
    match value.as_table() {
        Some(table) => resource_in(alloc, table),
        None => Err(ValueError::Bad),
    }
}

fn resource_in(alloc: Global, table: &Table) -> Result<ResourceSetting, ValueError>
    ensures { MatchResult result (IsResource (table_view table.now)) (IsRefusal (IsResource (table_view table.now))) }
{
    if other_key(&KEYS, table).is_some() {
        return Err(ValueError::Bad);
    }
    let text = value_at(SettingsKey::Text, table);
    let hex = value_at(SettingsKey::Hex, table);
    Ok(ResourceSetting {
        path: path_of(alloc, value_at(SettingsKey::Path, table))?,
        format: format_of(value_at(SettingsKey::Format, table))?,
        payload: content_of(alloc, text, hex)?,
    })
}

// ---- one key

fn path_of(alloc: Global, found: Option<&Value>) -> Result<Path, ValueError>
    ensures { MatchResult result
        (IsPathOf (option_map (λ value. view value.now) found.entry))
        (IsRefusal (IsPathOf (option_map (λ value. view value.now) found.entry))) }
{
    match found {
        Some(value) => text_path(alloc, value),
        None => Err(ValueError::Bad),
    }
}

fn text_path(alloc: Global, value: &Value) -> Result<Path, ValueError>
    ensures { MatchResult result (IsPathOf (Some (view value.now))) (IsRefusal (IsPathOf (Some (view value.now)))) }
{
    match value.as_str() {
        Some(text) => values::path(alloc, text),
        None => Err(ValueError::Bad),
    }
}

fn format_of(found: Option<&Value>) -> Result<Option<u16>, ValueError>
    ensures { MatchResult result
        (IsFormatOf (option_map (λ value. view value.now) found.entry))
        (IsRefusal (IsFormatOf (option_map (λ value. view value.now) found.entry))) }
{
    let Some(value) = found else {
        return Ok(None);
    };
    match value.as_integer() {
        Some(number) if 0 <= number && number <= 65535 => Ok(Some(number as u16)),
        _ => Err(ValueError::Bad),
    }
}

fn content_of(alloc: Global, text: Option<&Value>, hex: Option<&Value>) -> Result<Bytes, ValueError>
    ensures { MatchResult result
        (IsContentOf (option_map (λ value. view value.now) text.entry) (option_map (λ value. view value.now) hex.entry))
        (IsRefusal (IsContentOf (option_map (λ value. view value.now) text.entry) (option_map (λ value. view value.now) hex.entry))) }
{
    match (text, hex) {
        (Some(value), None) => text_content(alloc, value),
        (None, Some(value)) => hex_content(alloc, value),
        (Some(_), Some(_)) | (None, None) => Err(ValueError::Bad),
    }
}

fn text_content(alloc: Global, value: &Value) -> Result<Bytes, ValueError>
    ensures { MatchResult result
        (IsContentOf (Some (view value.now)) None)
        (IsRefusal (IsContentOf (Some (view value.now)) None)) }
{
    match value.as_str() {
        Some(text) if text.len() <= LONGEST_PAYLOAD => Ok(Bytes::from_slice(
            alloc,
            text.as_bytes(),
        )?),
        _ => Err(ValueError::Bad),
    }
}

fn hex_content(alloc: Global, value: &Value) -> Result<Bytes, ValueError>
    ensures { MatchResult result
        (IsContentOf None (Some (view value.now)))
        (IsRefusal (IsContentOf None (Some (view value.now)))) }
{
    match value.as_str() {
        Some(text) => values::bytes_within(alloc, text, 0, LONGEST_PAYLOAD),
        None => Err(ValueError::Bad),
    }
}
