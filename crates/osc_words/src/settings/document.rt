//! What is in a document of TOML, key by key.
ghost use Rattle.std.specs.Prelude.{◌≡◌, ◌≤◌, ℕ, IfOk, MatchResult, None, Some, find, is_some, length, not, option_and_then, option_map, string_bytes};
ghost use Rattle.std.specs.BTreeMap.{keys as keys_of};
ghost use Rattle.std.specs.List.{list_any};
ghost use Rattle.std.specs.Str.{bytes_eq};
ghost use Rattle.toml.specs.Data.{as_array, as_bool, as_integer, get_member};
ghost use Rattle.toml.specs.Errors.{IsMemory, IsWithin};
ghost use Rattle.toml.specs.Parse.{parse_document};
ghost use Rattle.toml.specs.View.{items_view, table_view, view};
ghost use Rattle.osc_words.specs.Settings.Document as spec;
ghost use Rattle.osc_words.specs.Settings.Document.{IsAlgorithmAt, IsBooleanAt, IsLineOf, IsPortAt, IsSecondsAt, SpelledAt};
ghost use Rattle.osc_words.specs.Settings.Faults.{IsFaultAt, IsKeyFault, IsOther};
ghost use Rattle.osc_words.specs.Settings.Keys.{name_of};
ghost use Rattle.osc_words.specs.Settings.Inner.Reading as reading;
ghost use Rattle.osc_words.specs.Settings.Inner.Reading.{IsNoDocument, text_at};
ghost use Rattle.osc_words.specs.Settings.Values.{IsAddressFrom, IsFileName, IsHost, IsRevocationPath, SpellsBytes, SpellsHex};

use crate::settings::error::{KeyFault, SettingsError, ValueError};
use crate::settings::key::SettingsKey;
use crate::settings::store_file::StoreFile;
use crate::settings::values;
use osc_model::{Algorithm, Bytes, Path, Peer};
use std::alloc::{AllocError, Global};
use toml::{Table, Value};

/// The document of a text.
pub(crate) fn document(alloc: Global, text: &str) -> Result<Table, SettingsError>
    ensures { MatchResult result (λ table. parse_document text.now ≡ Some (table_view table)) (IsNoDocument text.now) }
{
    match toml::table_from_str(alloc, text) {
        Ok(table) => Ok(table),
        Err(error) => Err(no_document(text, &error)),
    }
}

// What is wrong with a text that this error of the parser is of.
fn no_document(text: &str, error: &toml::de::Error) -> SettingsError
    requires { IsWithin text.now error.now }
    ensures memory { IsMemory error.now → result ≡ SettingsError.Memory }
    ensures line { ¬ IsMemory error.now → (line : ℕ) × (result ≡ SettingsError.NotToml line) × IsLineOf text.now line }
{
    match error.span() {
        None => SettingsError::Memory,
        Some(span) => SettingsError::NotToml(line_at(text.as_bytes(), span.start)),
    }
}

/// The line of a place in a text, counted from 1.
pub fn line_at(text: &[u8], place: usize) -> usize
    requires { place ≤ length text.now }
    ensures { result ≡ spec.line_at text.now place }
{
    text[..place].iter().filter(|byte| **byte == b'\n').count() + 1
}

// ---- keys

/// Whether a table has no other keys.
pub(crate) fn only(alloc: Global, keys: &[SettingsKey], table: &Table) -> Result<(), SettingsError>
    ensures { MatchResult result (λ _. spec.other_key keys.now (table_view table.now) ≡ None) (IsKeyFault (IsOther keys.now (table_view table.now))) }
{
    match other_key(keys, table) {
        None => Ok(()),
        Some(name) => Err(unknown(alloc, name)?),
    }
}

fn unknown(alloc: Global, name: &str) -> Result<SettingsError, AllocError>
    ensures { IfOk result (λ error. error ≡ SettingsError.Key (KeyFault.Unknown name.now)) }
{
    let name = Bytes::from_slice(alloc, name.as_bytes())?;
    Ok(SettingsError::Key(KeyFault::Unknown(name)))
}

/// The first other key of a table.
pub(crate) fn other_key<'a>(keys: &[SettingsKey], table: &'a Table) -> Option<&'a str>
    ensures { option_map (λ name. name.now) result ≡ spec.other_key keys.now (table_view table.now) }
{
    match first_other(keys, table) {
        Some(name) => Some(name.as_str()),
        None => None,
    }
}

fn first_other<'a>(keys: &[SettingsKey], table: &'a Table) -> Option<&'a String>
    ensures { option_map (λ name. name.now) result
        ≡ find (λ name. not (list_any (λ key. bytes_eq (string_bytes name) (name_of key)) keys.now)) (keys_of table.now) }
{
    table.keys().find(|name| !is_one_of(keys, name.as_str()))
}

fn is_one_of(keys: &[SettingsKey], name: &str) -> bool
    ensures { result ≡ list_any (λ key. bytes_eq name.now (name_of key)) keys.now }
{
    keys.iter().any(|key| name == key.name())
}

/// Whether something is at a key.
pub(crate) fn has(key: SettingsKey, table: &Table) -> bool
    ensures { result ≡ is_some (get_member (name_of key) (table_view table.now)) }
{
    value_at(key, table).is_some()
}

// ---- values

/// The value at a key.
pub(crate) fn value_at<'a>(key: SettingsKey, table: &'a Table) -> Option<&'a Value>
    ensures { option_map (λ value. view value.now) result ≡ get_member (name_of key) (table_view table.now) }
{
    value_of(key.name(), table)
}

fn value_of<'a>(name: &str, table: &'a Table) -> Option<&'a Value>
    ensures { option_map (λ value. view value.now) result ≡ get_member name.now (table_view table.now) }
{
    table.get(name)
}

/// The text at a key.
pub(crate) fn text_at<'a>(key: SettingsKey, table: &'a Table) -> Option<&'a str>
    ensures { option_map (λ text. text.now) result ≡ text_at (name_of key) (table_view table.now) }
{
    value_at(key, table)?.as_str()
}

// The integer at a key.
fn integer_at(key: SettingsKey, table: &Table) -> Option<i64>
    ensures { result ≡ option_and_then as_integer (get_member (name_of key) (table_view table.now)) }
{
    value_at(key, table)?.as_integer()
}

// The boolean at a key.
fn bool_at(key: SettingsKey, table: &Table) -> Option<bool>
    ensures { result ≡ option_and_then as_bool (get_member (name_of key) (table_view table.now)) }
{
    value_at(key, table)?.as_bool()
}

/// The value that was read of what is at a key.
pub(crate) fn read_at<T: Drop>(
    key: SettingsKey,
    read: Result<T, ValueError>,
) -> Result<T, SettingsError>
    ensures { result ≡ reading.read_at key read }
{
    match read {
        Ok(value) => Ok(value),
        Err(error) => Err(error.at(key)),
    }
}

/// The fault of a key where nothing is, or nothing of its type.
pub(crate) fn untyped_at(key: SettingsKey, table: &Table) -> SettingsError
    ensures { result ≡ reading.untyped_at key (table_view table.now) }
{
    if has(key, table) {
        SettingsError::Key(KeyFault::Wrong(key))
    } else {
        SettingsError::Key(KeyFault::Missing(key))
    }
}

/// The address at a key.
pub(crate) fn address_at(
    alloc: Global,
    key: SettingsKey,
    table: &Table,
    least: u16,
) -> Result<Peer, SettingsError>
    ensures { MatchResult result (SpelledAt (name_of key) (IsAddressFrom least) (table_view table.now)) (IsKeyFault (IsFaultAt key (λ name. SpelledAt name (IsAddressFrom least)) (table_view table.now))) }
{
    match text_at(key, table) {
        Some(text) => read_at(key, values::address(alloc, text, least)),
        None => Err(untyped_at(key, table)),
    }
}

/// `N` bytes at a key.
pub(crate) fn array_at<const N: usize>(
    key: SettingsKey,
    table: &Table,
) -> Result<[u8; N], SettingsError>
    ensures { MatchResult result (SpelledAt (name_of key) (SpellsBytes N N) (table_view table.now)) (IsKeyFault (IsFaultAt key (λ name. SpelledAt name (SpellsBytes N N)) (table_view table.now))) }
{
    match text_at(key, table) {
        Some(text) => read_at(key, values::array(text)),
        None => Err(untyped_at(key, table)),
    }
}

/// The bytes at a key.
pub(crate) fn bytes_at(
    alloc: Global,
    key: SettingsKey,
    table: &Table,
) -> Result<Bytes, SettingsError>
    ensures { MatchResult result (SpelledAt (name_of key) SpellsHex (table_view table.now)) (IsKeyFault (IsFaultAt key (λ name. SpelledAt name SpellsHex) (table_view table.now))) }
{
    match text_at(key, table) {
        Some(text) => read_at(key, values::bytes(alloc, text)),
        None => Err(untyped_at(key, table)),
    }
}

/// From `least` to `most` bytes at a key.
pub(crate) fn bytes_within_at(
    alloc: Global,
    key: SettingsKey,
    table: &Table,
    least: usize,
    most: usize,
) -> Result<Bytes, SettingsError>
    ensures { MatchResult result
        (SpelledAt (name_of key) (SpellsBytes least most) (table_view table.now))
        (IsKeyFault (IsFaultAt key (λ name. SpelledAt name (SpellsBytes least most)) (table_view table.now))) }
{
    match text_at(key, table) {
        Some(text) => read_at(key, values::bytes_within(alloc, text, least, most)),
        None => Err(untyped_at(key, table)),
    }
}

/// The host at a key.
pub(crate) fn host_at(
    alloc: Global,
    key: SettingsKey,
    table: &Table,
) -> Result<Bytes, SettingsError>
    ensures { MatchResult result (SpelledAt (name_of key) IsHost (table_view table.now)) (IsKeyFault (IsFaultAt key (λ name. SpelledAt name IsHost) (table_view table.now))) }
{
    match text_at(key, table) {
        Some(text) => read_at(key, values::host(alloc, text)),
        None => Err(untyped_at(key, table)),
    }
}

/// The revocation path at a key.
pub(crate) fn revocation_path_at(
    alloc: Global,
    key: SettingsKey,
    table: &Table,
) -> Result<Path, SettingsError>
    ensures { MatchResult result (SpelledAt (name_of key) IsRevocationPath (table_view table.now)) (IsKeyFault (IsFaultAt key (λ name. SpelledAt name IsRevocationPath) (table_view table.now))) }
{
    match text_at(key, table) {
        Some(text) => read_at(key, values::revocation_path(alloc, text)),
        None => Err(untyped_at(key, table)),
    }
}

/// The file at a key.
pub(crate) fn store_file_at(
    alloc: Global,
    key: SettingsKey,
    table: &Table,
) -> Result<StoreFile, SettingsError>
    ensures { MatchResult result (SpelledAt (name_of key) IsFileName (table_view table.now)) (IsKeyFault (IsFaultAt key (λ name. SpelledAt name IsFileName) (table_view table.now))) }
{
    match text_at(key, table) {
        Some(text) => read_at(key, values::store_file(alloc, text)),
        None => Err(untyped_at(key, table)),
    }
}

/// The port at a key.
pub(crate) fn port_at(key: SettingsKey, table: &Table) -> Result<u16, SettingsError>
    ensures { MatchResult result (IsPortAt (name_of key) (table_view table.now)) (IsKeyFault (IsFaultAt key IsPortAt (table_view table.now))) }
{
    match integer_at(key, table) {
        Some(number) => read_at(key, values::port(number)),
        None => Err(untyped_at(key, table)),
    }
}

/// The seconds at a key.
pub(crate) fn seconds_at(key: SettingsKey, table: &Table) -> Result<u32, SettingsError>
    ensures { MatchResult result (IsSecondsAt (name_of key) (table_view table.now)) (IsKeyFault (IsFaultAt key IsSecondsAt (table_view table.now))) }
{
    match integer_at(key, table) {
        Some(number) => read_at(key, values::seconds(number)),
        None => Err(untyped_at(key, table)),
    }
}

/// The algorithm at a key.
pub(crate) fn algorithm_at(key: SettingsKey, table: &Table) -> Result<Algorithm, SettingsError>
    ensures { MatchResult result (IsAlgorithmAt (name_of key) (table_view table.now)) (IsKeyFault (IsFaultAt key IsAlgorithmAt (table_view table.now))) }
{
    match integer_at(key, table) {
        Some(number) => read_at(key, values::algorithm(number)),
        None => Err(untyped_at(key, table)),
    }
}

/// Whether it is so, by the boolean at a key.
pub(crate) fn boolean_at(key: SettingsKey, table: &Table) -> Result<bool, SettingsError>
    ensures { MatchResult result (IsBooleanAt (name_of key) (table_view table.now)) (IsKeyFault (IsFaultAt key IsBooleanAt (table_view table.now))) }
{
    match bool_at(key, table) {
        Some(value) => Ok(value),
        None => Err(untyped_at(key, table)),
    }
}

/// The items of the array at a key.
pub(crate) fn items_at<'a>(key: SettingsKey, table: &'a Table) -> Option<&'a [Value]>
    ensures { option_map (λ items. items_view items.now) result ≡ option_and_then as_array (get_member (name_of key) (table_view table.now)) }
{
    match value_at(key, table)?.as_array() {
        Some(items) => Some(items.as_slice()),
        None => None,
    }
}
