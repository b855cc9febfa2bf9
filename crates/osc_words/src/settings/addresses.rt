//! The addresses that a server or a proxy receives on.
ghost use Rattle.std.specs.Prelude.{MatchResult};
ghost use Rattle.toml.specs.View.{items_view, table_view, view};
ghost use Rattle.osc_words.specs.Settings.Document.{StandForEach};
ghost use Rattle.osc_words.specs.Settings.Faults.{IsFaultAt, IsKeyFault};
ghost use Rattle.osc_words.specs.Settings.Inner.Reading.{IsRefusal, StandForAll};
ghost use Rattle.osc_words.specs.Settings.Keys.{name_of};
ghost use Rattle.osc_words.specs.Settings.Settings.{AreAddressTexts, AreAddresses, AreAddressesAt, IsAddressText, IsAlone};

use crate::settings::document::{read_at, value_at};
use crate::settings::error::{KeyFault, SettingsError, ValueError};
use crate::settings::key::SettingsKey;
use crate::settings::values;
use osc_model::Peer;
use std::alloc::Global;
use toml::{Table, Value};

/// The most addresses that a server or a proxy receives on.
pub const MOST_ADDRESSES: usize = 8;

/// The addresses at a key: the text of one, or an array of texts.
pub(crate) fn addresses_at(
    alloc: Global,
    key: SettingsKey,
    table: &Table,
) -> Result<Vec<Peer>, SettingsError>
    ensures { MatchResult result
        (λ peers. AreAddressesAt (name_of key) (table_view table.now) peers.items)
        (IsKeyFault (IsFaultAt key AreAddressesAt (table_view table.now))) }
{
    match value_at(key, table) {
        Some(value) => read_at(key, addresses(alloc, value)),
        None => Err(SettingsError::Key(KeyFault::Missing(key))),
    }
}

fn addresses(alloc: Global, value: &Value) -> Result<Vec<Peer>, ValueError>
    ensures { MatchResult result
        (λ peers. AreAddresses (view value.now) peers.items)
        (IsRefusal (AreAddresses (view value.now))) }
{
    match value.as_array() {
        Some(values) => few(alloc, values.as_slice()),
        None => alone(alloc, value),
    }
}

// The one address of a text.
fn alone(alloc: Global, value: &Value) -> Result<Vec<Peer>, ValueError>
    ensures { MatchResult result
        (λ peers. IsAlone (view value.now) peers.items)
        (IsRefusal (IsAlone (view value.now))) }
{
    let peer = address(alloc, value)?;
    Ok(vec![in alloc; peer]?)
}

fn few(alloc: Global, values: &[Value]) -> Result<Vec<Peer>, ValueError>
    ensures { MatchResult result
        (λ peers. AreAddressTexts (items_view values.now) peers.items)
        (IsRefusal (AreAddressTexts (items_view values.now))) }
{
    if values.is_empty() || values.len() > MOST_ADDRESSES {
        return Err(ValueError::Bad);
    }
    all(alloc, values)
}

fn all(alloc: Global, values: &[Value]) -> Result<Vec<Peer>, ValueError>
    ensures { MatchResult result
        (StandForAll IsAddressText (items_view values.now))
        (IsRefusal (StandForEach IsAddressText (items_view values.now))) }
{
    let mut peers = Vec::with_capacity(alloc, values.len())?;
    for value in values {
        peers.push(address(alloc, value)?)?;
    }
    Ok(peers)
}

fn address(alloc: Global, value: &Value) -> Result<Peer, ValueError>
    ensures { MatchResult result (IsAddressText (view value.now)) (IsRefusal (IsAddressText (view value.now))) }
{
    match value.as_str() {
        Some(text) => values::address(alloc, text, 1),
        None => Err(ValueError::Bad),
    }
}
