//! Settings of a proxy.
ghost use Rattle.std.specs.Prelude.{◌≢◌, IfErr, IfOk, MatchResult, codes};
ghost use Rattle.toml.specs.View.{items_view, table_view, view};
ghost use Rattle.osc_words.specs.Settings.Document.{StandsFor};
ghost use Rattle.osc_words.specs.Settings.Faults.{IsFaultOfProxy, IsItemFault, IsKeyFault, IsTargetFault, Lacks};
ghost use Rattle.osc_words.specs.Settings.Inner.Reading.{AllListedAt, AreTargetsRefused, IsItemRefused, IsRefusedAs, StandForAll};
ghost use Rattle.osc_words.specs.Settings.Settings.{AreProxySettings, IsTarget, IsTargetTable};
ghost use Rattle.osc_words.specs.declared.settings.proxy.ProxySettings.{ProxySettings as AnySettings};

use crate::settings::addresses::addresses_at;
use crate::settings::document::{
    address_at, document, host_at, items_at, only, port_at, untyped_at,
};
use crate::settings::error::{KeyFault, SettingsError};
use crate::settings::key::SettingsKey;
use osc_model::{Bytes, Peer};
use std::alloc::Global;
use toml::{Table, Value};

/// The keys of its settings.
const KEYS: [SettingsKey; 2] = [SettingsKey::Bind, SettingsKey::Target];

/// The keys of a target.
const TARGET_KEYS: [SettingsKey; 3] = [SettingsKey::Host, SettingsKey::Port, SettingsKey::To];

/// What a proxy is told.
#[derive(Debug, Drop)]
pub struct ProxySettings {
    /// The addresses and the ports that it receives on: `bind`, a text `A.B.C.D:PORT`, `[ADDRESS]:PORT` or `[ADDRESS%ZONE]:PORT`, the zone a
    /// number, or an array of 1 to 8 such texts.
    pub bind: Vec<Peer>,
    /// Whom it forwards to: a table `[[target]]` each.
    pub targets: Vec<TargetSetting>,
}

/// A server that a proxy forwards to.
#[derive(Debug, Drop)]
pub struct TargetSetting {
    /// The host by which requests name it: `host`, a text of 1 to 255 bytes.
    pub host: Bytes,
    /// The port by which they name it: `port`, from 1 to 65535.
    pub port: u16,
    /// Where it is: `to`, a text `A.B.C.D:PORT`, `[ADDRESS]:PORT` or `[ADDRESS%ZONE]:PORT`.
    pub to: Peer,
}

/// Reads the settings of a proxy: a document with the keys `bind` and `target` and no other, whose targets have the keys `host`,
/// `port` and `to` and no other.
///
/// # Errors
///
/// The first fault where the text is no such document, `bind` before `target`, and of a target `port` before `to` and `host`; and `Memory`
/// for lack of memory.
pub fn read_proxy_settings(alloc: Global, text: &str) -> Result<ProxySettings, SettingsError>
    ensures read { IfOk result (StandsFor AreProxySettings text.now) }
    ensures lacks { IfErr result (Lacks IsFaultOfProxy text.now) }
    ensures bad { IfErr result (λ error. error ≢ SettingsError.Memory → (settings : AnySettings) → ¬ StandsFor AreProxySettings text.now settings) }
{
    let table = document(alloc, text)?;
    settings_in(alloc, &table)
}

fn settings_in(alloc: Global, table: &Table) -> Result<ProxySettings, SettingsError>
    ensures { MatchResult result (AreProxySettings (table_view table.now)) (IsFaultOfProxy (table_view table.now)) }
{
    only(alloc, &KEYS, table)?;
    Ok(ProxySettings {
        bind: addresses_at(alloc, SettingsKey::Bind, table)?,
        targets: all_targets(alloc, table)?,
    })
}

fn all_targets(alloc: Global, table: &Table) -> Result<Vec<TargetSetting>, SettingsError>
    ensures { MatchResult result
        (AllListedAt (codes "target") IsTargetTable (table_view table.now))
        (AreTargetsRefused (table_view table.now)) }
{
    match items_at(SettingsKey::Target, table) {
        Some(values) => targets(alloc, values),
        None => Err(untyped_at(SettingsKey::Target, table)),
    }
}

fn targets(alloc: Global, values: &[Value]) -> Result<Vec<TargetSetting>, SettingsError>
    ensures { MatchResult result
        (StandForAll IsTargetTable (items_view values.now))
        (IsItemRefused (items_view values.now)) }
{
    let mut targets = Vec::with_capacity(alloc, values.len())?;
    for value in values {
        let number = targets.as_slice().len() + 1;
        targets.push(numbered(alloc, number, value)?)?;
    }
    Ok(targets)
}

// The target of this number, counted from 1.
fn numbered(alloc: Global, number: usize, value: &Value) -> Result<TargetSetting, SettingsError>
    ensures { MatchResult result (IsTargetTable (view value.now)) (IsRefusedAs number (IsItemFault (view value.now))) }
{
    match target(alloc, value) {
        Ok(target) => Ok(target),
        Err(error) => Err(error.in_target(number)),
    }
}

fn target(alloc: Global, value: &Value) -> Result<TargetSetting, SettingsError>
    ensures { MatchResult result (IsTargetTable (view value.now)) (IsKeyFault (IsItemFault (view value.now))) }
{
    match value.as_table() {
        Some(table) => target_in(alloc, table),
        None => Err(SettingsError::Key(KeyFault::Wrong(SettingsKey::Target))),
    }
}

fn target_in(alloc: Global, table: &Table) -> Result<TargetSetting, SettingsError>
    ensures { MatchResult result (IsTarget (table_view table.now)) (IsKeyFault (IsTargetFault (table_view table.now))) }
{
    only(alloc, &TARGET_KEYS, table)?;
    Ok(TargetSetting {
        port: port_at(SettingsKey::Port, table)?,
        to: address_at(alloc, SettingsKey::To, table, 1)?,
        host: host_at(alloc, SettingsKey::Host, table)?,
    })
}
