//! Settings of a client.
ghost use Rattle.std.specs.Prelude.{◌≢◌, IfErr, IfOk, MatchResult, codes};
ghost use Rattle.toml.specs.View.{table_view};
ghost use Rattle.osc_words.specs.Settings.Document.{IsAlgorithmAt, IsPortAt, MaySpellAt, SpelledAt, StandsFor};
ghost use Rattle.osc_words.specs.Settings.Faults.{IsClientFault, IsKeyFault, IsOriginFault, IsWrongAt, Lacks};
ghost use Rattle.osc_words.specs.Settings.Settings.{AreClientSettings, IsClientAlgorithm, IsOrigin, IsOriginPort, IsSalt};
ghost use Rattle.osc_words.specs.Settings.Values.{SpellsBytes};
ghost use Rattle.osc_words.specs.declared.settings.key.SettingsKey.TheVariants as AnyKey;
ghost use Rattle.osc_words.specs.declared.settings.client.ClientSettings.{ClientSettings as AnySettings};

use crate::settings::document::{
    address_at, algorithm_at, bytes_at, bytes_within_at, document, has, host_at, only, port_at,
};
use crate::settings::error::{KeyFault, SettingsError};
use crate::settings::key::SettingsKey;
use osc_model::limits::{DEFAULT_PORT, LONGEST_PART};
use osc_model::{Algorithm, Bytes, Peer};
use std::alloc::Global;
use std::fmt;
use toml::Table;

/// The keys of its settings.
const KEYS: [SettingsKey; 9] = [
    SettingsKey::Alg,
    SettingsKey::Bind,
    SettingsKey::Context,
    SettingsKey::Host,
    SettingsKey::Peer,
    SettingsKey::Port,
    SettingsKey::Salt,
    SettingsKey::Secret,
    SettingsKey::Token,
];

/// What a client is told.
#[derive(Drop)]
pub struct ClientSettings {
    /// The address and the port that it receives on: `bind`, a text `A.B.C.D:PORT`, `[ADDRESS]:PORT` or `[ADDRESS%ZONE]:PORT`. The system picks the number of a port of 0.
    pub bind: Peer,
    /// To whom it sends, the server or a proxy: `peer`, a text `A.B.C.D:PORT`, `[ADDRESS]:PORT` or `[ADDRESS%ZONE]:PORT`.
    pub peer: Peer,
    /// Where it sends through a proxy, the host and the port by which the proxy knows the server: `host`, a text of 1 to 255 bytes,
    /// and `port`, from 1 to 65535, which is 5683 where it is left out.
    pub origin: Option<(Bytes, u16)>,
    /// The token that it posts: `token`, bytes in hexadecimal.
    pub token: Bytes,
    /// The master secret of the token's input material: `secret`, 1 to 64 bytes in hexadecimal.
    pub secret: Bytes,
    /// Its salt: `salt`, at most 64 bytes in hexadecimal, and empty where it is left out.
    pub salt: Bytes,
    /// Its id context: `context`, at most 64 bytes in hexadecimal, and none where it is left out.
    pub context: Option<Bytes>,
    /// Its algorithm: `alg`, the number 10 or 30, and 10 where it is left out.
    pub alg: Algorithm,
}

// The token and the secret aren't printed.
impl fmt::Debug for ClientSettings {
    fn fmt<W: fmt::Write>(&self, f: &mut fmt::Formatter<W>) -> fmt::Result {
        f.write_str("ClientSettings")
    }
}

/// Reads the settings of a client: a document with the keys `bind`, `peer`, `token` and `secret`, if need be with `host`, `port` beside
/// it, `salt`, `context` and `alg`, and with no other.
///
/// # Errors
///
/// The first fault where the text is no such document, `bind` before `peer`, `port`, `host`, `token`, `secret`, `salt`, `context` and `alg`,
/// and `Memory` for lack of memory.
pub fn read_client_settings(alloc: Global, text: &str) -> Result<ClientSettings, SettingsError>
    ensures read { IfOk result (StandsFor AreClientSettings text.now) }
    ensures lacks { IfErr result (Lacks (λ document. IsKeyFault (IsClientFault document)) text.now) }
    ensures bad { IfErr result (λ error. error ≢ SettingsError.Memory → (settings : AnySettings) → ¬ StandsFor AreClientSettings text.now settings) }
{
    let table = document(alloc, text)?;
    settings_in(alloc, &table)
}

fn settings_in(alloc: Global, table: &Table) -> Result<ClientSettings, SettingsError>
    ensures { MatchResult result (AreClientSettings (table_view table.now)) (IsKeyFault (IsClientFault (table_view table.now))) }
{
    only(alloc, &KEYS, table)?;
    Ok(ClientSettings {
        bind: address_at(alloc, SettingsKey::Bind, table, 0)?,
        peer: address_at(alloc, SettingsKey::Peer, table, 1)?,
        origin: origin(alloc, table)?,
        token: bytes_at(alloc, SettingsKey::Token, table)?,
        secret: bytes_within_at(alloc, SettingsKey::Secret, table, 1, LONGEST_PART)?,
        salt: salt(alloc, table)?,
        context: context(alloc, table)?,
        alg: algorithm(table)?,
    })
}

fn origin(alloc: Global, table: &Table) -> Result<Option<(Bytes, u16)>, SettingsError>
    ensures { MatchResult result (IsOrigin (table_view table.now)) (IsKeyFault (IsOriginFault (table_view table.now))) }
{
    if has(SettingsKey::Host, table) {
        let port = origin_port(table)?;
        Ok(Some((host_at(alloc, SettingsKey::Host, table)?, port)))
    } else if has(SettingsKey::Port, table) {
        Err(SettingsError::Key(KeyFault::Missing(SettingsKey::Host)))
    } else {
        Ok(None)
    }
}

fn origin_port(table: &Table) -> Result<u16, SettingsError>
    ensures { MatchResult result (IsOriginPort (table_view table.now)) (IsKeyFault (IsWrongAt AnyKey.Port IsPortAt (table_view table.now))) }
{
    if has(SettingsKey::Port, table) {
        port_at(SettingsKey::Port, table)
    } else {
        Ok(DEFAULT_PORT)
    }
}

fn salt(alloc: Global, table: &Table) -> Result<Bytes, SettingsError>
    ensures { MatchResult result (IsSalt (table_view table.now)) (IsKeyFault (IsWrongAt AnyKey.Salt (λ name. SpelledAt name (SpellsBytes 0 64)) (table_view table.now))) }
{
    if has(SettingsKey::Salt, table) {
        bytes_within_at(alloc, SettingsKey::Salt, table, 0, LONGEST_PART)
    } else {
        Ok(Bytes::new(alloc))
    }
}

fn context(alloc: Global, table: &Table) -> Result<Option<Bytes>, SettingsError>
    ensures { MatchResult result
        (MaySpellAt (codes "context") (SpellsBytes 0 64) (table_view table.now))
        (IsKeyFault (IsWrongAt AnyKey.Context (λ name. SpelledAt name (SpellsBytes 0 64)) (table_view table.now))) }
{
    if has(SettingsKey::Context, table) {
        Ok(Some(bytes_within_at(alloc, SettingsKey::Context, table, 0, LONGEST_PART)?))
    } else {
        Ok(None)
    }
}

fn algorithm(table: &Table) -> Result<Algorithm, SettingsError>
    ensures { MatchResult result (IsClientAlgorithm (table_view table.now)) (IsKeyFault (IsWrongAt AnyKey.Alg IsAlgorithmAt (table_view table.now))) }
{
    if has(SettingsKey::Alg, table) {
        algorithm_at(SettingsKey::Alg, table)
    } else {
        Ok(Algorithm::EightByteTag)
    }
}
