//! Settings of a server.
ghost use Rattle.std.specs.Prelude.{◌≢◌, ◌↔◌, IfErr, IfOk, IsTrue, MatchResult, codes};
ghost use Rattle.toml.specs.View.{items_view, table_view, view};
ghost use Rattle.osc_words.specs.Settings.Document.{IsBooleanAt, IsSecondsAt, ListedAt, MayBeSecondsAt, MaySpellAt, SpelledAt, StandForEach, StandsFor};
ghost use Rattle.osc_words.specs.Settings.Faults.{IsFaultAt, IsKeyFault, IsServerFault, IsStoreDiskFault, IsTextAt, IsWrongAt, Lacks};
ghost use Rattle.osc_words.specs.Settings.Inner.Reading.{AllListedAt, IsRefusal, StandForAll};
ghost use Rattle.osc_words.specs.Settings.Settings.{AreServerSettings, IsPathText, IsStoreDisk, IsSubtrees, IsWhole};
ghost use Rattle.osc_words.specs.Settings.Values.{IsFileName, IsRevocationPath, SpellsBytes};
ghost use Rattle.osc_words.specs.declared.settings.key.SettingsKey.TheVariants as AnyKey;
ghost use Rattle.osc_words.specs.declared.settings.server.ServerSettings.{ServerSettings as AnySettings};

use crate::settings::addresses::addresses_at;
use crate::settings::document::{
    array_at, boolean_at, bytes_within_at, document, has, items_at, only, read_at,
    revocation_path_at, seconds_at, store_file_at, text_at, untyped_at,
};
use crate::settings::error::{KeyFault, SettingsError, ValueError};
use crate::settings::key::SettingsKey;
use crate::settings::resource::{ResourceSetting, resources};
use crate::settings::revoked::revoked_ids;
use crate::settings::store_file::{StoreDisk, StoreFile};
use crate::settings::values;
use osc_model::limits::LONGEST_ID;
use osc_model::{Bytes, Path, Peer};
use osc_token::Audience;
use std::alloc::Global;
use std::fmt;
use toml::{Table, Value};

/// The keys of its settings.
const KEYS: [SettingsKey; 13] = [
    SettingsKey::Audience,
    SettingsKey::Bind,
    SettingsKey::ContextSeconds,
    SettingsKey::Key,
    SettingsKey::OldKey,
    SettingsKey::Open,
    SettingsKey::ReservedId,
    SettingsKey::Resource,
    SettingsKey::Revoked,
    SettingsKey::RevokedIds,
    SettingsKey::Store,
    SettingsKey::StoreDisk,
    SettingsKey::Subtrees,
];

/// What a server is told.
#[derive(Drop)]
pub struct ServerSettings {
    /// The addresses and the ports that it receives on: `bind`, a text `A.B.C.D:PORT`, `[ADDRESS]:PORT` or `[ADDRESS%ZONE]:PORT`, the zone a
    /// number, or an array of 1 to 8 such texts.
    pub bind: Vec<Peer>,
    /// The key that it shares with those who issue tokens: `key`, 16 bytes in hexadecimal.
    pub key: [u8; 16],
    /// Its former key, at a change of key: `old_key`, 16 bytes in hexadecimal. It may be left out.
    pub old_key: Option<[u8; 16]>,
    /// Its name in tokens: `audience`, a text.
    pub audience: Audience,
    /// The paths whose resources everyone may GET: `open`, an array of their texts.
    pub open: Vec<Path>,
    /// What it has at first: a table `[[resource]]` each, at most 1024. Of several with one path the last counts.
    pub resources: Vec<ResourceSetting>,
    /// The path below which resources revoke tokens, by the tokens' ids: `revoked`, a text of at most 4 segments. It may be left out.
    pub revoked: Option<Path>,
    /// The ids whose tokens are revoked at each start, by a resource below that path: `revoked_ids`, an array of at most 64 texts, each of at most 64
    /// bytes in hexadecimal. It may be left out, and is where `revoked` is.
    pub revoked_ids: Vec<Bytes>,
    /// How many seconds after the post that made it a security context counts no more: `context_seconds`, from 1 to 4294967295. Left out: as
    /// long as its token does.
    pub context_seconds: Option<u32>,
    /// The id of a token for which a place is kept, that of the owner: `reserved_id`, at most 64 bytes in hexadecimal. It may be left out.
    pub reserved_id: Option<Bytes>,
    /// Whether the scope of a token may reach what is below its paths: `subtrees`, true or false. Left out: it may.
    pub subtrees: bool,
    /// The file of its store: `store`, the name of a file. Left out: its resources end with the process.
    pub store: Option<StoreFile>,
    /// What its owner says of the disk of its store: `store_disk`, the text `whole-sectors`. Left out: nothing is supposed of it. It is where
    /// `store` is.
    pub store_disk: StoreDisk,
}

// The key isn't printed.
impl fmt::Debug for ServerSettings {
    fn fmt<W: fmt::Write>(&self, f: &mut fmt::Formatter<W>) -> fmt::Result {
        f.write_str("ServerSettings")
    }
}

/// Reads the settings of a server: a document with the keys `bind`, `key`, `audience` and `open`, if need be with `old_key`,
/// `revoked`, `revoked_ids` beside it, `context_seconds`, `reserved_id`, `subtrees`, `store`, `store_disk` and `resource`, and with no other. A resource has the keys `path`, and `text` or `hex`, if need be `format`, and no other.
///
/// # Errors
///
/// The first fault where the text is no such document, `bind` before `key`, `old_key`, `audience`, `open`, `revoked`,
/// `revoked_ids`, `context_seconds`, `reserved_id`, `subtrees`, `store`, `store_disk` and `resource`, and `Memory` for lack of memory.
pub fn read_server_settings(alloc: Global, text: &str) -> Result<ServerSettings, SettingsError>
    ensures read { IfOk result (StandsFor AreServerSettings text.now) }
    ensures lacks { IfErr result (Lacks (λ document. IsKeyFault (IsServerFault document)) text.now) }
    ensures bad { IfErr result (λ error. error ≢ SettingsError.Memory → (settings : AnySettings) → ¬ StandsFor AreServerSettings text.now settings) }
{
    let table = document(alloc, text)?;
    settings_in(alloc, &table)
}

fn settings_in(alloc: Global, table: &Table) -> Result<ServerSettings, SettingsError>
    ensures { MatchResult result (AreServerSettings (table_view table.now)) (IsKeyFault (IsServerFault (table_view table.now))) }
{
    only(alloc, &KEYS, table)?;
    let bind = addresses_at(alloc, SettingsKey::Bind, table)?;
    let key = array_at(SettingsKey::Key, table)?;
    let old_key = old_key(table)?;
    let audience = audience(alloc, table)?;
    let open = open_paths(alloc, table)?;
    let revoked = revoked(alloc, table)?;
    let revoked_ids = revoked_ids(alloc, revoked.as_ref(), table)?;
    Ok(ServerSettings {
        bind,
        key,
        old_key,
        audience,
        open,
        revoked,
        revoked_ids,
        context_seconds: context_seconds(table)?,
        reserved_id: reserved_id(alloc, table)?,
        subtrees: subtrees(table)?,
        store: store(alloc, table)?,
        store_disk: store_disk(table)?,
        resources: resources(alloc, table)?,
    })
}

fn audience(alloc: Global, table: &Table) -> Result<Audience, SettingsError>
    ensures { MatchResult result
        (IsTextAt (codes "audience") (table_view table.now))
        (IsKeyFault (IsFaultAt AnyKey.Audience IsTextAt (table_view table.now))) }
{
    match text_at(SettingsKey::Audience, table) {
        Some(text) => Ok(Audience::new(alloc, text)?),
        None => Err(untyped_at(SettingsKey::Audience, table)),
    }
}

fn open_paths(alloc: Global, table: &Table) -> Result<Vec<Path>, SettingsError>
    ensures { MatchResult result
        (AllListedAt (codes "open") IsPathText (table_view table.now))
        (IsKeyFault (IsFaultAt AnyKey.Open (λ name. ListedAt name IsPathText) (table_view table.now))) }
{
    match items_at(SettingsKey::Open, table) {
        Some(values) => read_at(SettingsKey::Open, paths(alloc, values)),
        None => Err(untyped_at(SettingsKey::Open, table)),
    }
}

fn old_key(table: &Table) -> Result<Option<[u8; 16]>, SettingsError>
    ensures { MatchResult result
        (MaySpellAt (codes "old_key") (SpellsBytes 16 16) (table_view table.now))
        (IsKeyFault (IsWrongAt AnyKey.OldKey (λ name. SpelledAt name (SpellsBytes 16 16)) (table_view table.now))) }
{
    if has(SettingsKey::OldKey, table) {
        Ok(Some(array_at(SettingsKey::OldKey, table)?))
    } else {
        Ok(None)
    }
}

fn revoked(alloc: Global, table: &Table) -> Result<Option<Path>, SettingsError>
    ensures { MatchResult result
        (MaySpellAt (codes "revoked") IsRevocationPath (table_view table.now))
        (IsKeyFault (IsWrongAt AnyKey.Revoked (λ name. SpelledAt name IsRevocationPath) (table_view table.now))) }
{
    if has(SettingsKey::Revoked, table) {
        Ok(Some(revocation_path_at(alloc, SettingsKey::Revoked, table)?))
    } else {
        Ok(None)
    }
}

fn context_seconds(table: &Table) -> Result<Option<u32>, SettingsError>
    ensures { MatchResult result
        (MayBeSecondsAt (codes "context_seconds") (table_view table.now))
        (IsKeyFault (IsWrongAt AnyKey.ContextSeconds IsSecondsAt (table_view table.now))) }
{
    if has(SettingsKey::ContextSeconds, table) {
        Ok(Some(seconds_at(SettingsKey::ContextSeconds, table)?))
    } else {
        Ok(None)
    }
}

fn reserved_id(alloc: Global, table: &Table) -> Result<Option<Bytes>, SettingsError>
    ensures { MatchResult result
        (MaySpellAt (codes "reserved_id") (SpellsBytes 0 64) (table_view table.now))
        (IsKeyFault (IsWrongAt AnyKey.ReservedId (λ name. SpelledAt name (SpellsBytes 0 64)) (table_view table.now))) }
{
    if has(SettingsKey::ReservedId, table) {
        Ok(Some(bytes_within_at(alloc, SettingsKey::ReservedId, table, 0, LONGEST_ID)?))
    } else {
        Ok(None)
    }
}

fn subtrees(table: &Table) -> Result<bool, SettingsError>
    ensures { MatchResult result (IsSubtrees (table_view table.now)) (IsKeyFault (IsWrongAt AnyKey.Subtrees IsBooleanAt (table_view table.now))) }
{
    if has(SettingsKey::Subtrees, table) {
        boolean_at(SettingsKey::Subtrees, table)
    } else {
        Ok(true)
    }
}

fn store(alloc: Global, table: &Table) -> Result<Option<StoreFile>, SettingsError>
    ensures { MatchResult result
        (MaySpellAt (codes "store") IsFileName (table_view table.now))
        (IsKeyFault (IsWrongAt AnyKey.Store (λ name. SpelledAt name IsFileName) (table_view table.now))) }
{
    if has(SettingsKey::Store, table) {
        Ok(Some(store_file_at(alloc, SettingsKey::Store, table)?))
    } else {
        Ok(None)
    }
}

fn store_disk(table: &Table) -> Result<StoreDisk, SettingsError>
    ensures { MatchResult result (IsStoreDisk (table_view table.now)) (IsKeyFault (IsStoreDiskFault (table_view table.now))) }
{
    if !has(SettingsKey::StoreDisk, table) {
        return Ok(StoreDisk::Any);
    }
    if !is_whole(table) {
        return Err(SettingsError::Key(KeyFault::Wrong(SettingsKey::StoreDisk)));
    }
    if has(SettingsKey::Store, table) {
        Ok(StoreDisk::WholeSectors)
    } else {
        Err(SettingsError::Key(KeyFault::Missing(SettingsKey::Store)))
    }
}

fn is_whole(table: &Table) -> bool
    ensures { IsTrue result ↔ IsWhole (table_view table.now) }
{
    text_at(SettingsKey::StoreDisk, table) == Some("whole-sectors")
}

fn paths(alloc: Global, values: &[Value]) -> Result<Vec<Path>, ValueError>
    ensures { MatchResult result
        (StandForAll IsPathText (items_view values.now))
        (IsRefusal (StandForEach IsPathText (items_view values.now))) }
{
    let mut paths = Vec::with_capacity(alloc, values.len())?;
    for value in values {
        paths.push(path(alloc, value)?)?;
    }
    Ok(paths)
}

fn path(alloc: Global, value: &Value) -> Result<Path, ValueError>
    ensures { MatchResult result (IsPathText (view value.now)) (IsRefusal (IsPathText (view value.now))) }
{
    match value.as_str() {
        Some(text) => values::path(alloc, text),
        None => Err(ValueError::Bad),
    }
}
