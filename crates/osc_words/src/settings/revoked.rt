//! The ids of tokens that a server revokes at each start.
ghost use Rattle.std.specs.Prelude.{MatchResult, codes, option_map};
ghost use Rattle.toml.specs.View.{items_view, table_view, view};
ghost use Rattle.osc_words.specs.Settings.Document.{MaySpellAt, StandForEach};
ghost use Rattle.osc_words.specs.Settings.Faults.{IsFaultAt, IsKeyFault, IsRevokedIdsFault};
ghost use Rattle.osc_words.specs.Settings.Inner.Reading.{IsRefusal, StandForAll, StandForFew};
ghost use Rattle.osc_words.specs.Settings.Settings.{AreRevokedIds, AreRevokedIdsAt, IsRevokedId};
ghost use Rattle.osc_words.specs.Settings.Values.{IsRevocationPath};
ghost use Rattle.osc_words.specs.declared.settings.key.SettingsKey.TheVariants as AnyKey;

use crate::settings::document::{has, items_at, read_at, untyped_at};
use crate::settings::error::{KeyFault, SettingsError, ValueError};
use crate::settings::key::SettingsKey;
use crate::settings::values;
use osc_model::limits::MOST_TOKENS;
use osc_model::{Bytes, Path};
use std::alloc::Global;
use toml::{Table, Value};

/// The ids of a server whose revocation path is `root`; there are none where they are left out.
pub(crate) fn revoked_ids(
    alloc: Global,
    root: Option<&Path>,
    table: &Table,
) -> Result<Vec<Bytes>, SettingsError>
    requires { MaySpellAt (codes "revoked") IsRevocationPath (table_view table.now) (option_map (λ path. path.now) root) }
    ensures { MatchResult result
        (λ ids. AreRevokedIds (option_map (λ path. path.now) root.entry) (table_view table.now) ids.items)
        (IsKeyFault (IsRevokedIdsFault (table_view table.now))) }
{
    if !has(SettingsKey::RevokedIds, table) {
        return Ok(Vec::new(alloc));
    }
    match root {
        Some(root) => listed(alloc, root, table),
        None => Err(SettingsError::Key(KeyFault::Missing(SettingsKey::Revoked))),
    }
}

fn listed(alloc: Global, root: &Path, table: &Table) -> Result<Vec<Bytes>, SettingsError>
    ensures { MatchResult result
        (λ ids. AreRevokedIdsAt root.now (codes "revoked_ids") (table_view table.now) ids.items)
        (IsKeyFault (IsFaultAt AnyKey.RevokedIds (AreRevokedIdsAt root.now) (table_view table.now))) }
{
    match items_at(SettingsKey::RevokedIds, table) {
        Some(values) => read_at(SettingsKey::RevokedIds, few(alloc, root, values)),
        None => Err(untyped_at(SettingsKey::RevokedIds, table)),
    }
}

fn few(alloc: Global, root: &Path, values: &[Value]) -> Result<Vec<Bytes>, ValueError>
    ensures { MatchResult result
        (λ ids. StandForFew 64 (IsRevokedId root.now) (items_view values.now) ids.items)
        (IsRefusal (StandForFew 64 (IsRevokedId root.now) (items_view values.now))) }
{
    if values.len() > MOST_TOKENS {
        return Err(ValueError::Bad);
    }
    all(alloc, root, values)
}

fn all(alloc: Global, root: &Path, values: &[Value]) -> Result<Vec<Bytes>, ValueError>
    ensures { MatchResult result
        (StandForAll (IsRevokedId root.now) (items_view values.now))
        (IsRefusal (StandForEach (IsRevokedId root.now) (items_view values.now))) }
{
    let mut ids = Vec::with_capacity(alloc, values.len())?;
    for value in values {
        ids.push(id(alloc, root, value)?)?;
    }
    Ok(ids)
}

fn id(alloc: Global, root: &Path, value: &Value) -> Result<Bytes, ValueError>
    ensures { MatchResult result (IsRevokedId root.now (view value.now)) (IsRefusal (IsRevokedId root.now (view value.now))) }
{
    match value.as_str() {
        Some(text) => values::id_below(alloc, root, text),
        None => Err(ValueError::Bad),
    }
}
