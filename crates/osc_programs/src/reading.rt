//! Settings that a reader gives, and what is told where they are none.
ghost use Rattle.std.specs.Prelude.{◌≡◌, ◌≢◌, ◌+◌, List, ℕ, IfErr, IfOk, IfSome, MatchResult, OnOk};
ghost use Rattle.osc_programs.specs.Ended as ends;
ghost use Rattle.osc_log.specs.{Writes};
ghost use Rattle.osc_programs.specs.Input.{IsWithin, TakesAtMost, longest_settings};
ghost use Rattle.osc_programs.specs.Unread as spec;
ghost use Rattle.osc_words.specs.Settings.{StandsFor, IsClientFault, IsFaultOfProxy, IsKeyFault, IsServerFault, AreClientSettings, AreProxySettings, AreServerSettings, line_at};
ghost use Rattle.std.specs.Str.{valid_up_to};
ghost use Rattle.std.specs.Str.Lossy.{utf8_valid_len};

use crate::ended::Ended;
use crate::input::{LONGEST_SETTINGS, bytes_within};
use crate::unread::{long_words, unread_words};
use osc_log::Log;
use osc_words::{
    ClientSettings, ProxySettings, ServerSettings, SettingsError, line_at, read_client_settings,
    read_proxy_settings, read_server_settings,
};
use std::alloc::Global;
use std::io::Read;
use std::str::{self, Utf8Error};

/// The settings of a server that the reader gives. Where they are none, the log tells why.
pub(crate) fn server_settings<I: Read, L: Log>(
    alloc: Global,
    reader: &mut I,
    log: &mut L,
) -> Result<ServerSettings, Ended>
    ensures settings { IfOk result (λ settings. IfSome (I.remaining reader.old) (λ text. StandsFor AreServerSettings text settings)) }
    ensures short { IfOk result (λ _. IsWithin longest_settings (I.remaining reader.old)) }
    ensures end { TakesAtMost (longest_settings + 1) (I.remaining reader.old) (I.remaining reader.new) }
    ensures silent { OnOk result (log.new ≡ log.old) }
    ensures bad { IfErr result (λ ended. ended ≡ Ended.BadSettings → spec.TellsWhy (λ document. IsKeyFault (IsServerFault document)) (I.remaining reader.old) (L.told log.old) (L.told log.new)) }
    ensures ends { IfErr result ends.NoSettings }
{
    let bytes = settings_bytes(alloc, reader, log)?;
    match server_settings_in(alloc, &bytes) {
        Ok(settings) => Ok(settings),
        Err(why) => Err(ended_without(alloc, log, &why)),
    }
}

fn server_settings_in(alloc: Global, bytes: &[u8]) -> Result<ServerSettings, SettingsError>
    ensures { MatchResult result (StandsFor AreServerSettings bytes.now) (spec.IsWhy (λ document. IsKeyFault (IsServerFault document)) bytes.now) }
{
    match str::from_utf8(bytes) {
        Ok(text) => read_server_settings(alloc, text),
        Err(error) => Err(not_utf8(bytes, &error)),
    }
}

/// The settings of a proxy that the reader gives. Where they are none, the log tells why.
pub(crate) fn proxy_settings<I: Read, L: Log>(
    alloc: Global,
    reader: &mut I,
    log: &mut L,
) -> Result<ProxySettings, Ended>
    ensures settings { IfOk result (λ settings. IfSome (I.remaining reader.old) (λ text. StandsFor AreProxySettings text settings)) }
    ensures short { IfOk result (λ _. IsWithin longest_settings (I.remaining reader.old)) }
    ensures end { TakesAtMost (longest_settings + 1) (I.remaining reader.old) (I.remaining reader.new) }
    ensures silent { OnOk result (log.new ≡ log.old) }
    ensures bad { IfErr result (λ ended. ended ≡ Ended.BadSettings → spec.TellsWhy IsFaultOfProxy (I.remaining reader.old) (L.told log.old) (L.told log.new)) }
    ensures ends { IfErr result ends.NoSettings }
{
    let bytes = settings_bytes(alloc, reader, log)?;
    match proxy_settings_in(alloc, &bytes) {
        Ok(settings) => Ok(settings),
        Err(why) => Err(ended_without(alloc, log, &why)),
    }
}

fn proxy_settings_in(alloc: Global, bytes: &[u8]) -> Result<ProxySettings, SettingsError>
    ensures { MatchResult result (StandsFor AreProxySettings bytes.now) (spec.IsWhy IsFaultOfProxy bytes.now) }
{
    match str::from_utf8(bytes) {
        Ok(text) => read_proxy_settings(alloc, text),
        Err(error) => Err(not_utf8(bytes, &error)),
    }
}

/// The settings of a client that the reader gives. Where they are none, the log tells why.
pub(crate) fn client_settings<I: Read, L: Log>(
    alloc: Global,
    reader: &mut I,
    log: &mut L,
) -> Result<ClientSettings, Ended>
    ensures settings { IfOk result (λ settings. IfSome (I.remaining reader.old) (λ text. StandsFor AreClientSettings text settings)) }
    ensures short { IfOk result (λ _. IsWithin longest_settings (I.remaining reader.old)) }
    ensures end { TakesAtMost (longest_settings + 1) (I.remaining reader.old) (I.remaining reader.new) }
    ensures silent { OnOk result (log.new ≡ log.old) }
    ensures bad { IfErr result (λ ended. ended ≡ Ended.BadSettings → spec.TellsWhy (λ document. IsKeyFault (IsClientFault document)) (I.remaining reader.old) (L.told log.old) (L.told log.new)) }
    ensures ends { IfErr result ends.NoSettings }
{
    let bytes = settings_bytes(alloc, reader, log)?;
    match client_settings_in(alloc, &bytes) {
        Ok(settings) => Ok(settings),
        Err(why) => Err(ended_without(alloc, log, &why)),
    }
}

fn client_settings_in(alloc: Global, bytes: &[u8]) -> Result<ClientSettings, SettingsError>
    ensures { MatchResult result (StandsFor AreClientSettings bytes.now) (spec.IsWhy (λ document. IsKeyFault (IsClientFault document)) bytes.now) }
{
    match str::from_utf8(bytes) {
        Ok(text) => read_client_settings(alloc, text),
        Err(error) => Err(not_utf8(bytes, &error)),
    }
}

// ---- what they share

// What is wrong with bytes that aren't UTF-8: the line of the first that isn't.
fn not_utf8(bytes: &[u8], error: &Utf8Error) -> SettingsError
    requires { valid_up_to error.now ≡ utf8_valid_len bytes.now }
    ensures { result ≡ SettingsError.NotToml (line_at bytes.now (utf8_valid_len bytes.now)) }
{
    SettingsError::NotToml(line_at(bytes, error.valid_up_to()))
}

// All that the reader gives, where that is no more than settings may have. Where it is more, the log tells that.
fn settings_bytes<I: Read, L: Log>(
    alloc: Global,
    reader: &mut I,
    log: &mut L,
) -> Result<Vec<u8>, Ended>
    ensures bytes { IfOk result (λ bytes. IfSome (I.remaining reader.old) (λ known. bytes.items ≡ known)) }
    ensures short { IfOk result (λ _. IsWithin longest_settings (I.remaining reader.old)) }
    ensures end { TakesAtMost (longest_settings + 1) (I.remaining reader.old) (I.remaining reader.new) }
    ensures silent { OnOk result (log.new ≡ log.old) }
    ensures long { IfErr result (λ ended. ended ≡ Ended.BadSettings → spec.TellsLong (I.remaining reader.old) (L.told log.old) (L.told log.new)) }
    ensures ends { IfErr result ends.NoSettings }
{
    match bytes_within(alloc, reader, LONGEST_SETTINGS) {
        Ok(Some(bytes)) => Ok(bytes),
        Ok(None) => {
            tell_long(alloc, log);
            Err(Ended::BadSettings)
        }
        Err(ended) => Err(ended),
    }
}

// The log tells that the text is too long.
fn tell_long<L: Log>(alloc: Global, log: &mut L)
    ensures { (text : List ℕ) × spec.IsLongText (L.told log.old).form text × Writes (L.told log.old) (L.told log.new) text }
{
    log.no_settings(alloc, Some(long_words()));
}

// How a program ends without settings. The log tells why, but for lack of memory.
fn ended_without<L: Log>(alloc: Global, log: &mut L, why: &SettingsError) -> Ended
    ensures memory { why.now ≡ SettingsError.Memory → result ≡ Ended.OutOfMemory }
    ensures bad { why.now ≢ SettingsError.Memory → result ≡ Ended.BadSettings }
    ensures told { result ≡ Ended.BadSettings → (text : List ℕ) × spec.IsUnreadText (L.told log.old).form why.now text × Writes (L.told log.old) (L.told log.new) text }
    ensures ends { ends.NoSettings result }
{
    match why {
        SettingsError::Memory => Ended::OutOfMemory,
        _ => {
            tell_why(alloc, log, why);
            Ended::BadSettings
        }
    }
}

// The log tells why, or that there was no memory to say so.
fn tell_why<L: Log>(alloc: Global, log: &mut L, why: &SettingsError)
    ensures { (text : List ℕ) × spec.IsUnreadText (L.told log.old).form why.now text × Writes (L.told log.old) (L.told log.new) text }
{
    match unread_words(alloc, why) {
        Ok(words) => log.no_settings(alloc, Some(&words)),
        Err(_) => log.no_settings(alloc, None),
    }
}
