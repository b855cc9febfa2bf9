//! Settings that are read, and no more: what was understood is said.
ghost use Rattle.std.specs.Prelude.{◌≡◌, ◌⊎◌, ◌+◌, IfSome, None, option_map};
ghost use Rattle.std.specs.Io.KnownBytes.{Appends};
ghost use Rattle.osc_programs.specs.Checked as spec;
ghost use Rattle.osc_programs.specs.Ended as ends;
ghost use Rattle.osc_programs.specs.Input.{IsWithin, TakesAtMost, longest_settings};
ghost use Rattle.osc_programs.specs.Unread.{TellsWhy};
ghost use Rattle.osc_words.specs.Settings.{StandsFor, IsClientFault, IsFaultOfProxy, IsKeyFault, IsServerFault, AreClientSettings, AreProxySettings, AreServerSettings};
ghost use Rattle.osc_words.specs.declared.settings.client.ClientSettings.{ClientSettings as AskedBy};
ghost use Rattle.osc_words.specs.declared.settings.proxy.ProxySettings.{ProxySettings as ForwardedBy};
ghost use Rattle.osc_words.specs.declared.settings.server.ServerSettings.{ServerSettings as ServedBy};

use crate::checked::{client_text, proxy_text, server_text};
use crate::ended::Ended;
use crate::issue::written;
use crate::reading::{client_settings, proxy_settings, server_settings};
use osc_log::Log;
use osc_words::{ClientSettings, ProxySettings, ServerSettings};
use std::alloc::Global;
use std::io::{Read, Write};

/// Reads the settings of a server, and writes what they are, but for what is secret. Where there are none, the log tells why. Settings with the key
/// that the documentation prints are refused after that: anyone could mint tokens for them.
pub fn check_server<I: Read, L: Log, W: Write>(
    alloc: Global,
    reader: &mut I,
    log: &mut L,
    writer: &mut W,
) -> Ended
    ensures done { result ≡ Ended.Done → (settings : ServedBy) × IfSome (I.remaining reader.old) (λ text. StandsFor AreServerSettings text settings)
        × Appends (W.contents writer.old) (W.contents writer.new) (spec.server_text settings) × (spec.printed_words settings ≡ None) }
    ensures bad { result ≡ Ended.BadSettings → TellsWhy (λ document. IsKeyFault (IsServerFault document)) (I.remaining reader.old) (L.told log.old) (L.told log.new)
        ⊎ spec.RefusesPrinted (I.remaining reader.old) (W.contents writer.old) (W.contents writer.new) (L.told log.old) (L.told log.new) }
    ensures short { result ≡ Ended.Done → IsWithin longest_settings (I.remaining reader.old) }
    ensures end { TakesAtMost (longest_settings + 1) (I.remaining reader.old) (I.remaining reader.new) }
    ensures ends { ends.EndsNode result }
{
    match server_settings(alloc, reader, log) {
        Ok(settings) => judge_server(alloc, log, &settings, writer),
        Err(ended) => ended,
    }
}

/// The same of a proxy.
pub fn check_proxy<I: Read, L: Log, W: Write>(
    alloc: Global,
    reader: &mut I,
    log: &mut L,
    writer: &mut W,
) -> Ended
    ensures done { result ≡ Ended.Done → (settings : ForwardedBy) × IfSome (I.remaining reader.old) (λ text. StandsFor AreProxySettings text settings)
        × Appends (W.contents writer.old) (W.contents writer.new) (spec.proxy_text settings) }
    ensures bad { result ≡ Ended.BadSettings → TellsWhy IsFaultOfProxy (I.remaining reader.old) (L.told log.old) (L.told log.new) }
    ensures short { result ≡ Ended.Done → IsWithin longest_settings (I.remaining reader.old) }
    ensures end { TakesAtMost (longest_settings + 1) (I.remaining reader.old) (I.remaining reader.new) }
    ensures ends { ends.EndsNode result }
{
    match proxy_settings(alloc, reader, log) {
        Ok(settings) => say_proxy(alloc, &settings, writer),
        Err(ended) => ended,
    }
}

/// The same of a client.
pub fn check_client<I: Read, L: Log, W: Write>(
    alloc: Global,
    reader: &mut I,
    log: &mut L,
    writer: &mut W,
) -> Ended
    ensures done { result ≡ Ended.Done → (settings : AskedBy) × IfSome (I.remaining reader.old) (λ text. StandsFor AreClientSettings text settings)
        × Appends (W.contents writer.old) (W.contents writer.new) (spec.client_text settings) }
    ensures bad { result ≡ Ended.BadSettings → TellsWhy (λ document. IsKeyFault (IsClientFault document)) (I.remaining reader.old) (L.told log.old) (L.told log.new) }
    ensures short { result ≡ Ended.Done → IsWithin longest_settings (I.remaining reader.old) }
    ensures end { TakesAtMost (longest_settings + 1) (I.remaining reader.old) (I.remaining reader.new) }
    ensures ends { ends.EndsNode result }
{
    match client_settings(alloc, reader, log) {
        Ok(settings) => say_client(alloc, &settings, writer),
        Err(ended) => ended,
    }
}

// ---- a key that everybody knows

// Says what was understood, and then refuses a key that is printed.
fn judge_server<L: Log, W: Write>(
    alloc: Global,
    log: &mut L,
    settings: &ServerSettings,
    writer: &mut W,
) -> Ended
    ensures said { (result ≡ Ended.Done) ⊎ (result ≡ Ended.BadSettings) → Appends (W.contents writer.old) (W.contents writer.new) (spec.server_text settings.now) }
    ensures done { result ≡ Ended.Done → spec.printed_words settings.now ≡ None }
    ensures bad { result ≡ Ended.BadSettings → spec.TellsPrinted settings.now (L.told log.old) (L.told log.new) }
    ensures ends { ends.EndsNode result }
{
    match say_server(alloc, settings, writer) {
        Ended::Done => judge_keys(alloc, log, settings),
        fault => fault,
    }
}

fn judge_keys<L: Log>(alloc: Global, log: &mut L, settings: &ServerSettings) -> Ended
    ensures done { result ≡ Ended.Done → spec.printed_words settings.now ≡ None }
    ensures bad { result ≡ Ended.BadSettings → spec.TellsPrinted settings.now (L.told log.old) (L.told log.new) }
    ensures either { (result ≡ Ended.Done) ⊎ (result ≡ Ended.BadSettings) }
{
    match printed_words(settings) {
        None => Ended::Done,
        Some(words) => {
            log.no_settings(alloc, Some(words));
            Ended::BadSettings
        }
    }
}

fn printed_words(settings: &ServerSettings) -> Option<&'static str>
    ensures { option_map (λ words. words.now) result ≡ spec.printed_words settings.now }
{
    if is_printed(&settings.key) {
        Some("settings: key key is that of the documentation: make one by osc key")
    } else if is_printed_if(&settings.old_key) {
        Some("settings: key old_key is that of the documentation: make one by osc key")
    } else {
        None
    }
}

fn is_printed_if(key: &Option<[u8; 16]>) -> bool
    ensures { result ≡ spec.is_printed_if key.now }
{
    match key {
        Some(key) => is_printed(key),
        None => false,
    }
}

// The key that the documentation prints has the bytes 40 to 4f.
fn is_printed(key: &[u8; 16]) -> bool
    ensures { result ≡ spec.is_printed key.now }
{
    key.as_slice() == b"@ABCDEFGHIJKLMNO".as_slice()
}

// ---- what was understood

fn say_server<W: Write>(alloc: Global, settings: &ServerSettings, writer: &mut W) -> Ended
    ensures done { result ≡ Ended.Done → Appends (W.contents writer.old) (W.contents writer.new) (spec.server_text settings.now) }
    ensures ends { ends.EndsTurns result }
{
    match server_text(alloc, settings) {
        Ok(text) => said(&text, writer),
        Err(_) => Ended::OutOfMemory,
    }
}

fn say_proxy<W: Write>(alloc: Global, settings: &ProxySettings, writer: &mut W) -> Ended
    ensures done { result ≡ Ended.Done → Appends (W.contents writer.old) (W.contents writer.new) (spec.proxy_text settings.now) }
    ensures ends { ends.EndsTurns result }
{
    match proxy_text(alloc, settings) {
        Ok(text) => said(&text, writer),
        Err(_) => Ended::OutOfMemory,
    }
}

fn say_client<W: Write>(alloc: Global, settings: &ClientSettings, writer: &mut W) -> Ended
    ensures done { result ≡ Ended.Done → Appends (W.contents writer.old) (W.contents writer.new) (spec.client_text settings.now) }
    ensures ends { ends.EndsTurns result }
{
    match client_text(alloc, settings) {
        Ok(text) => said(&text, writer),
        Err(_) => Ended::OutOfMemory,
    }
}

pub(crate) fn said<W: Write>(text: &[u8], writer: &mut W) -> Ended
    ensures done { result ≡ Ended.Done → Appends (W.contents writer.old) (W.contents writer.new) text.now }
    ensures ends { ends.EndsTurns result }
{
    match written(writer, text) {
        Ended::Done => Ended::Done,
        _ => Ended::Failed,
    }
}
