//! The words that tell why settings are none.
ghost use Rattle.std.specs.Prelude.{◌≡◌, ◌++◌, IfOk, codes, decimal, map, string_bytes};
ghost use Rattle.osc_log.specs.{shown_byte};
ghost use Rattle.osc_programs.specs.Unread as spec;
ghost use Rattle.osc_words.specs.Settings.{form_of, name_of};
ghost use Rattle.osc_words.specs.declared.settings.error.KeyFault.TheVariants as AnyFault;
ghost use Rattle.osc_words.specs.declared.settings.error.SettingsError.TheVariants as AnyError;

use osc_log::shown;
use osc_words::{KeyFault, SettingsError, SettingsKey};
use std::alloc::{AllocError, Global};

/// The words of this error: `settings: WHY`, where WHY names the key and says what should be there. Nothing of what is there is in
/// it.
pub fn unread_words(alloc: Global, why: &SettingsError) -> Result<String, AllocError>
    ensures { IfOk result (λ text. string_bytes text ≡ spec.unread_words why.now) }
{
    let why = why_text(alloc, why)?;
    let mut text = String::from_str(alloc, "settings: ")?;
    text.push_str(&why)?;
    Ok(text)
}

/// The words of a text that is too long.
pub(crate) fn long_words() -> &'static str
    ensures { result.now ≡ spec.long_words }
{
    "settings: the text has more than 1048576 bytes"
}

fn why_text(alloc: Global, why: &SettingsError) -> Result<String, AllocError>
    ensures { IfOk result (λ text. string_bytes text ≡ spec.why_text why.now) }
{
    match why {
        SettingsError::NotToml(line) => format!(in alloc; "line {line}: not TOML"),
        SettingsError::Key(fault) => key_text(alloc, fault),
        SettingsError::Target(number, fault) => target_text(alloc, *number, fault),
        SettingsError::Memory => String::from_str(alloc, "out of memory"),
    }
}

fn target_text(alloc: Global, number: usize, fault: &KeyFault) -> Result<String, AllocError>
    ensures { IfOk result (λ text. string_bytes text ≡ spec.why_text (AnyError.Target number fault.now)) }
{
    let mut text = which_text(alloc, number)?;
    let key = key_text(alloc, fault)?;
    text.push_str(&key)?;
    Ok(text)
}

fn which_text(alloc: Global, number: usize) -> Result<String, AllocError>
    ensures { IfOk result (λ text. string_bytes text ≡ codes "target " ++ decimal number ++ codes ": ") }
{
    format!(in alloc; "target {number}: ")
}

fn key_text(alloc: Global, fault: &KeyFault) -> Result<String, AllocError>
    ensures { IfOk result (λ text. string_bytes text ≡ spec.key_text fault.now) }
{
    match fault {
        KeyFault::Unknown(name) => unknown_text(alloc, name.as_slice()),
        KeyFault::Missing(key) => missing_text(alloc, *key),
        KeyFault::Wrong(key) => wrong_text(alloc, *key),
    }
}

fn unknown_text(alloc: Global, name: &[u8]) -> Result<String, AllocError>
    ensures { IfOk result (λ text. string_bytes text ≡ codes "key " ++ map shown_byte name.now ++ codes " should not be there") }
{
    let name = shown(alloc, name)?;
    let mut text = String::from_str(alloc, "key ")?;
    text.push_str(&name)?;
    text.push_str(" should not be there")?;
    Ok(text)
}

fn missing_text(alloc: Global, key: SettingsKey) -> Result<String, AllocError>
    ensures { IfOk result (λ text. string_bytes text ≡ spec.key_text (AnyFault.Missing key)) }
{
    named_text(alloc, key, " is missing, and should be ")
}

fn wrong_text(alloc: Global, key: SettingsKey) -> Result<String, AllocError>
    ensures { IfOk result (λ text. string_bytes text ≡ spec.key_text (AnyFault.Wrong key)) }
{
    named_text(alloc, key, " should be ")
}

// `key NAME`, these words, and what should be there.
fn named_text(alloc: Global, key: SettingsKey, words: &str) -> Result<String, AllocError>
    ensures { IfOk result (λ text. string_bytes text ≡ codes "key " ++ name_of key ++ words.now ++ form_of key) }
{
    let mut text = String::from_str(alloc, "key ")?;
    text.push_str(key.name())?;
    text.push_str(words)?;
    text.push_str(key.form())?;
    Ok(text)
}
