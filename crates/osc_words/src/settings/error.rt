//! Why there are no settings.
ghost use Rattle.std.specs.Prelude.{◌≡◌};
ghost use Rattle.osc_words.specs.Settings.Inner.Reading as spec;
ghost use Rattle.osc_words.specs.declared.settings.error.SettingsError.TheVariants as settings_error;
ghost use Rattle.osc_words.specs.declared.settings.error.ValueError.TheVariants as value_error;

use crate::settings::key::SettingsKey;
use osc_model::Bytes;
use std::alloc::{AllocError, AllocFailed};
use thiserror::Error;

/// Why a text gives no settings: of several faults the first.
#[derive(Debug, Drop, Error)]
pub enum SettingsError {
    /// It is no TOML: the line of the place where it is at fault, counted from 1.
    #[error("settings: bad")]
    NotToml(usize),
    /// One of its keys is at fault.
    #[error("settings: bad")]
    Key(KeyFault),
    /// A key of the target of this number, counted from 1, is at fault.
    #[error("settings: bad")]
    Target(usize, KeyFault),
    /// There was no memory.
    #[error("out of memory")]
    Memory,
}

/// What is wrong with a key. The value that is there isn't told.
#[derive(Debug, Drop)]
pub enum KeyFault {
    /// It is none of these settings: its name.
    Unknown(Bytes),
    /// It is left out.
    Missing(SettingsKey),
    /// What is there is no value that it may have.
    Wrong(SettingsKey),
}

impl SettingsError {
    /// The same of the target of this number.
    pub(crate) fn in_target(self, number: usize) -> SettingsError
        ensures { result ≡ spec.in_target number self }
    {
        match self {
            SettingsError::Key(fault) => SettingsError::Target(number, fault),
            other => other,
        }
    }
}

impl From<AllocError> for SettingsError {
    ghost from_gives = { λ _ e. e ≡ settings_error.Memory };

    fn from(_error: AllocError) -> SettingsError {
        SettingsError::Memory
    }
}

impl<T: Drop> From<AllocFailed<T>> for SettingsError {
    ghost from_gives = { λ _ e. e ≡ settings_error.Memory };

    fn from(_error: AllocFailed<T>) -> SettingsError {
        SettingsError::Memory
    }
}

/// Why a text or a number is no such value.
#[derive(Clone, Copy, Debug)]
pub(crate) enum ValueError {
    /// It spells none.
    Bad,
    /// There was no memory.
    Memory,
}

impl ValueError {
    /// The fault of the key where it is.
    pub(crate) fn at(self, key: SettingsKey) -> SettingsError
        ensures { result ≡ spec.fault_at key self }
    {
        match self {
            ValueError::Bad => SettingsError::Key(KeyFault::Wrong(key)),
            ValueError::Memory => SettingsError::Memory,
        }
    }
}

impl From<AllocError> for ValueError {
    ghost from_gives = { λ _ e. e ≡ value_error.Memory };

    fn from(_error: AllocError) -> ValueError {
        ValueError::Memory
    }
}

impl<T: Drop> From<AllocFailed<T>> for ValueError {
    ghost from_gives = { λ _ e. e ≡ value_error.Memory };

    fn from(_error: AllocFailed<T>) -> ValueError {
        ValueError::Memory
    }
}
