//! The files that stores are in, and what is supposed of their disk.
ghost use Rattle.std.specs.Prelude.{◌≡◌, IfOk};
ghost use Rattle.std.specs.Str.{IsUtf8};

use std::alloc::{AllocError, Global};
use std::marker::Model;

/// The name of the file that a store is in. Contracts see the bytes of the text.
#[derive(Debug, Drop)]
pub struct StoreFile {
    text: String,
}

/// What is supposed of the disk of a store, of a write during which the power goes.
#[derive(Clone, Copy, Debug, PartialEq, Eq)]
pub enum StoreDisk {
    /// Nothing.
    Any,
    /// Each sector is as before the write, or as after it.
    WholeSectors,
}

impl Model for StoreFile {
    ghost use Rattle.std.specs.Prelude.{List, ℕ, string_bytes};
    ghost use Rattle.std.specs.Coded.{coded_list, coded_ℕ};

    ghost Value = { List ℕ };

    ghost coded = { coded_list coded_ℕ };

    ghost view = { λ file. string_bytes file.text };
}

impl StoreFile {
    /// The file of this name.
    pub fn new(alloc: Global, text: &str) -> Result<StoreFile, AllocError>
        ensures { IfOk result (λ file. file ≡ text.now) }
    {
        Ok(StoreFile {
            text: String::from_str(alloc, text)?,
        })
    }

    /// The name.
    pub fn as_str(&self) -> &str
        ensures text { result.now ≡ self.now }
        ensures utf8 { IsUtf8 self.now }
    {
        &self.text
    }
}
