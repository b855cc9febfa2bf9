//! The keys of settings.
ghost use Rattle.std.specs.Prelude.{◌≡◌};
ghost use Rattle.osc_words.specs.Settings.Keys.{form_of, name_of};

/// A key of settings.
#[derive(Clone, Copy, Debug, PartialEq, Eq)]
pub enum SettingsKey {
    Alg,
    Audience,
    Bind,
    Context,
    ContextSeconds,
    Format,
    Hex,
    Host,
    Key,
    OldKey,
    Open,
    Path,
    Peer,
    Port,
    ReservedId,
    Resource,
    Revoked,
    RevokedIds,
    Salt,
    Secret,
    Store,
    StoreDisk,
    Subtrees,
    Target,
    Text,
    To,
    Token,
}

impl SettingsKey {
    /// Its name in a document.
    pub fn name(self) -> &'static str
        ensures { result.now ≡ name_of self }
    {
        match self {
            SettingsKey::Alg => "alg",
            SettingsKey::Audience => "audience",
            SettingsKey::Bind => "bind",
            SettingsKey::Context => "context",
            SettingsKey::ContextSeconds => "context_seconds",
            SettingsKey::Format => "format",
            SettingsKey::Hex => "hex",
            SettingsKey::Host => "host",
            SettingsKey::Key => "key",
            SettingsKey::OldKey => "old_key",
            SettingsKey::Open => "open",
            SettingsKey::Path => "path",
            SettingsKey::Peer => "peer",
            SettingsKey::Port => "port",
            SettingsKey::ReservedId => "reserved_id",
            SettingsKey::Resource => "resource",
            SettingsKey::Revoked => "revoked",
            SettingsKey::RevokedIds => "revoked_ids",
            SettingsKey::Salt => "salt",
            SettingsKey::Secret => "secret",
            SettingsKey::Store => "store",
            SettingsKey::StoreDisk => "store_disk",
            SettingsKey::Subtrees => "subtrees",
            SettingsKey::Target => "target",
            SettingsKey::Text => "text",
            SettingsKey::To => "to",
            SettingsKey::Token => "token",
        }
    }

    /// What should be at it, in words.
    pub fn form(self) -> &'static str
        ensures { result.now ≡ form_of self }
    {
        match self {
            SettingsKey::Alg => "the number 10 or 30",
            SettingsKey::Audience => "a text",
            SettingsKey::Bind => {
                "a text of an address and a port, as 127.0.0.1:5683 or [::1]:5683, or, for a server or a proxy, an array of 1 to 8 such texts"
            }
            SettingsKey::Peer | SettingsKey::To => {
                "a text of an address and a port, as 127.0.0.1:5683 or [::1]:5683"
            }
            SettingsKey::Context | SettingsKey::ReservedId | SettingsKey::Salt => {
                "a text of at most 64 bytes in hexadecimal"
            }
            SettingsKey::ContextSeconds => "a whole number of seconds, 1 to 4294967295",
            SettingsKey::Format => "a number from 0 to 65535",
            SettingsKey::Host => "a text of 1 to 255 bytes",
            SettingsKey::Key | SettingsKey::OldKey => "a text of 16 bytes in hexadecimal",
            SettingsKey::Open => "an array of paths, as ['/e', '/log']",
            SettingsKey::Path => "a path, as '/e'",
            SettingsKey::Port => "a number from 1 to 65535",
            SettingsKey::Resource => {
                "at most 1024 tables [[resource]] of path, format where it has one, and text or hex, of at most 512 bytes"
            }
            SettingsKey::Revoked => "a path of at most 4 segments, as '/revoked'",
            SettingsKey::RevokedIds => {
                "an array of at most 64 ids, as ['01', '0a02'], each of at most 64 bytes in hexadecimal"
            }
            SettingsKey::Secret => "a text of 1 to 64 bytes in hexadecimal",
            SettingsKey::Store => "a text, the name of a file",
            SettingsKey::StoreDisk => "the text 'whole-sectors'",
            SettingsKey::Subtrees => "true or false",
            SettingsKey::Target => "tables [[target]] of host, port and to",
            SettingsKey::Text => "a text",
            SettingsKey::Hex | SettingsKey::Token => "a text of bytes in hexadecimal",
        }
    }
}
