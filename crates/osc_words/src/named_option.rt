//! The options that have a value.
ghost use Rattle.std.specs.Prelude.{◌≡◌, IfOk, string_bytes};
ghost use Rattle.osc_words.specs.NamedOptions as spec;

use crate::client_option::ClientOption;
use crate::token_option::TokenOption;
use std::alloc::{AllocError, Global};

/// An option of a subcommand of `osc` that has a value.
#[derive(Clone, Copy, Debug, PartialEq, Eq)]
pub enum NamedOption {
    /// `--only` of `osc sim`: the client whose entries are answered alone too.
    SimOnly,
    /// `--diagram` of `osc sim`: how the run is drawn in place of its trace.
    SimDiagram,
    /// `--pcap` of `osc sim`: the file that the datagrams are written to.
    SimPcap,
    /// `--turns` of `osc server`: after how many turns it ends.
    ServerTurns,
    /// `--turns` of `osc proxy`: the same.
    ProxyTurns,
    /// `--config` of `osc server`, `osc proxy` and `osc context`: the file that the settings are in.
    NodeConfig,
    /// The word of `osc store`: the file that the store is in.
    StoreFile,
    /// `--backup` of `osc store`: the new file that the same resources are written to.
    StoreBackup,
    /// `--log` of `osc server` and `osc proxy`: how it tells of each turn.
    NodeLog,
    /// `--counters` of `osc server` and `osc proxy`: after how many seconds that tells its counters.
    NodeCounters,
    /// An option of `osc client`.
    Client(ClientOption),
    /// `--form` of `osc context`: for which stack the context is written.
    ContextForm,
    /// `--timeout` of `osc context`: after how many seconds of its own clock it gives up.
    ContextTimeout,
    /// `--out` of `osc context`: the file that the context is written to, or for aiocoap the folder.
    ContextOut,
    /// `--turns` of `osc lab`: how many turns follow each exchange and each request at most.
    LabTurns,
    /// An option of `osc token`.
    Token(TokenOption),
}

impl NamedOption {
    /// Its name on the command line, without the hyphens.
    pub fn name(self) -> &'static str
        ensures { result.now ≡ spec.name_of self }
    {
        match self {
            NamedOption::ServerTurns | NamedOption::ProxyTurns | NamedOption::LabTurns => "turns",
            NamedOption::SimOnly => "only",
            NamedOption::SimDiagram => "diagram",
            NamedOption::SimPcap => "pcap",
            NamedOption::NodeConfig => "config",
            NamedOption::NodeLog => "log",
            NamedOption::NodeCounters => "counters",
            NamedOption::StoreFile => "file",
            NamedOption::StoreBackup => "backup",
            NamedOption::Client(option) => option.name(),
            NamedOption::ContextForm => "form",
            NamedOption::ContextTimeout => "timeout",
            NamedOption::ContextOut => "out",
            NamedOption::Token(option) => option.name(),
        }
    }

    /// What a value of it has to be.
    pub fn form(self) -> &'static str
        ensures { result.now ≡ spec.form_of self }
    {
        match self {
            NamedOption::ServerTurns | NamedOption::ProxyTurns | NamedOption::LabTurns => {
                "a number of 64 bits in decimal digits"
            }
            NamedOption::SimOnly => "a client, c1 to c9",
            NamedOption::SimDiagram => "text or svg",
            NamedOption::SimPcap | NamedOption::StoreBackup | NamedOption::ContextOut => "a file",
            NamedOption::NodeConfig => "a file of settings",
            NamedOption::NodeLog => "text or json",
            NamedOption::NodeCounters => "a number of seconds, 1 to 4294967295, beside --log",
            NamedOption::StoreFile => "a file of a store",
            NamedOption::Client(option) => option.form(),
            NamedOption::ContextForm => "libcoap, aiocoap or json",
            NamedOption::ContextTimeout => "a number of seconds in decimal digits",
            NamedOption::Token(option) => option.form(),
        }
    }

    /// The line that says that its value isn't one that it may have.
    pub(crate) fn refusal(self, alloc: Global) -> Result<String, AllocError>
        ensures { IfOk result (λ line. string_bytes line ≡ spec.refusal_text self) }
    {
        format!(in alloc; "error: --{} is not {}", self.name(), self.form())
    }

    /// The line that says that the file that it names can't be read.
    pub(crate) fn unread(self, alloc: Global) -> Result<String, AllocError>
        ensures { IfOk result (λ line. string_bytes line ≡ spec.unread_text self) }
    {
        format!(in alloc; "error: the file of --{} can't be read", self.name())
    }

    /// What help calls its value.
    pub(crate) fn value_name(self) -> &'static str {
        match self {
            NamedOption::ServerTurns | NamedOption::ProxyTurns | NamedOption::LabTurns => "N",
            NamedOption::SimOnly => "CLIENT",
            NamedOption::SimDiagram | NamedOption::NodeLog | NamedOption::ContextForm => "FORM",
            NamedOption::SimPcap | NamedOption::NodeConfig | NamedOption::StoreFile => "FILE",
            NamedOption::StoreBackup | NamedOption::ContextOut => "TO",
            NamedOption::ContextTimeout | NamedOption::NodeCounters => "SECONDS",
            NamedOption::Client(option) => option.value_name(),
            NamedOption::Token(option) => option.value_name(),
        }
    }

    /// What help says of it.
    pub(crate) fn help(self) -> &'static str {
        match self {
            NamedOption::ServerTurns | NamedOption::ProxyTurns =>
                "After how many turns it ends, each a datagram or 10 ms without one; it goes on by default",
            NamedOption::LabTurns =>
                "The most turns after each exchange and request, each a datagram or 10 ms without one",
            NamedOption::SimOnly =>
                "Prints how each entry of this client, c1 to c9, is answered where no other client asks",
            NamedOption::SimDiagram =>
                "Prints the run as a diagram in place of its trace: as text, or as svg",
            NamedOption::SimPcap =>
                "A file that each datagram is written to, for Wireshark; the keys go to FILE.keys",
            NamedOption::NodeConfig =>
                "A file that the settings stand in; the standard input by default",
            NamedOption::NodeLog =>
                "Tells of each request that is served or refused, on the standard error: as text, or as json",
            NamedOption::NodeCounters =>
                "How many seconds after a line of counters --log tells the next one; 3600 by default",
            NamedOption::StoreFile => "The file that a server's settings name as its store",
            NamedOption::StoreBackup => "A new file that alone is a store of the same resources",
            NamedOption::Client(option) => option.help(),
            NamedOption::ContextForm =>
                "For which stack the context is written: libcoap, aiocoap, or json for any",
            NamedOption::ContextTimeout =>
                "The seconds after which it gives up; it ends with the exchange by default",
            NamedOption::ContextOut =>
                "A file that its owner alone can read, or a folder for aiocoap; the standard output by default",
            NamedOption::Token(option) => option.help(),
        }
    }
}
