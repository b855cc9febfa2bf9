//! The words of the command line: what each subcommand asks for, and why a command line can't be accepted.
#![tactic(auto)]

mod choice;
mod client_option;
mod client_words;
mod command;
mod context_words;
mod given;
mod held;
mod hidden_option;
mod named_option;
mod node_words;
mod request_lines;
mod requests_words;
mod settings;
mod sim_words;
mod source;
mod store_words;
mod times;
mod token_option;
mod token_words;
mod words;

pub use choice::Choice;
pub use client_option::ClientOption;
pub use client_words::ClientWords;
pub use command::read_words;
pub use context_words::{ContextForm, ContextWords};
pub use held::{held_key, held_secret};
pub use hidden_option::HiddenOption;
pub use named_option::NamedOption;
pub use node_words::{LogForm, NodeWords};
pub use request_lines::read_requests;
pub use requests_words::RequestsWords;
pub use settings::{
    ClientSettings, KeyFault, MOST_ADDRESSES, ProxySettings, ResourceSetting, ServerSettings,
    SettingsError, SettingsKey, StoreDisk, StoreFile, TargetSetting, line_at, read_client_settings,
    read_proxy_settings, read_server_settings,
};
pub use sim_words::{DiagramForm, SimWords};
pub use source::{FileName, Source};
pub use store_words::StoreWords;
pub use times::Patience;
pub use token_option::TokenOption;
pub use token_words::{Expiry, OpenClaims, TokenAsked, TokenWords};
pub use words::{Words, WordsError, fault_line};
