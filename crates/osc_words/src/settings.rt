//! Settings of the programs, read from TOML (<https://toml.io>).

mod addresses;
mod client;
mod document;
mod error;
mod key;
mod proxy;
mod resource;
mod revoked;
mod server;
mod store_file;
mod values;

pub use addresses::MOST_ADDRESSES;
pub use client::{ClientSettings, read_client_settings};
pub use document::line_at;
pub use error::{KeyFault, SettingsError};
pub use key::SettingsKey;
pub use proxy::{ProxySettings, TargetSetting, read_proxy_settings};
pub use resource::ResourceSetting;
pub use server::{ServerSettings, read_server_settings};
pub use store_file::{StoreDisk, StoreFile};
