//! Scripts of the simulation: what each line says, and where it may be.
#![tactic(auto)]

mod client_name;
mod clients;
mod datagrams;
mod forms;
mod grants;
pub mod laws;
mod line;
mod node;
mod place;
mod proxy_name;
mod read;
mod running;
mod say;
mod set_up;
mod shown;
mod split;
mod text;
pub mod values;
mod words;

pub use client_name::ClientName;
pub use forms::form_of;
pub use grants::{TOKEN_KEY, grant_claims, token_iv};
pub use line::{Change, Changes, Line, Script};
pub use node::NodeName;
pub use proxy_name::ProxyName;
pub use read::{ScriptError, read_script};
pub use shown::Shown;
