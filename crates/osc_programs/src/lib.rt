//! The programs: scripts run over the nodes of a simulation, nodes that run on sockets, and tokens.
#![tactic(auto)]

mod asking;
mod by_disk;
mod checked;
mod checking;
mod context;
mod context_text;
mod copies;
mod drawing;
mod dumping;
mod ended;
mod holding;
mod input;
mod issue;
mod key;
mod noted;
mod payload_file;
mod reading;
mod requests;
mod revoking;
mod rules;
mod running;
mod saving;
mod simulate;
mod socket;
mod store;
mod storing;
mod strange;
mod supply;
mod token_files;
mod turns;
mod udp;
mod unread;
mod ways;

pub use asking::ask;
pub use checking::{check_client, check_proxy, check_server};
pub use context::make_context;
pub use drawing::{draw, write_capture};
pub use ended::{
    Ended, ended_by, ended_by_io, running_fault, started_by_io, status, token_fault, token_warning,
};
pub use input::{
    LONGEST_KEY, LONGEST_PAYLOAD_FILE, LONGEST_SCRIPT, LONGEST_SETTINGS, bytes_within, script_bytes,
};
pub use issue::{drawn_iv, issue_token, iv_of, token, written};
pub use key::issue_key;
pub use noted::{FaultKeeper, KeepingReader};
pub use osc_simulation::TraceForm;
pub use payload_file::with_payload;
pub use requests::{Asked, Manner, ask_each, requests_fault, requests_from};
pub use revoking::KeepsServer;
pub use running::{Served, bound, forward, send, serve};
pub use simulate::{run_script, sim};
pub use store::{Stores, list_store};
pub use supply::{moment_and_draw, supply_of};
pub use token_files::filled;
pub use turns::take_turn;
pub use udp::{SocketPort, Sockets, UdpPort, Why};
pub use unread::unread_words;
