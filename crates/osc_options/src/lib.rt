//! CoAP options: which are recognised, which OSCORE encrypts, and the requests and replies that they make.
#![tactic(auto)]

mod error;
mod fields;
mod inside;
pub mod laws;
mod merging;
pub mod numbers;
mod parts;
mod protection;
mod reading;
mod recognised;
mod reply;
mod reply_text;
mod request;
mod survey;
mod table;
mod written_plaintext;
mod written_reply;
mod written_request;

pub use error::PlaintextError;
pub use merging::{Merged, merge};
pub use parts::{InnerOptions, OuterOptions, SplitOptions, split};
pub use protection::{plaintext_of, unprotected_message, write_protected};
pub use reading::request_in;
pub use recognised::{has_option, is_recognised, unrecognised_critical, value_of};
pub use reply::{error_message, reply_message, reply_of};
pub use reply_text::write_reply;
pub use request::{request_of, request_of_message, uint};
pub use survey::{OscoreValue, ProxySurvey, Survey, TargetOptions, proxy_survey_of, survey_of};
pub use table::{Class, Rule, class_of, is_critical, is_unsafe, rule_of};
pub use written_plaintext::write_request;
pub use written_reply::{reply_message_size, write_reply_message};
pub use written_request::request_message;
