//! The exchange by which a token becomes a security context, at both ends (RFC 9203 section 4): the server's desk, which
//! judges what is posted to authz-info and keeps the contexts, and the client's. Before it: who is granted what, and his token.
//!
//! Generic over the cipher of tokens: all that is known of it is the law of `Aead`.
#![tactic(auto)]

mod agreed_post;
mod agreement;
mod client;
mod context;
mod derivation;
mod desk;
mod enrolling;
mod error;
mod granted;
mod last_answer;
pub mod laws;
mod marks;
mod payload;
mod places;
mod post;
mod revoked_marks;
mod rules;
mod standing;
mod table;
mod token_entry;

pub use client::{ClientContext, OpenExchange};
pub use context::ServerContext;
pub use desk::{DeskParts, ServerDesk};
pub use enrolling::{EnrollError, Enrolled, enroll};
pub use error::{FinishError, GrantError, PostError};
pub use granted::ClientDesk;
pub use last_answer::LastAnswer;
pub use post::{Post, PostAnswer, PostReply};
pub use revoked_marks::RevokedMarks;
pub use rules::ContextRules;
pub use standing::Standing;
