//! Scopes: which methods a holder may use on which paths (RFC 9200 section 5.8.1), and how they stand as bytes (RFC 9237)
//! and as text.
#![tactic(auto)]

mod entries;
mod error;
mod kept;
pub mod laws;
mod lookup;
mod methods;
mod scope;
mod text;
mod verdict;

pub use error::ScopeError;
pub use scope::Scope;
pub use text::text_to_cbor;
pub use verdict::Verdict;
