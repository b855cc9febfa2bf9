//! What a client waits for.
use osc_authz::OpenExchange;

/// A protected request that waits for its response, under the context that the client has.
#[derive(Drop)]
pub struct OpenAsk {
    /// The sender sequence number of the request.
    pub number: u64,
}

/// What the answer is awaited of.
#[derive(Drop)]
pub enum Awaited {
    /// The post of an exchange.
    Exchange(OpenExchange),
    /// A protected request.
    Ask(OpenAsk),
}

/// A message that opened something, and what it opened.
#[derive(Drop)]
pub struct Waiting {
    /// The message's token, by which a response names it.
    pub token: [u8; 8],
    /// Its message ID, by which an acknowledgement names it.
    pub id: u16,
    /// When it ends, in ms, where it was acknowledged and no answer came.
    pub until: u64,
    /// What waits.
    pub what: Awaited,
}
