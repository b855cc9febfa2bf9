//! What a harness in C times: messages read, datagrams served, protected and not, ticks beside open messages, items read, requests
//! protected, opened and asked, tokens read and posted, ciphers, the events of a world, floods, one datagram heard again and again, and what
//! nodes keep.
#![tactic(auto)]

mod alone;
mod asking;
mod cipher;
mod flood;
mod full;
mod hearing;
mod holder;
mod messages;
mod objects;
mod protected;
mod protection;
mod proxy_flood;
mod server_flood;
mod ticks;
mod tokens;
mod world;
