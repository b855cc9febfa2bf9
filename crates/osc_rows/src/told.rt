//! What a row gives.

use crate::line::Line;
use crate::nodes::Nodes;
use crate::words::{Word, words};
use crate::{
    aes, authz_info, capture, cbor, ccm, claims, coap, context, cose, dedup, hkdf, message_layer,
    option_value, options, plaintext, protection, requests, scope, token, window,
};
use std::alloc::Global;

/// Writes what a row gives: a heading stays as it is.
pub fn told(alloc: Global, nodes: &mut Nodes, row: &str, line: &mut Line) {
    if row.starts_with('#') {
        line.text(row);
    } else if given(alloc, nodes, row, line).is_none() {
        line.text("no such row");
    }
}

fn given(alloc: Global, nodes: &mut Nodes, row: &str, line: &mut Line) -> Option<()> {
    let words = words(alloc, row)?;
    let (verb, words) = words.split_first()?;
    by_messages(alloc, nodes, verb.text()?, words, line)
}

/// The message layer.
fn by_messages(
    alloc: Global,
    nodes: &mut Nodes,
    verb: &str,
    words: &[Word<'_>],
    line: &mut Line,
) -> Option<()> {
    let endpoint = &mut nodes.endpoint;
    match verb {
        "clear" => message_layer::clear(endpoint, line),
        "hear" => message_layer::hear(alloc, endpoint, words, line),
        "answer" => message_layer::answer(alloc, endpoint, words, line),
        "send" => message_layer::send(alloc, endpoint, words, line),
        "tick" => message_layer::tick(alloc, endpoint, words, line),
        "noted_reply" => message_layer::noted_reply(endpoint, words, line),
        "take_id" => message_layer::take_id(endpoint, words, line),
        "own_id" => message_layer::own_id(endpoint, words, line),
        "reply_start" => message_layer::reply_start(endpoint, words, line),
        "take_reply_id" => message_layer::take_reply_id(endpoint, words, line),
        _ => by_authz_info(alloc, nodes, verb, words, line),
    }
}

/// What is posted to authz-info.
fn by_authz_info(
    alloc: Global,
    nodes: &mut Nodes,
    verb: &str,
    words: &[Word<'_>],
    line: &mut Line,
) -> Option<()> {
    let desk = &mut nodes.desk;
    match verb {
        "desk" => authz_info::begin(alloc, desk, words, line),
        "post" => authz_info::post(alloc, desk, words, line),
        "find" => authz_info::found(alloc, desk, words, line),
        "accept" => authz_info::accept(desk, words, line),
        "forget" => authz_info::forget(desk, line),
        "write_post" => authz_info::written_post(alloc, words, line),
        "finish" => authz_info::finished(alloc, words, line),
        "grant" => authz_info::granted(alloc, words, line),
        _ => by_options(alloc, verb, words, line),
    }
}

/// Options, plaintexts, requests and replies.
fn by_options(alloc: Global, verb: &str, words: &[Word<'_>], line: &mut Line) -> Option<()> {
    match verb {
        "noted" => dedup::noted(alloc, words, line),
        "acknowledgement" => message_layer::acknowledged(words, line),
        "rule" => options::rule(words, line),
        "unrecognised" => options::unrecognised(words, line),
        "has_option" => options::has(words, line),
        "split" => options::parts(words, line),
        "merge" => options::merged(words, line),
        "request" => requests::request(alloc, words, line),
        "reply" => requests::reply(alloc, words, line),
        "error" => requests::error(words, line),
        "protected" => plaintext::protected(words, line),
        "unprotected" => plaintext::unprotected(words, line),
        "request_inside" => plaintext::request(alloc, words, line),
        "reply_inside" => plaintext::reply(alloc, words, line),
        _ => by_tokens(alloc, verb, words, line),
    }
}

/// Tokens and claims, and contexts without a name.
fn by_tokens(alloc: Global, verb: &str, words: &[Word<'_>], line: &mut Line) -> Option<()> {
    match verb {
        "window" => window::accepted(words, line),
        "option_value" => option_value::said(words, line),
        "nonce" => context::nonce(words, line),
        "partial_iv" => context::partial_iv(words, line),
        "master_salt" => context::master_salt(alloc, words, line),
        "number_in" => protection::number(words, line),
        "open_token" => token::opened(alloc, words, line),
        "mint" => token::minted(alloc, words, line),
        "judge" => claims::judged(alloc, words, line),
        "verdict" => claims::verdict(alloc, words, line),
        _ => by_ciphers(alloc, verb, words, line),
    }
}

/// Ciphers, and objects under them.
fn by_ciphers(alloc: Global, verb: &str, words: &[Word<'_>], line: &mut Line) -> Option<()> {
    match verb {
        "aes" => aes::encrypted(words, line),
        "ccm_seal" => ccm::sealed(alloc, words, line),
        "ccm_open" => ccm::opened(alloc, words, line),
        "ccm_reopen" => ccm::reopened(alloc, words, line),
        "hmac" => hkdf::code(words, line),
        "extract" => hkdf::extracted(words, line),
        "expand" => hkdf::expanded(alloc, words, line),
        "expand_twice" => hkdf::expanded_twice(alloc, words, line),
        "encrypt0" => cose::parsed(alloc, words, line),
        "enc_structure" => cose::structure(alloc, words, line),
        "seal0" => cose::sealed(alloc, words, line),
        "open0" => cose::opened(alloc, words, line),
        _ => by_formats(alloc, verb, words, line),
    }
}

/// Items, messages in bytes, captures and scopes, and what is of a context.
fn by_formats(alloc: Global, verb: &str, words: &[Word<'_>], line: &mut Line) -> Option<()> {
    match verb {
        "item" => cbor::item(alloc, words, line),
        "memory" => cbor::memory(alloc, words, line),
        "value" => cbor::value(alloc, words, line),
        "same_item" => cbor::same(alloc, words, line),
        "inside" => cbor::inside(words, line),
        "lent" => cbor::lent(words, line),
        "head" => cbor::head_of(words, line),
        "message" => coap::parsed(words, line),
        "plaintext" => coap::plaintext(words, line),
        "code" => coap::code(words, line),
        "option_length" => coap::length_of_option(words, line),
        "captured" => capture::captured(alloc, words, line),
        "write_scope" => scope::written(alloc, words, line),
        "scope" => scope::read(alloc, words, line),
        "allow" => scope::allowed(alloc, words, line),
        _ => context::told(alloc, verb, words, line),
    }
}
