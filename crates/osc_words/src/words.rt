//! What a command line asks for, or why it can't be accepted.
ghost use Rattle.std.specs.Prelude.{◌≡◌, IfOk, string_bytes};
ghost use Rattle.clap.specs.Words.{kind_of};
ghost use Rattle.osc_words.specs.Command as spec;
ghost use Rattle.osc_words.specs.declared.words.WordsError.TheVariants as words_error;

use crate::choice::Choice;
use crate::client_words::ClientWords;
use crate::context_words::ContextWords;
use crate::named_option::NamedOption;
use crate::node_words::NodeWords;
use crate::requests_words::RequestsWords;
use crate::sim_words::SimWords;
use crate::store_words::StoreWords;
use crate::token_words::TokenAsked;
use clap::error::ErrorKind;
use std::alloc::{AllocError, Global};

/// What a command line asks for: one of the subcommands.
#[derive(Debug, PartialEq, Eq, Drop)]
pub enum Words {
    /// `osc sim [--bytes] [--lines] [--only CLIENT] [--diagram[=FORM]] [--pcap FILE]`: run a script.
    Sim(SimWords),
    /// `osc token`: print a token.
    Token(TokenAsked),
    /// `osc key`: print a key, drawn at random.
    Key,
    /// `osc store [--dump] [--until-damage] [--backup TO] FILE`: list what the store in this file holds.
    Store(StoreWords),
    /// `osc server [--config FILE] [--check] [--turns N] [--log[=FORM]] [--counters SECONDS]`: run a server.
    Server(NodeWords),
    /// `osc proxy [--config FILE] [--check] [--turns N] [--log[=FORM]] [--counters SECONDS]`: run a forward proxy.
    Proxy(NodeWords),
    /// `osc client`: post a token and send a request.
    Client(ClientWords),
    /// `osc client --requests FILE`: post a token and send the requests of a file.
    Requests(RequestsWords),
    /// `osc context --form FORM [--timeout SECONDS] [--config FILE] [--out TO]`: post a token and write the security context.
    Context(ContextWords),
    /// `osc lab --turns N [--ipv6]`: run a script over sockets, with at most `N` turns after each exchange and request. The sockets are at
    /// `127.0.0.1`, or at `[::1]`.
    Lab { turns: u64, ipv6: bool },
}

/// Why a command line can't be accepted.
#[derive(Debug, Drop)]
pub enum WordsError {
    /// The words are at fault, or wish for help or the version.
    Clap(clap::Error),
    /// The value of this option isn't one that it may have.
    Value(NamedOption),
    /// Not exactly one of two options of a value is given, or more than one where none has to be.
    NotOne(Choice),
    /// The file that this option names can't be read.
    Unread(NamedOption),
    /// There was no memory.
    Memory,
}

impl From<clap::Error> for WordsError {
    ghost from_gives = { λ error e. e ≡ spec.told_as (kind_of error) error };

    fn from(error: clap::Error) -> WordsError {
        match error.kind() {
            ErrorKind::OutOfMemory => WordsError::Memory,
            _ => WordsError::Clap(error),
        }
    }
}

impl From<AllocError> for WordsError {
    ghost from_gives = { λ _ e. e ≡ words_error.Memory };

    fn from(_error: AllocError) -> WordsError {
        WordsError::Memory
    }
}

/// The line that tells why a command line can't be accepted.
pub fn fault_line(alloc: Global, error: &WordsError) -> Result<String, AllocError>
    ensures { IfOk result (λ line. spec.IsFaultLine error.now (string_bytes line)) }
{
    match error {
        WordsError::Clap(error) => told(alloc, error.to_string(alloc)?.as_str()),
        WordsError::Value(option) => option.refusal(alloc),
        WordsError::NotOne(choice) => choice.not_one(alloc),
        WordsError::Unread(option) => option.unread(alloc),
        WordsError::Memory => "out of memory".to_string(alloc),
    }
}

// What clap tells before the usage, as one line; an empty line of it parts a tip from what is at fault.
fn told(alloc: Global, text: &str) -> Result<String, AllocError> {
    let mut line = String::new(alloc);
    let mut is_apart = false;
    for part in text.lines() {
        let part = part.trim();
        if is_past_the_fault(part) {
            break;
        }
        if !part.is_empty() {
            if !line.is_empty() {
                line.push_str(if is_apart { "; " } else { " " })?;
            }
            line.push_str(part)?;
        }
        is_apart = part.is_empty();
    }
    Ok(line)
}

fn is_past_the_fault(part: &str) -> bool {
    part.starts_with("Usage:") || part.starts_with("For more information")
}
