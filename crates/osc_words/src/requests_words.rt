//! What the options of `osc client` stand for where it asks for many things.
ghost use Rattle.std.specs.Prelude.{◌≡◌, MatchResult, Some, codes};
ghost use Rattle.clap.specs.Words.{found_of, rows_of};
ghost use Rattle.osc_words.specs.Choices as choices;
ghost use Rattle.osc_words.specs.Inner.Reading.{IsReadFrom, IsRequestsRefusal};
ghost use Rattle.osc_words.specs.RequestsWords as spec;

use crate::choice::Choice;
use crate::client_option::ClientOption;
use crate::client_words::{client_words, patience};
use crate::given;
use crate::named_option::NamedOption;
use crate::source::FileName;
use crate::times::Patience;
use crate::words::{Words, WordsError};
use clap::ArgMatches;
use std::alloc::Global;

/// What `osc client` is asked for where its requests are in a file.
#[derive(Debug, PartialEq, Eq, Drop)]
pub struct RequestsWords {
    /// How long it waits after each of its messages.
    pub patience: Patience,
    /// The file that its requests are in, one a line; `-` is the standard input.
    pub requests: FileName,
    /// How many seconds pass at least from one request to the next, if any have to.
    pub every: Option<u64>,
    /// Whether a request is sent again under a new context also where it may have been served.
    pub again: bool,
    /// Whether it only reads its settings, and says what it understood.
    pub check: bool,
    /// The file that its settings are in; they come on the standard input where there is none.
    pub config: Option<FileName>,
}

/// What the options say of a client: it asks for one thing, or for many.
pub(crate) fn client_asked(alloc: Global, options: &ArgMatches<'_>) -> Result<Words, WordsError>
    ensures { IsReadFrom (Some (codes "client", rows_of (found_of options.now))) result }
{
    if !asks_well(options) {
        return Err(WordsError::NotOne(Choice::Asked));
    }
    match given::text(options, NamedOption::Client(ClientOption::Requests)) {
        None => one_asked(alloc, options),
        Some(name) => many_asked(alloc, options, name),
    }
}

// What they say where no file of requests is named.
fn one_asked(alloc: Global, options: &ArgMatches<'_>) -> Result<Words, WordsError>
    requires { choices.AsksOne (rows_of (found_of options.now)) }
    ensures { IsReadFrom (Some (codes "client", rows_of (found_of options.now))) result }
{
    Ok(Words::Client(client_words(alloc, options)?))
}

// What they say where this one is.
fn many_asked(alloc: Global, options: &ArgMatches<'_>, name: &str) -> Result<Words, WordsError>
    requires { choices.AsksMany (rows_of (found_of options.now)) name.now }
    ensures { IsReadFrom (Some (codes "client", rows_of (found_of options.now))) result }
{
    Ok(Words::Requests(requests_words(alloc, options, name)?))
}

fn requests_words(
    alloc: Global,
    options: &ArgMatches<'_>,
    name: &str,
) -> Result<RequestsWords, WordsError>
    requires { choices.AsksMany (rows_of (found_of options.now)) name.now }
    ensures { MatchResult result (spec.AreRequestsWords (rows_of (found_of options.now))) (IsRequestsRefusal (rows_of (found_of options.now))) }
{
    let patience = patience(options)?;
    let every = given::number(options, NamedOption::Client(ClientOption::Every))?;
    Ok(RequestsWords {
        patience,
        requests: FileName::new(alloc, name)?,
        every,
        again: given::is_set(options, "again"),
        check: given::is_set(options, "check"),
        config: given::file(alloc, options, NamedOption::Client(ClientOption::Config))?,
    })
}

// ---- which of them are given

// Whether what is given goes together.
fn asks_well(options: &ArgMatches<'_>) -> bool
    ensures { result ≡ choices.asks_well (rows_of (found_of options.now)) }
{
    if has(options, ClientOption::Requests) {
        !(has(options, ClientOption::Method)
            || has(options, ClientOption::Path)
            || shapes_one(options))
    } else {
        has(options, ClientOption::Method)
            && has(options, ClientOption::Path)
            && !shapes_many(options)
    }
}

fn shapes_one(options: &ArgMatches<'_>) -> bool
    ensures { result ≡ choices.shapes_one (rows_of (found_of options.now)) }
{
    has(options, ClientOption::Payload)
        || has(options, ClientOption::Text)
        || has(options, ClientOption::PayloadFile)
        || has(options, ClientOption::Format)
        || given::is_set(options, "raw")
}

fn shapes_many(options: &ArgMatches<'_>) -> bool
    ensures { result ≡ choices.shapes_many (rows_of (found_of options.now)) }
{
    has(options, ClientOption::Every) || given::is_set(options, "again")
}

fn has(options: &ArgMatches<'_>, option: ClientOption) -> bool
    ensures { result ≡ choices.has option (rows_of (found_of options.now)) }
{
    match given::text(options, NamedOption::Client(option)) {
        Some(_) => true,
        None => false,
    }
}
