//! What the options of `osc client` stand for.
ghost use Rattle.std.specs.Prelude.{◌≡◌, MatchResult, Some};
ghost use Rattle.clap.specs.Words.{found_of, rows_of};
ghost use Rattle.osc_model.specs.{IsPath};
ghost use Rattle.osc_script.specs.{SpellsShortNumber};
ghost use Rattle.osc_words.specs.ClientWords as spec;
ghost use Rattle.osc_words.specs.NamedOptions.{value_of};
ghost use Rattle.osc_words.specs.Inner.Reading.{IsClientRefusal, IsPatienceRefusal, IsRefusalOf};
ghost use Rattle.osc_words.specs.Values.{IsGiven};

use crate::choice::Choice;
use crate::client_option::ClientOption;
use crate::named_option::NamedOption;
use crate::source::FileName;
use crate::times::Patience;
use crate::words::WordsError;
use crate::{given, times};
use clap::ArgMatches;
use osc_model::{Bytes, Code, ETags, Path, Request};
use osc_script::values;
use std::alloc::Global;

/// What `osc client` is asked for, before the file is read that the payload may be in.
#[derive(Debug, PartialEq, Eq, Drop)]
pub struct ClientWords {
    /// How long it waits, for both of its messages together.
    pub patience: Patience,
    /// What it asks for, under the context of its token. The code is a method's, 1 to 4. The payload is empty where it is in a file.
    pub request: Request,
    /// The file that the payload is in, if it does.
    pub payload_file: Option<FileName>,
    /// Whether only the bytes of an answer's payload are printed.
    pub raw: bool,
    /// Whether it only reads its settings, and says what it understood.
    pub check: bool,
    /// The file that its settings are in; they come on the standard input where there is none.
    pub config: Option<FileName>,
}

/// What the options say of a client.
pub(crate) fn client_words(
    alloc: Global,
    options: &ArgMatches<'_>,
) -> Result<ClientWords, WordsError>
    ensures { MatchResult result (spec.AreClientWords (rows_of (found_of options.now))) (IsClientRefusal (rows_of (found_of options.now))) }
{
    let patience = patience(options)?;
    let (payload, payload_file) = payload(alloc, options)?;
    Ok(ClientWords {
        patience,
        request: request(alloc, options, payload)?,
        payload_file,
        raw: given::is_set(options, "raw"),
        check: given::is_set(options, "check"),
        config: given::file(alloc, options, NamedOption::Client(ClientOption::Config))?,
    })
}

fn request(alloc: Global, options: &ArgMatches<'_>, payload: Bytes) -> Result<Request, WordsError>
    ensures { MatchResult result (spec.AreRequest (rows_of (found_of options.now)) payload) (IsClientRefusal (rows_of (found_of options.now))) }
{
    Ok(Request {
        code: code(options)?,
        format: format(options)?,
        path: Some(path(alloc, options)?),
        payload,
        accept: None,
        if_match: ETags::new(alloc),
        if_none_match: false,
    })
}

// ---- one of several options

/// How long it waits: a number of turns, or of seconds.
pub(crate) fn patience(options: &ArgMatches<'_>) -> Result<Patience, WordsError>
    ensures { MatchResult result (spec.SaysPatience (rows_of (found_of options.now))) (IsPatienceRefusal (rows_of (found_of options.now))) }
{
    let turns = given::text(options, NamedOption::Client(ClientOption::Turns));
    let seconds = given::text(options, NamedOption::Client(ClientOption::Timeout));
    match (turns, seconds) {
        (Some(text), None) => match values::number(text) {
            Some(turns) => Ok(Patience::of_turns(turns)),
            None => Err(WordsError::Value(NamedOption::Client(ClientOption::Turns))),
        },
        (None, Some(text)) => match times::timeout(text) {
            Some(millis) => Ok(Patience::of_millis(millis)),
            None => Err(WordsError::Value(NamedOption::Client(ClientOption::Timeout))),
        },
        (Some(_), Some(_)) | (None, None) => Err(WordsError::NotOne(Choice::Patience)),
    }
}

// The payload, or the file that it is in; one that no option gives is empty.
fn payload(alloc: Global, options: &ArgMatches<'_>) -> Result<(Bytes, Option<FileName>), WordsError>
    ensures { MatchResult result (λ read. spec.SaysPayload (rows_of (found_of options.now)) read.0 read.1) (IsClientRefusal (rows_of (found_of options.now))) }
{
    let hex = given::text(options, NamedOption::Client(ClientOption::Payload));
    let text = given::text(options, NamedOption::Client(ClientOption::Text));
    let file = given::text(options, NamedOption::Client(ClientOption::PayloadFile));
    match (hex, text, file) {
        (None, None, Some(name)) => Ok((Bytes::new(alloc), Some(FileName::new(alloc, name)?))),
        (None, Some(text), None) => Ok((Bytes::from_slice(alloc, text.as_bytes())?, None)),
        (hex, None, None) => match values::bytes(alloc, hex.unwrap_or(""))? {
            Some(bytes) => Ok((bytes, None)),
            None => Err(WordsError::Value(NamedOption::Client(ClientOption::Payload))),
        },
        _ => Err(WordsError::NotOne(Choice::Payload)),
    }
}

// ---- one option

// The code of the method.
fn code(options: &ArgMatches<'_>) -> Result<Code, WordsError>
    ensures { MatchResult result
        (λ code. IsGiven spec.SpellsMethod (value_of (NamedOption.Client ClientOption.Method) (rows_of (found_of options.now))) (Some code))
        (IsRefusalOf (NamedOption.Client ClientOption.Method) (λ code. IsGiven spec.SpellsMethod (value_of (NamedOption.Client ClientOption.Method) (rows_of (found_of options.now))) (Some code))) }
{
    let option = NamedOption::Client(ClientOption::Method);
    let Some(method) = values::method(given::required_text(options, option)?) else {
        return Err(WordsError::Value(option));
    };
    Ok(method.code())
}

fn path(alloc: Global, options: &ArgMatches<'_>) -> Result<Path, WordsError>
    ensures { MatchResult result
        (λ path. (value_of (NamedOption.Client ClientOption.Path) (rows_of (found_of options.now)) ≡ Some path) × IsPath path)
        (IsRefusalOf (NamedOption.Client ClientOption.Path) (λ path. (value_of (NamedOption.Client ClientOption.Path) (rows_of (found_of options.now)) ≡ Some path) × IsPath path)) }
{
    let option = NamedOption::Client(ClientOption::Path);
    let text = given::required_text(options, option)?;
    let Some(path) = Path::from_text(alloc, text.as_bytes())? else {
        return Err(WordsError::Value(option));
    };
    Ok(path)
}

// The format, where it is given.
fn format(options: &ArgMatches<'_>) -> Result<Option<u16>, WordsError>
    ensures { MatchResult result
        (IsGiven SpellsShortNumber (value_of (NamedOption.Client ClientOption.Format) (rows_of (found_of options.now))))
        (IsRefusalOf (NamedOption.Client ClientOption.Format) (IsGiven SpellsShortNumber (value_of (NamedOption.Client ClientOption.Format) (rows_of (found_of options.now))))) }
{
    let option = NamedOption::Client(ClientOption::Format);
    let Some(text) = given::text(options, option) else {
        return Ok(None);
    };
    let Some(format) = values::short_number(text) else {
        return Err(WordsError::Value(option));
    };
    Ok(Some(format))
}
