//! The values that options were given.
ghost use Rattle.std.specs.Prelude.{◌≡◌, IfOk, MatchResult, Some, None, option_map};
ghost use Rattle.clap.specs.Words.{found_of, rows_of};
ghost use Rattle.osc_script.specs.{SpellsNumber};
ghost use Rattle.osc_words.specs.NamedOptions.{value_of};
ghost use Rattle.osc_words.specs.Options as options_spec;
ghost use Rattle.osc_words.specs.Inner.Reading.{IsRefusalOf};
ghost use Rattle.osc_words.specs.NodeWords.{SpellsLogForm};
ghost use Rattle.osc_words.specs.SimWords.{SpellsForm};
ghost use Rattle.osc_words.specs.Values.{IsGiven, SpellsClient, SpellsTurns};

use crate::command::text_of;
use crate::named_option::NamedOption;
use crate::node_words::LogForm;
use crate::sim_words::DiagramForm;
use crate::source::FileName;
use crate::words::WordsError;
use clap::ArgMatches;
use osc_script::{ClientName, values};
use std::alloc::{AllocError, Global};

/// The value that an option was given.
pub(crate) fn text<'a>(options: &ArgMatches<'a>, option: NamedOption) -> Option<&'a str>
    ensures { option_map (λ text. text.now) result ≡ value_of option (rows_of (found_of options.now)) }
{
    text_of(options, option.name())
}

/// Whether a flag was given.
pub(crate) fn is_set(options: &ArgMatches<'_>, flag: &str) -> bool
    ensures { result ≡ options_spec.is_set flag.now (rows_of (found_of options.now)) }
{
    match text_of(options, flag) {
        Some(text) => text == "true",
        None => false,
    }
}

/// The file that an option names, if it is given.
pub(crate) fn file(
    alloc: Global,
    options: &ArgMatches<'_>,
    option: NamedOption,
) -> Result<Option<FileName>, AllocError>
    ensures { IfOk result (λ file. file ≡ value_of option (rows_of (found_of options.now))) }
{
    match text(options, option) {
        Some(name) => Ok(Some(FileName::new(alloc, name)?)),
        None => Ok(None),
    }
}

/// The value of an option that has to be given.
pub(crate) fn required_text<'a>(
    options: &ArgMatches<'a>,
    option: NamedOption,
) -> Result<&'a str, WordsError>
    ensures { MatchResult result
        (λ text. value_of option (rows_of (found_of options.now)) ≡ Some text.now)
        (λ error. (error ≡ WordsError.Value option) × (value_of option (rows_of (found_of options.now)) ≡ None)) }
{
    text(options, option).ok_or(WordsError::Value(option))
}

/// A number, where it is given.
pub(crate) fn number(
    options: &ArgMatches<'_>,
    option: NamedOption,
) -> Result<Option<u64>, WordsError>
    ensures { MatchResult result
        (IsGiven SpellsNumber (value_of option (rows_of (found_of options.now))))
        (IsRefusalOf option (IsGiven SpellsNumber (value_of option (rows_of (found_of options.now))))) }
{
    let Some(text) = text(options, option) else {
        return Ok(None);
    };
    let Some(number) = values::number(text) else {
        return Err(WordsError::Value(option));
    };
    Ok(Some(number))
}

/// A client, where it is given.
pub(crate) fn client(
    options: &ArgMatches<'_>,
    option: NamedOption,
) -> Result<Option<ClientName>, WordsError>
    ensures { MatchResult result
        (IsGiven SpellsClient (value_of option (rows_of (found_of options.now))))
        (IsRefusalOf option (IsGiven SpellsClient (value_of option (rows_of (found_of options.now))))) }
{
    let Some(text) = text(options, option) else {
        return Ok(None);
    };
    let Some(client) = ClientName::named(text) else {
        return Err(WordsError::Value(option));
    };
    Ok(Some(client))
}

/// A form of diagrams, where it is given.
pub(crate) fn form(
    options: &ArgMatches<'_>,
    option: NamedOption,
) -> Result<Option<DiagramForm>, WordsError>
    ensures { MatchResult result
        (IsGiven SpellsForm (value_of option (rows_of (found_of options.now))))
        (IsRefusalOf option (IsGiven SpellsForm (value_of option (rows_of (found_of options.now))))) }
{
    let Some(text) = text(options, option) else {
        return Ok(None);
    };
    let Some(form) = DiagramForm::named(text) else {
        return Err(WordsError::Value(option));
    };
    Ok(Some(form))
}

/// A form of logs, where it is given.
pub(crate) fn log_form(
    options: &ArgMatches<'_>,
    option: NamedOption,
) -> Result<Option<LogForm>, WordsError>
    ensures { MatchResult result
        (IsGiven SpellsLogForm (value_of option (rows_of (found_of options.now))))
        (IsRefusalOf option (IsGiven SpellsLogForm (value_of option (rows_of (found_of options.now))))) }
{
    let Some(text) = text(options, option) else {
        return Ok(None);
    };
    let Some(form) = LogForm::named(text) else {
        return Err(WordsError::Value(option));
    };
    Ok(Some(form))
}

/// A number that has to be given.
pub(crate) fn required_number(
    options: &ArgMatches<'_>,
    option: NamedOption,
) -> Result<u64, WordsError>
    ensures { MatchResult result
        (λ number. IsGiven SpellsNumber (value_of option (rows_of (found_of options.now))) (Some number))
        (IsRefusalOf option (λ number. IsGiven SpellsNumber (value_of option (rows_of (found_of options.now))) (Some number))) }
{
    let Some(number) = values::number(required_text(options, option)?) else {
        return Err(WordsError::Value(option));
    };
    Ok(number)
}

/// How many turns are given; where none are, as many as a number of 64 bits counts.
pub(crate) fn turns(options: &ArgMatches<'_>, option: NamedOption) -> Result<u64, WordsError>
    ensures { MatchResult result
        (λ turns. SpellsTurns (value_of option (rows_of (found_of options.now))) turns)
        (IsRefusalOf option (λ turns. SpellsTurns (value_of option (rows_of (found_of options.now))) turns)) }
{
    Ok(number(options, option)?.unwrap_or(u64::MAX))
}
