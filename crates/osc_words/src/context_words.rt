//! What the options of `osc context` stand for.
ghost use Rattle.std.specs.Prelude.{◌≡◌, IfNone, MatchResult, Some};
ghost use Rattle.clap.specs.Words.{found_of, rows_of};
ghost use Rattle.osc_words.specs.ContextWords as spec;
ghost use Rattle.osc_words.specs.NamedOptions.{value_of};
ghost use Rattle.osc_words.specs.Inner.Reading.{IsContextRefusal, IsRefusalOf};
ghost use Rattle.osc_words.specs.Times.{SpellsPatience};
ghost use Rattle.osc_words.specs.Values.{IsGiven};
ghost use Rattle.osc_words.specs.declared.context_words.ContextForm.{ContextForm as AnyForm};

use crate::named_option::NamedOption;
use crate::source::FileName;
use crate::times::Patience;
use crate::words::WordsError;
use crate::{given, times};
use clap::ArgMatches;
use std::alloc::Global;

/// What `osc context` is asked for.
#[derive(Debug, PartialEq, Eq, Drop)]
pub struct ContextWords {
    /// For which stack the context is written.
    pub form: ContextForm,
    /// How long it waits; without an end where no seconds are given.
    pub patience: Patience,
    /// The file that the context is written to, or for aiocoap the folder; it goes to the standard output where there is none.
    pub out: Option<FileName>,
    /// The file that the settings are in; they come on the standard input where there is none.
    pub config: Option<FileName>,
}

/// For which stack a security context is written.
#[derive(Clone, Copy, Debug, PartialEq, Eq)]
pub enum ContextForm {
    /// As the file that `coap-client -E` of libcoap reads.
    Libcoap,
    /// As the files in the folder of a context of aiocoap.
    Aiocoap,
    /// As one JSON object.
    Json,
}

impl ContextForm {
    /// The form of this name.
    pub(crate) fn named(text: &str) -> Option<ContextForm>
        ensures value { result ≡ spec.context_form_named text.now }
        ensures none { IfNone result ((form : AnyForm) → ¬ spec.SpellsContextForm text.now form) }
    {
        if text == "libcoap" {
            Some(ContextForm::Libcoap)
        } else if text == "aiocoap" {
            Some(ContextForm::Aiocoap)
        } else if text == "json" {
            Some(ContextForm::Json)
        } else {
            None
        }
    }
}

/// What the options say of a context.
pub(crate) fn context_words(
    alloc: Global,
    options: &ArgMatches<'_>,
) -> Result<ContextWords, WordsError>
    ensures { MatchResult result (spec.AreContextWords (rows_of (found_of options.now))) (IsContextRefusal (rows_of (found_of options.now))) }
{
    Ok(ContextWords {
        form: form(options)?,
        patience: patience(options)?,
        out: given::file(alloc, options, NamedOption::ContextOut)?,
        config: given::file(alloc, options, NamedOption::NodeConfig)?,
    })
}

fn form(options: &ArgMatches<'_>) -> Result<ContextForm, WordsError>
    ensures { MatchResult result
        (λ form. IsGiven spec.SpellsContextForm (value_of NamedOption.ContextForm (rows_of (found_of options.now))) (Some form))
        (IsRefusalOf NamedOption.ContextForm (λ form. IsGiven spec.SpellsContextForm (value_of NamedOption.ContextForm (rows_of (found_of options.now))) (Some form))) }
{
    let option = NamedOption::ContextForm;
    let Some(form) = ContextForm::named(given::required_text(options, option)?) else {
        return Err(WordsError::Value(option));
    };
    Ok(form)
}

// How long it waits.
fn patience(options: &ArgMatches<'_>) -> Result<Patience, WordsError>
    ensures { MatchResult result
        (SpellsPatience (value_of NamedOption.ContextTimeout (rows_of (found_of options.now))))
        (IsRefusalOf NamedOption.ContextTimeout (SpellsPatience (value_of NamedOption.ContextTimeout (rows_of (found_of options.now))))) }
{
    let option = NamedOption::ContextTimeout;
    let Some(text) = given::text(options, option) else {
        return Ok(Patience::of_turns(u64::MAX));
    };
    let Some(millis) = times::timeout(text) else {
        return Err(WordsError::Value(option));
    };
    Ok(Patience::of_millis(millis))
}
