//! What the options of `osc server` and `osc proxy` stand for.
ghost use Rattle.std.specs.Prelude.{◌≡◌, IfNone, MatchResult};
ghost use Rattle.clap.specs.Words.{found_of, rows_of};
ghost use Rattle.osc_words.specs.NodeWords as spec;
ghost use Rattle.osc_script.specs.{Reads};
ghost use Rattle.osc_words.specs.Inner.Reading.{IsNodeRefusal, IsRefusalOf};
ghost use Rattle.osc_words.specs.declared.node_words.LogForm.{LogForm as AnyForm};

use crate::given;
use crate::named_option::NamedOption;
use crate::source::FileName;
use crate::words::WordsError;
use clap::ArgMatches;
use osc_script::values;
use std::alloc::Global;

/// What a server or a proxy is asked for.
#[derive(Debug, PartialEq, Eq, Drop)]
pub struct NodeWords {
    /// After how many turns it ends; `u64::MAX` where none are given.
    pub turns: u64,
    /// How it tells of each turn, if it does.
    pub log: Option<LogForm>,
    /// After how many seconds that tells its counters.
    pub counters: u32,
    /// Whether it only reads its settings, and says what it understood.
    pub check: bool,
    /// The file that its settings are in; they come on the standard input where there is none.
    pub config: Option<FileName>,
}

/// How a node tells of its turns.
#[derive(Clone, Copy, Debug, PartialEq, Eq)]
pub enum LogForm {
    /// By lines of text.
    Text,
    /// By JSON objects, one a line.
    Json,
}

impl LogForm {
    /// The form of this name.
    pub(crate) fn named(text: &str) -> Option<LogForm>
        ensures value { result ≡ spec.log_form_named text.now }
        ensures none { IfNone result ((form : AnyForm) → ¬ spec.SpellsLogForm text.now form) }
    {
        if text == "text" {
            Some(LogForm::Text)
        } else if text == "json" {
            Some(LogForm::Json)
        } else {
            None
        }
    }
}

/// What the options say of a node whose `--turns` is this option.
pub(crate) fn node_words(
    alloc: Global,
    options: &ArgMatches<'_>,
    turns: NamedOption,
) -> Result<NodeWords, WordsError>
    ensures { MatchResult result
        (spec.AreNodeWords turns (rows_of (found_of options.now)))
        (IsNodeRefusal turns (rows_of (found_of options.now))) }
{
    Ok(NodeWords {
        turns: given::turns(options, turns)?,
        log: given::log_form(options, NamedOption::NodeLog)?,
        counters: counters(options)?,
        check: given::is_set(options, "check"),
        config: given::file(alloc, options, NamedOption::NodeConfig)?,
    })
}

// After how many seconds a log tells its counters.
fn counters(options: &ArgMatches<'_>) -> Result<u32, WordsError>
    ensures { MatchResult result
        (spec.SayCounters (rows_of (found_of options.now)))
        (IsRefusalOf NamedOption.NodeCounters (spec.SayCounters (rows_of (found_of options.now)))) }
{
    let option = NamedOption::NodeCounters;
    let log = given::text(options, NamedOption::NodeLog);
    match (log, given::text(options, option)) {
        (_, None) => Ok(3600),
        (Some(_), Some(text)) => seconds(text).ok_or(WordsError::Value(option)),
        (None, Some(_)) => Err(WordsError::Value(option)),
    }
}

fn seconds(text: &str) -> Option<u32>
    ensures { Reads (spec.SpellsCounters text.now) result }
{
    let seconds = values::number(text)?;
    if 1 <= seconds && seconds <= 4294967295 {
        Some(seconds as u32)
    } else {
        None
    }
}
