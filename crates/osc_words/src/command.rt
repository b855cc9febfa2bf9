//! The words of the command line.
ghost use Rattle.std.specs.Prelude.{◌≡◌, IfOk, MatchResult, Err, Some, true, false, [], map, option_map, codes, fold};
ghost use Rattle.clap.specs.Words.{FailsBy, app_of, fault_of, first_of, found_of, new_app, rows_of, subcommand_of, subcommand_rows_of, with_rule, with_subcommand};
ghost use Rattle.clap.specs.declared.builder.command.Command.TheViews.{out-Command};
ghost use Rattle.osc_words.specs.Command as spec;
ghost use Rattle.osc_words.specs.NamedOptions.{name_of};
ghost use Rattle.osc_words.specs.ClientOptions.{option_rule};
ghost use Rattle.osc_words.specs.Options.{flag_rule, form_rule, value_rule, word_rule};
ghost use Rattle.osc_words.specs.Inner.Reading.{IsKnown, IsReadFrom};
ghost use Rattle.osc_words.specs.declared.choice.Choice.{Choice as AnyChoice};
ghost use Rattle.osc_words.specs.declared.named_option.NamedOption.{NamedOption as AnyOption};
ghost use Rattle.osc_words.specs.declared.words.Words.{Words as AnyWords};

use crate::client_option::ClientOption;
use crate::context_words::context_words;
use crate::named_option::NamedOption;
use crate::node_words::node_words;
use crate::requests_words::client_asked;
use crate::sim_words::SimWords;
use crate::source::FileName;
use crate::store_words::StoreWords;
use crate::token_option::TokenOption;
use crate::words::{Words, WordsError};
use crate::{given, token_words};
use clap::{Arg, ArgAction, ArgMatches, Command, Error};
use std::alloc::{AllocError, Global};

const TOKEN_EXAMPLE: &str =
    "Example: osc token --key 404142434445464748494a4b4c4d4e4f --aud s --id 01 --secret 0123456789abcdef --scope /log:GET+POST";

const LINES_HELP: &str = "Prints the number of the script's line before each line that it prints";

const CHECK_HELP: &str = "Reads the settings, says what they are but for what is secret, and ends";

const DUMP_HELP: &str = "Prints the resources as settings name them, in place of their list";

const UNTIL_DAMAGE_HELP: &str = "Takes of a damaged log what stands before the damage";

const IPV6_HELP: &str = "Binds the sockets at [::1] in place of 127.0.0.1";

const AGAIN_HELP: &str =
    "Sends a request of --requests again under a new context also where it may have been served";

const RAW_HELP: &str = "Prints the bytes of the answer's payload, and nothing else";

/// Reads a command line, the program's own name first.
///
/// # Errors
///
/// `Clap` for a fault of the words and for a wish for help or the version, then `Value` for an option whose value isn't one
/// that it may have, or `NotOne` for a value whose options aren't given as they have to be; `Memory` for lack of memory.
pub fn read_words(alloc: Global, words: &[&str]) -> Result<Words, WordsError>
    // What is read is what the words stand for ..
    ensures read { IfOk result (λ read. spec.StandFor (map (λ word. word.now) words.now) read) }
    // .. and is read only from words without a fault.
    ensures fault { MatchResult result
        (λ _. fault_of spec.program (map (λ word. word.now) words.now) ≡ [])
        (spec.HaveFault (map (λ word. word.now) words.now)) }
    ensures method { IfOk result spec.AsksByMethod }
    ensures nothing { (option : AnyOption) → result ≡ Err (WordsError.Value option)
        → (read : AnyWords) → ¬ spec.StandFor (map (λ word. word.now) words.now) read }
    ensures not_one { (choice : AnyChoice) → result ≡ Err (WordsError.NotOne choice)
        → (read : AnyWords) → ¬ spec.StandFor (map (λ word. word.now) words.now) read }
{
    let matches = read_matches(alloc, words)?;
    words_in(alloc, &matches)
}

// What the subcommand that was entered asks for.
fn words_in(alloc: Global, matches: &ArgMatches<'_>) -> Result<Words, WordsError>
    requires { IsKnown (subcommand_rows_of matches.now) }
    ensures { IsReadFrom (subcommand_rows_of matches.now) result }
{
    match matches.subcommand() {
        Some(("sim", options)) => sim_asked(alloc, options),
        Some(("token", options)) => token_asked(alloc, options),
        Some(("key", _)) => Ok(Words::Key),
        Some(("store", options)) => store_asked(alloc, options),
        Some(("server", options)) => server_asked(alloc, options),
        Some(("proxy", options)) => proxy_asked(alloc, options),
        Some(("client", options)) => client_asked(alloc, options),
        Some(("context", options)) => context_asked(alloc, options),
        Some(("lab", options)) => lab_asked(options),
        _ => unreachable!(),
    }
}

// What `osc sim` asks for with these options.
fn sim_asked(alloc: Global, options: &ArgMatches<'_>) -> Result<Words, WordsError>
    ensures { IsReadFrom (Some (codes "sim", rows_of (found_of options.now))) result }
{
    Ok(Words::Sim(SimWords {
        bytes: given::is_set(options, "bytes"),
        lines: given::is_set(options, "lines"),
        only: given::client(options, NamedOption::SimOnly)?,
        diagram: given::form(options, NamedOption::SimDiagram)?,
        pcap: given::file(alloc, options, NamedOption::SimPcap)?,
    }))
}

// What `osc token` asks for.
fn token_asked(alloc: Global, options: &ArgMatches<'_>) -> Result<Words, WordsError>
    ensures { IsReadFrom (Some (codes "token", rows_of (found_of options.now))) result }
{
    Ok(Words::Token(token_words::token_asked(alloc, options)?))
}

// What `osc store` asks for.
fn store_asked(alloc: Global, options: &ArgMatches<'_>) -> Result<Words, WordsError>
    ensures { IsReadFrom (Some (codes "store", rows_of (found_of options.now))) result }
{
    let name = given::required_text(options, NamedOption::StoreFile)?;
    Ok(Words::Store(StoreWords {
        file: FileName::new(alloc, name)?,
        dump: given::is_set(options, "dump"),
        until_damage: given::is_set(options, "until-damage"),
        backup: given::file(alloc, options, NamedOption::StoreBackup)?,
    }))
}

// What `osc server` asks for.
fn server_asked(alloc: Global, options: &ArgMatches<'_>) -> Result<Words, WordsError>
    ensures { IsReadFrom (Some (codes "server", rows_of (found_of options.now))) result }
{
    Ok(Words::Server(node_words(alloc, options, NamedOption::ServerTurns)?))
}

// What `osc proxy` asks for.
fn proxy_asked(alloc: Global, options: &ArgMatches<'_>) -> Result<Words, WordsError>
    ensures { IsReadFrom (Some (codes "proxy", rows_of (found_of options.now))) result }
{
    Ok(Words::Proxy(node_words(alloc, options, NamedOption::ProxyTurns)?))
}

// What `osc context` asks for.
fn context_asked(alloc: Global, options: &ArgMatches<'_>) -> Result<Words, WordsError>
    ensures { IsReadFrom (Some (codes "context", rows_of (found_of options.now))) result }
{
    Ok(Words::Context(context_words(alloc, options)?))
}

// What `osc lab` asks for.
fn lab_asked(options: &ArgMatches<'_>) -> Result<Words, WordsError>
    ensures { IsReadFrom (Some (codes "lab", rows_of (found_of options.now))) result }
{
    Ok(Words::Lab {
        turns: given::required_number(options, NamedOption::LabTurns)?,
        ipv6: given::is_set(options, "ipv6"),
    })
}

// The matches of the words, with those of the subcommand that they name.
fn read_matches<'a>(alloc: Global, words: &'a [&'a str]) -> Result<ArgMatches<'a>, Error>
    ensures entered { IfOk result (λ matches. subcommand_rows_of matches ≡ subcommand_of spec.program (map (λ word. word.now) words.now)) }
    ensures fault { FailsBy (fault_of spec.program (map (λ word. word.now) words.now)) result }
{
    program(alloc)?.try_get_matches_from(words)
}

// The command line of the program.
fn program<'a>(alloc: Global) -> Result<Command<'a>, AllocError>
    ensures { IfOk result (λ command. app_of command ≡ spec.program) }
{
    with_asking(alloc, with_nodes(alloc, with_tools(alloc)?)?)
}

// The program with the subcommands that open no socket.
fn with_tools<'a>(alloc: Global) -> Result<Command<'a>, AllocError>
    ensures { IfOk result (λ command. app_of command
        ≡ with_subcommand (with_subcommand (with_subcommand (with_subcommand spec.bare_program spec.sim_app.top) spec.token_app.top) spec.key_app.top) spec.store_app.top) }
{
    bare_program(alloc)
        .subcommand(sim_command(alloc)?)?
        .subcommand(token_command(alloc)?)?
        .subcommand(key_command(alloc))?
        .subcommand(store_command(alloc)?)
}

// The command with the subcommands of the nodes that are asked.
fn with_nodes<'a>(alloc: Global, command: Command<'a>) -> Result<Command<'a>, AllocError>
    ensures { IfOk result (λ more. app_of more
        ≡ with_subcommand (with_subcommand (app_of command.entry) (spec.node_app (codes "server")).top) (spec.node_app (codes "proxy")).top) }
{
    command
        .subcommand(server_command(alloc)?)?
        .subcommand(proxy_command(alloc)?)
}

// The command with the subcommands that ask.
fn with_asking<'a>(alloc: Global, command: Command<'a>) -> Result<Command<'a>, AllocError>
    ensures { IfOk result (λ more. app_of more
        ≡ with_subcommand (with_subcommand (with_subcommand (app_of command.entry) spec.client_app.top) spec.context_app.top) spec.lab_app.top) }
{
    command
        .subcommand(client_command(alloc)?)?
        .subcommand(context_command(alloc)?)?
        .subcommand(lab_command(alloc)?)
}

// The program without its subcommands.
fn bare_program<'a>(alloc: Global) -> Command<'a>
    ensures app { app_of result ≡ spec.bare_program }
    ensures local { (out-Command result).has_globals ≡ false }
{
    Command::new(alloc, "osc")
        .version("0.1.0")
        .about("CoAP nodes that are protected by OSCORE, and the tokens that they take")
        .subcommand_required(true)
}

// The subcommand that runs a script.
fn sim_command<'a>(alloc: Global) -> Result<Command<'a>, AllocError>
    ensures app { IfOk result (λ command. app_of command ≡ spec.sim_app) }
    ensures local { IfOk result (λ command. (out-Command command).has_globals ≡ false) }
{
    let command = Command::new(alloc, "sim")
        .about("Runs the script on the standard input, and prints its trace")
        .after_help("Example: osc sim --diagram --pcap run.pcap < SCRIPT");
    let command = with_flag(alloc, command, "bytes", "Prints the bytes of each datagram")?;
    let command = with_flag(alloc, command, "lines", LINES_HELP)?;
    let command = with_option(alloc, command, NamedOption::SimOnly, false)?;
    let command = with_form(alloc, command, NamedOption::SimDiagram, "text")?;
    with_option(alloc, command, NamedOption::SimPcap, false)
}

// The subcommand that mints a token.
fn token_command<'a>(alloc: Global) -> Result<Command<'a>, AllocError>
    ensures app { IfOk result (λ command. app_of command ≡ spec.token_app) }
    ensures local { IfOk result (λ command. (out-Command command).has_globals ≡ false) }
{
    let mut command = Command::new(alloc, "token")
        .about("Prints a token in hexadecimal")
        .after_help(TOKEN_EXAMPLE);
    for option in TokenOption::ALL {
        command = with_option(
            alloc,
            command,
            NamedOption::Token(option),
            option.is_required(),
        )?;
    }
    Ok(command)
}

// The subcommand that prints a key.
fn key_command<'a>(alloc: Global) -> Command<'a>
    ensures app { app_of result ≡ spec.key_app }
    ensures local { (out-Command result).has_globals ≡ false }
{
    Command::new(alloc, "key")
        .about("Prints 16 bytes in hexadecimal, drawn at random: a key, or a secret")
        .after_help("Example: osc key > KEY-FILE")
}

// The subcommand that lists a store, or copies it.
fn store_command<'a>(alloc: Global) -> Result<Command<'a>, AllocError>
    ensures app { IfOk result (λ command. app_of command ≡ spec.store_app) }
    ensures local { IfOk result (λ command. (out-Command command).has_globals ≡ false) }
{
    let command = Command::new(alloc, "store")
        .about("Lists the resources that a server's store holds")
        .after_help("Example: osc store --backup STORE.backup STORE");
    let command = with_flag(alloc, command, "dump", DUMP_HELP)?;
    let command = with_flag(alloc, command, "until-damage", UNTIL_DAMAGE_HELP)?;
    let command = with_option(alloc, command, NamedOption::StoreBackup, false)?;
    let option = NamedOption::StoreFile;
    with_word(
        alloc,
        command,
        option.name(),
        option.value_name(),
        option.help(),
    )
}

// The subcommand that runs a server.
fn server_command<'a>(alloc: Global) -> Result<Command<'a>, AllocError>
    ensures app { IfOk result (λ command. app_of command ≡ spec.node_app (codes "server")) }
    ensures local { IfOk result (λ command. (out-Command command).has_globals ≡ false) }
{
    let command = Command::new(alloc, "server")
        .about("Runs a server on a UDP socket, by settings in a file or on the standard input")
        .after_help("Example: osc server --log --config SETTINGS");
    with_node_options(alloc, command, NamedOption::ServerTurns)
}

// The subcommand that runs a forward proxy.
fn proxy_command<'a>(alloc: Global) -> Result<Command<'a>, AllocError>
    ensures app { IfOk result (λ command. app_of command ≡ spec.node_app (codes "proxy")) }
    ensures local { IfOk result (λ command. (out-Command command).has_globals ≡ false) }
{
    let command = Command::new(alloc, "proxy")
        .about(
            "Runs a forward proxy on a UDP socket, by settings in a file or on the standard input",
        )
        .after_help("Example: osc proxy --turns 1000 < SETTINGS");
    with_node_options(alloc, command, NamedOption::ProxyTurns)
}

// A command with the options of a node.
fn with_node_options<'a>(
    alloc: Global,
    command: Command<'a>,
    turns: NamedOption,
) -> Result<Command<'a>, AllocError>
    ensures app { IfOk result (λ more. app_of more ≡ with_rule (with_rule (with_rule (with_rule (with_rule (app_of command.entry)
        (value_rule (codes "config") false)) (flag_rule (codes "check"))) (value_rule (name_of turns) false)) (form_rule (codes "log") (codes "text"))) (value_rule (codes "counters") false)) }
    ensures local { IfOk result (λ more. (out-Command more).has_globals ≡ (out-Command command.entry).has_globals) }
{
    let command = with_option(alloc, command, NamedOption::NodeConfig, false)?;
    let command = with_flag(alloc, command, "check", CHECK_HELP)?;
    let command = with_option(alloc, command, turns, false)?;
    let command = with_form(alloc, command, NamedOption::NodeLog, "text")?;
    with_option(alloc, command, NamedOption::NodeCounters, false)
}

// The subcommand that asks a server.
fn client_command<'a>(alloc: Global) -> Result<Command<'a>, AllocError>
    ensures app { IfOk result (λ command. app_of command ≡ spec.client_app) }
    ensures local { IfOk result (λ command. (out-Command command).has_globals ≡ false) }
{
    let command = client_options(alloc)?;
    let command = with_flag(alloc, command, "raw", RAW_HELP)?;
    let command = with_flag(alloc, command, "again", AGAIN_HELP)?;
    with_flag(alloc, command, "check", CHECK_HELP)
}

// The same without its flags.
fn client_options<'a>(alloc: Global) -> Result<Command<'a>, AllocError>
    ensures app { IfOk result (λ command. app_of command ≡ fold (λ app option. with_rule app (option_rule option)) (new_app (codes "client")) spec.client_options) }
    ensures local { IfOk result (λ command. (out-Command command).has_globals ≡ false) }
{
    let mut command = Command::new(alloc, "client")
        .about(
            "Posts a token and asks for a resource, by settings in a file or on the standard input",
        )
        .after_help(
            "Example: osc client --timeout 10 --method POST --path /log --text a --config SETTINGS",
        );
    for option in ClientOption::ALL {
        command = with_option(alloc, command, NamedOption::Client(option), false)?;
    }
    Ok(command)
}

// The subcommand that writes a security context.
fn context_command<'a>(alloc: Global) -> Result<Command<'a>, AllocError>
    ensures app { IfOk result (λ command. app_of command ≡ spec.context_app) }
    ensures local { IfOk result (λ command. (out-Command command).has_globals ≡ false) }
{
    let command = Command::new(alloc, "context")
        .about(
            "Posts a token and writes the security context for another stack, by the settings of a client",
        )
        .after_help("Example: osc context --form libcoap --config SETTINGS --out CONTEXT");
    let command = with_option(alloc, command, NamedOption::ContextForm, true)?;
    let command = with_option(alloc, command, NamedOption::ContextTimeout, false)?;
    let command = with_option(alloc, command, NamedOption::NodeConfig, false)?;
    with_option(alloc, command, NamedOption::ContextOut, false)
}

// The subcommand that runs a script over sockets.
fn lab_command<'a>(alloc: Global) -> Result<Command<'a>, AllocError>
    ensures app { IfOk result (λ command. app_of command ≡ spec.lab_app) }
    ensures local { IfOk result (λ command. (out-Command command).has_globals ≡ false) }
{
    let command = Command::new(alloc, "lab")
        .about(
            "Runs the script on the standard input over UDP sockets, and prints what clients get",
        )
        .after_help("Example: osc lab --turns 1000000 < SCRIPT");
    let command = with_option(alloc, command, NamedOption::LabTurns, true)?;
    with_flag(alloc, command, "ipv6", IPV6_HELP)
}

// A flag.
fn with_flag<'a>(
    alloc: Global,
    command: Command<'a>,
    name: &'a str,
    help: &'a str,
) -> Result<Command<'a>, AllocError>
    ensures app { IfOk result (λ more. app_of more ≡ with_rule (app_of command.entry) (flag_rule name.entry.now)) }
    ensures local { IfOk result (λ more. (out-Command more).has_globals ≡ (out-Command command.entry).has_globals) }
{
    let arg = Arg::new(alloc, name)
        .long(name)
        .help(help)
        .action(ArgAction::SetTrue);
    command.arg(arg)
}

// An option with one value.
fn with_option<'a>(
    alloc: Global,
    command: Command<'a>,
    option: NamedOption,
    is_required: bool,
) -> Result<Command<'a>, AllocError>
    ensures app { IfOk result (λ more. app_of more ≡ with_rule (app_of command.entry) (value_rule (name_of option) is_required)) }
    ensures local { IfOk result (λ more. (out-Command more).has_globals ≡ (out-Command command.entry).has_globals) }
{
    with_value(
        alloc,
        command,
        option.name(),
        option.value_name(),
        option.help(),
        is_required,
    )
}

fn with_value<'a>(
    alloc: Global,
    command: Command<'a>,
    name: &'a str,
    value_name: &'a str,
    help: &'a str,
    is_required: bool,
) -> Result<Command<'a>, AllocError>
    ensures app { IfOk result (λ more. app_of more ≡ with_rule (app_of command.entry) (value_rule name.entry.now is_required)) }
    ensures local { IfOk result (λ more. (out-Command more).has_globals ≡ (out-Command command.entry).has_globals) }
{
    let arg = Arg::new(alloc, name)
        .long(name)
        .value_name(value_name)
        .help(help)
        .required(is_required);
    command.arg(arg)
}

// An option whose value is this where it is left out.
fn with_form<'a>(
    alloc: Global,
    command: Command<'a>,
    option: NamedOption,
    missing: &'a str,
) -> Result<Command<'a>, AllocError>
    ensures app { IfOk result (λ more. app_of more ≡ with_rule (app_of command.entry) (form_rule (name_of option) missing.entry.now)) }
    ensures local { IfOk result (λ more. (out-Command more).has_globals ≡ (out-Command command.entry).has_globals) }
{
    with_missing(
        alloc,
        command,
        option.name(),
        option.value_name(),
        option.help(),
        missing,
    )
}

fn with_missing<'a>(
    alloc: Global,
    command: Command<'a>,
    name: &'a str,
    value_name: &'a str,
    help: &'a str,
    missing: &'a str,
) -> Result<Command<'a>, AllocError>
    ensures app { IfOk result (λ more. app_of more ≡ with_rule (app_of command.entry) (form_rule name.entry.now missing.entry.now)) }
    ensures local { IfOk result (λ more. (out-Command more).has_globals ≡ (out-Command command.entry).has_globals) }
{
    let arg = Arg::new(alloc, name)
        .long(name)
        .value_name(value_name)
        .help(help)
        .num_args(0..=1)
        .default_missing_value(missing);
    command.arg(arg)
}

// A word that has to be there.
fn with_word<'a>(
    alloc: Global,
    command: Command<'a>,
    name: &'a str,
    value_name: &'a str,
    help: &'a str,
) -> Result<Command<'a>, AllocError>
    ensures app { IfOk result (λ more. app_of more ≡ with_rule (app_of command.entry) (word_rule name.entry.now)) }
    ensures local { IfOk result (λ more. (out-Command more).has_globals ≡ (out-Command command.entry).has_globals) }
{
    let arg = Arg::new(alloc, name)
        .value_name(value_name)
        .help(help)
        .required(true);
    command.arg(arg)
}

/// The first value of an argument.
pub(crate) fn text_of<'a>(options: &ArgMatches<'a>, id: &str) -> Option<&'a str>
    ensures { option_map (λ text. text.now) result ≡ first_of id.now (rows_of (found_of options.now)) }
{
    options.get_str(id)
}
