//! `osc`: CoAP nodes that are protected by OSCORE. What its subcommands do is in `osc_programs` and `osc_lab`, and how they are asked in `osc_words`.
#![tactic(auto)]

mod private;

use crate::private::Place;
use osc_lab::lab;
use osc_log::{AtOnce, Faults, Form, Lines};
use osc_model::Request;
use osc_programs::{
    Asked, Ended, FaultKeeper, KeepingReader, Manner, TraceForm, ask, ask_each, check_client,
    check_proxy, check_server, draw, ended_by, ended_by_io, filled, forward, issue_key,
    issue_token, list_store, make_context, requests_fault, requests_from, running_fault, serve,
    sim, started_by_io, status, token_fault, token_warning, with_payload, write_capture,
};
use osc_script::form_of;
use osc_words::{
    ClientWords, ContextForm, ContextWords, FileName, LogForm, NodeWords, RequestsWords, SimWords,
    Source, StoreWords, TokenAsked, TokenWords, Words, WordsError, fault_line, read_words,
};
use std::alloc::AllocError;
use std::fs::File;
use std::io::{self, ErrorKind, IsTerminal, Read, Write};
use std::process::ExitCode;
use std::time::Clock;
use std::{env, str};

fn main(rt: HostRuntime) -> ExitCode {
    let ended = match run(&rt) {
        Ok(ended) => ended,
        Err(error) => stopped(&rt, &error),
    };
    ExitCode::from(status(ended))
}

/// Does what the command line asks for.
fn run(rt: &HostRuntime) -> io::Result<Ended> {
    let alloc = rt.alloc();
    let arguments: Vec<String> = env::args(rt)?.collect(alloc)?;
    let words: Vec<&str> = arguments.iter().map(|word| word.as_str()).collect(alloc)?;
    match read_words(alloc, &words) {
        Ok(words) => {
            announce(rt, &words);
            Ok(follow(rt, words))
        }
        Err(error) => explain(rt, &error),
    }
}

/// Does what these words ask for.
fn follow(rt: &HostRuntime, words: Words) -> Ended {
    match words {
        Words::Sim(words) => run_sim(rt, &words),
        Words::Token(asked) => token(rt, asked),
        Words::Key => key(rt),
        Words::Store(words) => tell(rt, store(rt, &words)),
        Words::Server(words) => tell(rt, run_server(rt, &words)),
        Words::Proxy(words) => tell(rt, run_proxy(rt, &words)),
        Words::Client(words) => tell(rt, run_client(rt, words)),
        Words::Context(words) => tell(rt, run_context(rt, &words)),
        Words::Requests(words) => run_requests(rt, &words),
        Words::Lab { turns, ipv6 } => tell(rt, run_lab(rt, turns, ipv6)),
    }
}

/// Where the standard input is a terminal, a line on the standard error says what is read from it.
fn announce(rt: &HostRuntime, words: &Words) {
    if let Some(line) = awaited(words) {
        if rt.reader().is_terminal() {
            notice(rt, line);
        }
    }
}

/// What is read from the standard input, if anything is.
fn awaited(words: &Words) -> Option<&'static str> {
    match words {
        Words::Sim(_) | Words::Lab { .. } => {
            Some("reading the script from standard input; end with Ctrl-D")
        }
        Words::Server(words) | Words::Proxy(words) => awaited_settings(&words.config),
        Words::Client(words) => awaited_settings(&words.config),
        Words::Context(words) => awaited_settings(&words.config),
        Words::Requests(words) if words.requests.as_str() == "-" => {
            Some("reading the requests from standard input; end with Ctrl-D")
        }
        Words::Requests(words) => awaited_settings(&words.config),
        Words::Token(_) | Words::Key | Words::Store(_) => None,
    }
}

fn awaited_settings(config: &Option<FileName>) -> Option<&'static str> {
    match config {
        Some(_) => None,
        None => Some("reading the settings from standard input; end with Ctrl-D"),
    }
}

// ---- scripts

/// A script's trace, or its diagram, goes to the standard output, and then its datagrams to their file where that is wanted.
fn run_sim(rt: &HostRuntime, words: &SimWords) -> Ended {
    let mut input = KeepingReader::new(rt.alloc(), FaultKeeper::new(rt.reader()));
    let mut output = FaultKeeper::new(io::writer(rt));
    let ended = match words.diagram {
        Some(form) => draw(rt.alloc(), &mut input, &mut output, form),
        None => {
            let form = TraceForm {
                bytes: words.bytes,
                lines: words.lines,
            };
            sim(rt.alloc(), &mut input, &mut output, form, words.only)
        }
    };
    tell_line(rt, ended, input.kept());
    tell_streams(
        rt,
        ended,
        STANDARD_INPUT,
        input.inner().fault(),
        output.fault(),
    );
    if ended == Ended::TooLong {
        tell(rt, ended);
    }
    match (ended, &words.pcap) {
        (Ended::Done, Some(name)) => capture(rt, input.kept(), name.as_str()),
        _ => ended,
    }
}

/// The datagrams of a script's run go to the file of this name, and the keys to one beside it.
fn capture(rt: &HostRuntime, script: Option<&[u8]>, name: &str) -> Ended {
    match (script, keys_name(rt, name)) {
        (Some(script), Ok(keys)) => capture_to(rt, script, name, keys.as_str()),
        _ => {
            notice(rt, "out of memory");
            Ended::OutOfMemory
        }
    }
}

/// The name of the file of keys beside this one.
fn keys_name(rt: &HostRuntime, name: &str) -> Result<String, AllocError> {
    format!(in rt.alloc(); "{name}.keys")
}

fn capture_to(rt: &HostRuntime, script: &[u8], name: &str, keys_name: &str) -> Ended {
    match File::create(rt, name) {
        Ok(file) => match File::create(rt, keys_name) {
            Ok(keys) => capture_in(rt, script, (name, file), (keys_name, keys)),
            Err(error) => unwritten(rt, keys_name, &error),
        },
        Err(error) => unwritten(rt, name, &error),
    }
}

fn capture_in(rt: &HostRuntime, script: &[u8], file: (&str, File), keys: (&str, File)) -> Ended {
    let mut datagrams = FaultKeeper::new(file.1);
    let mut lines = FaultKeeper::new(keys.1);
    let ended = write_capture(rt.alloc(), script, &mut datagrams, &mut lines);
    if ended == Ended::OutOfMemory {
        notice(rt, "out of memory");
    }
    tell_fault(rt, file.0, datagrams.fault());
    tell_fault(rt, keys.0, lines.fault());
    ended
}

/// A file can't be made, or not be opened.
fn unwritten(rt: &HostRuntime, name: &str, error: &io::Error) -> Ended {
    tell_fault(rt, name, Some(error.kind()));
    ended_by_io(error)
}

fn run_lab(rt: &HostRuntime, turns: u64, ipv6: bool) -> Ended {
    let mut input = KeepingReader::new(rt.alloc(), FaultKeeper::new(rt.reader()));
    let mut output = FaultKeeper::new(io::writer(rt));
    let ended = lab(rt.alloc(), rt, &mut input, &mut output, turns, ipv6);
    tell_line(rt, ended, input.kept());
    tell_streams(
        rt,
        ended,
        STANDARD_INPUT,
        input.inner().fault(),
        output.fault(),
    )
}

/// Where a line of a script is bad, a line on the standard error says how it should be.
fn tell_line(rt: &HostRuntime, ended: Ended, script: Option<&[u8]>) {
    if let (Ended::BadLine(number), Some(script)) = (ended, script) {
        if let Some(line) = line_at(script, number) {
            if let Ok(text) = line_text(rt, number, line) {
                notice(rt, text.as_str());
            }
        }
    }
}

/// The line of this number, counted from 1.
fn line_at(script: &[u8], number: u64) -> Option<&[u8]> {
    let before = usize::try_from(number.checked_sub(1)?).ok()?;
    script.split(|byte| *byte == b'\n').nth(before)
}

fn line_text(rt: &HostRuntime, number: u64, line: &[u8]) -> Result<String, AllocError> {
    match str::from_utf8(line) {
        Ok(line) => {
            let form = form_of(line.split(' ').next().unwrap_or(""));
            format!(in rt.alloc(); "line {number}: should be {form}")
        }
        Err(_) => format!(in rt.alloc(); "line {number}: should be UTF-8"),
    }
}

// ---- nodes

/// A server, by the settings of its file or of the standard input.
fn run_server(rt: &HostRuntime, words: &NodeWords) -> Ended {
    match &words.config {
        None => server_from(rt, words, FaultKeeper::new(rt.reader()), STANDARD_INPUT),
        Some(name) => match File::open(rt, name.as_str()) {
            Ok(file) => server_from(rt, words, FaultKeeper::new(file), CONFIG),
            Err(error) => unopened(rt, &error),
        },
    }
}

/// Its log goes to the standard error where one is wanted, and it waits for nobody who reads that.
fn server_from<I: Read + Drop>(
    rt: &HostRuntime,
    words: &NodeWords,
    settings: FaultKeeper<I>,
    name: &str,
) -> Ended {
    let alloc = rt.alloc();
    let mut input = settings;
    let mut output = FaultKeeper::new(io::writer(rt));
    let mut faults = Faults::new(AtOnce::new(rt.stderr()));
    let ended = if words.check {
        check_server(alloc, &mut input, &mut faults, &mut output)
    } else if let Some(form) = words.log {
        let mut lines = Lines::new(log_form(form), words.counters, AtOnce::new(rt.stderr()));
        serve(alloc, rt, &mut input, &mut lines, words.turns).ended
    } else {
        serve(alloc, rt, &mut input, &mut faults, words.turns).ended
    };
    tell_streams(rt, ended, name, input.fault(), output.fault())
}

/// How the lines of a log are written.
fn log_form(form: LogForm) -> Form {
    match form {
        LogForm::Text => Form::Text,
        LogForm::Json => Form::Json,
    }
}

/// What a store holds goes to the standard output, and to a new file where one is named.
fn store(rt: &HostRuntime, words: &StoreWords) -> Ended {
    let mut output = FaultKeeper::new(io::writer(rt));
    let ended = list_store(rt.alloc(), rt, words, &mut output);
    tell_streams(rt, ended, STANDARD_INPUT, None, output.fault())
}

/// A proxy likewise.
fn run_proxy(rt: &HostRuntime, words: &NodeWords) -> Ended {
    match &words.config {
        None => proxy_from(rt, words, FaultKeeper::new(rt.reader()), STANDARD_INPUT),
        Some(name) => match File::open(rt, name.as_str()) {
            Ok(file) => proxy_from(rt, words, FaultKeeper::new(file), CONFIG),
            Err(error) => unopened(rt, &error),
        },
    }
}

fn proxy_from<I: Read + Drop>(
    rt: &HostRuntime,
    words: &NodeWords,
    settings: FaultKeeper<I>,
    name: &str,
) -> Ended {
    let alloc = rt.alloc();
    let mut input = settings;
    let mut output = FaultKeeper::new(io::writer(rt));
    let mut faults = Faults::new(AtOnce::new(rt.stderr()));
    let ended = if words.check {
        check_proxy(alloc, &mut input, &mut faults, &mut output)
    } else if let Some(form) = words.log {
        let mut lines = Lines::new(log_form(form), words.counters, AtOnce::new(rt.stderr()));
        forward(alloc, rt, &mut input, &mut lines, words.turns)
    } else {
        forward(alloc, rt, &mut input, &mut faults, words.turns)
    };
    tell_streams(rt, ended, name, input.fault(), output.fault())
}

// ---- a client

/// A client, with the payload of its file where that is in one.
fn run_client(rt: &HostRuntime, words: ClientWords) -> Ended {
    let payload_file = payload_file(rt, &words);
    match with_payload(rt.alloc(), words, payload_file) {
        Ok(words) => run_asking(rt, &words),
        Err(error) => refuse(rt, &error),
    }
}

/// The file that the payload is in, if it does and the file can be opened.
fn payload_file(rt: &HostRuntime, words: &ClientWords) -> Option<File> {
    match &words.payload_file {
        Some(name) => File::open(rt, name.as_str()).ok(),
        None => None,
    }
}

fn run_asking(rt: &HostRuntime, words: &ClientWords) -> Ended {
    match &words.config {
        None => client_from(rt, words, FaultKeeper::new(rt.reader()), STANDARD_INPUT),
        Some(name) => match File::open(rt, name.as_str()) {
            Ok(file) => client_from(rt, words, FaultKeeper::new(file), CONFIG),
            Err(error) => unopened(rt, &error),
        },
    }
}

fn client_from<I: Read + Drop>(
    rt: &HostRuntime,
    words: &ClientWords,
    settings: FaultKeeper<I>,
    name: &str,
) -> Ended {
    let alloc = rt.alloc();
    let mut input = settings;
    let mut output = FaultKeeper::new(io::writer(rt));
    let mut faults = Faults::new(AtOnce::new(rt.stderr()));
    let ended = if words.check {
        check_client(alloc, &mut input, &mut faults, &mut output)
    } else {
        ask(alloc, rt, &mut input, &mut faults, &mut output, words)
    };
    tell_streams(rt, ended, name, input.fault(), output.fault())
}

// ---- a context for another stack

/// A context, by the settings of its file or of the standard input.
fn run_context(rt: &HostRuntime, words: &ContextWords) -> Ended {
    match &words.config {
        None => context_from(rt, words, FaultKeeper::new(rt.reader()), STANDARD_INPUT),
        Some(name) => match File::open(rt, name.as_str()) {
            Ok(file) => context_from(rt, words, FaultKeeper::new(file), CONFIG),
            Err(error) => unopened(rt, &error),
        },
    }
}

/// It goes to the standard output, or to a file that its owner alone can read.
fn context_from<I: Read + Drop>(
    rt: &HostRuntime,
    words: &ContextWords,
    settings: FaultKeeper<I>,
    name: &str,
) -> Ended {
    let mut input = settings;
    let ended = match &words.out {
        None => {
            let mut output = FaultKeeper::new(io::writer(rt));
            let ended = context_to(rt, words, &mut input, &mut output);
            tell_streams(rt, ended, name, None, output.fault())
        }
        Some(out) => context_in(rt, words, &mut input, out.as_str()),
    };
    tell_streams(rt, ended, name, input.fault(), None)
}

fn context_to<I: Read, W: Write>(
    rt: &HostRuntime,
    words: &ContextWords,
    input: &mut I,
    output: &mut W,
) -> Ended {
    let alloc = rt.alloc();
    let mut faults = Faults::new(AtOnce::new(rt.stderr()));
    make_context(alloc, rt, input, &mut faults, output, words)
}

/// To this file, or for aiocoap to one in this folder. What was there is replaced once the new file is whole.
fn context_in<I: Read>(rt: &HostRuntime, words: &ContextWords, input: &mut I, out: &str) -> Ended {
    match place_of(rt, words.form, out) {
        Ok(place) => match place.create(rt) {
            Ok(file) => context_placed(rt, words, input, &place, file),
            Err(error) => unwritten(rt, OUT, &error),
        },
        Err(error) => unwritten(rt, OUT, &error),
    }
}

/// Where the context of this form is kept.
fn place_of(rt: &HostRuntime, form: ContextForm, out: &str) -> io::Result<Place> {
    match form {
        ContextForm::Aiocoap => Place::in_folder(rt, out),
        ContextForm::Libcoap | ContextForm::Json => Place::at(rt, out),
    }
}

/// A file that isn't whole is removed.
fn context_placed<I: Read>(
    rt: &HostRuntime,
    words: &ContextWords,
    input: &mut I,
    place: &Place,
    file: File,
) -> Ended {
    let mut output = FaultKeeper::new(file);
    let ended = context_to(rt, words, input, &mut output);
    tell_fault(rt, OUT, output.fault());
    drop(output);
    let kept = match ended {
        Ended::Done => place.keep(rt),
        _ => Ok(()),
    };
    place.forget(rt);
    match kept {
        Ok(()) => ended,
        Err(error) => unwritten(rt, OUT, &error),
    }
}

/// A client that sends the requests of a file.
fn run_requests(rt: &HostRuntime, words: &RequestsWords) -> Ended {
    match requests(rt, words) {
        Ok(requests) => run_asked(rt, words, &asked(words, requests)),
        Err(ended) => ended,
    }
}

fn asked(words: &RequestsWords, requests: Vec<Option<Request>>) -> Asked {
    Asked {
        requests,
        manner: Manner {
            patience: words.patience,
            pause: words.every.unwrap_or(0).saturating_mul(1000),
            again: words.again,
        },
    }
}

/// The requests of the file, or of the standard input where the settings are in a file.
fn requests(rt: &HostRuntime, words: &RequestsWords) -> Result<Vec<Option<Request>>, Ended> {
    let name = words.requests.as_str();
    if name != "-" {
        return match File::open(rt, name) {
            Ok(file) => requests_in(rt, FaultKeeper::new(file), REQUESTS),
            Err(error) => Err(unwritten(rt, REQUESTS, &error)),
        };
    }
    if words.config.is_none() {
        notice(
            rt,
            "error: --requests - needs --config: one standard input can't be both",
        );
        return Err(Ended::BadCommandLine);
    }
    requests_in(rt, FaultKeeper::new(rt.reader()), STANDARD_INPUT)
}

fn requests_in<I: Read + Drop>(
    rt: &HostRuntime,
    requests: FaultKeeper<I>,
    name: &str,
) -> Result<Vec<Option<Request>>, Ended> {
    let mut input = requests;
    let read = requests_from(rt.alloc(), &mut input);
    if let Err(ended) = read {
        tell_streams(rt, ended, name, input.fault(), None);
        if let Ok(Some(line)) = requests_fault(rt.alloc(), ended) {
            notice(rt, line.as_str());
        }
    }
    read
}

fn run_asked(rt: &HostRuntime, words: &RequestsWords, asked: &Asked) -> Ended {
    match &words.config {
        None => asked_from(
            rt,
            words,
            asked,
            FaultKeeper::new(rt.reader()),
            STANDARD_INPUT,
        ),
        Some(name) => match File::open(rt, name.as_str()) {
            Ok(file) => asked_from(rt, words, asked, FaultKeeper::new(file), CONFIG),
            Err(error) => unopened(rt, &error),
        },
    }
}

fn asked_from<I: Read + Drop>(
    rt: &HostRuntime,
    words: &RequestsWords,
    asked: &Asked,
    settings: FaultKeeper<I>,
    name: &str,
) -> Ended {
    let alloc = rt.alloc();
    let mut input = settings;
    let mut output = FaultKeeper::new(io::writer(rt));
    let mut faults = Faults::new(AtOnce::new(rt.stderr()));
    let ended = if words.check {
        check_client(alloc, &mut input, &mut faults, &mut output)
    } else {
        ask_each(alloc, rt, &mut input, &mut faults, &mut output, asked)
    };
    tell(
        rt,
        tell_streams(rt, ended, name, input.fault(), output.fault()),
    )
}

// ---- keys and tokens

/// A key goes to the standard output.
fn key(rt: &HostRuntime) -> Ended {
    let mut output = FaultKeeper::new(io::writer(rt));
    let ended = issue_key(rt.alloc(), rt, &mut output);
    if ended == Ended::OutOfMemory {
        notice(rt, "out of memory");
    }
    tell_streams(rt, ended, STANDARD_INPUT, None, output.fault())
}

/// Reads the clock and the files that the key and the secret may be in, and prints the token.
fn token(rt: &HostRuntime, asked: TokenAsked) -> Ended {
    match rt.since_1970() {
        Ok(since_1970) => token_at(rt, asked, since_1970.as_secs()),
        Err(error) => {
            tell_fault(rt, "the clock", Some(error.kind()));
            ended_by_io(&error)
        }
    }
}

/// The same at this second.
fn token_at(rt: &HostRuntime, asked: TokenAsked, now: u64) -> Ended {
    let key_file = opened(rt, &asked.key);
    let secret_file = opened(rt, &asked.secret);
    match filled(rt.alloc(), asked, now, key_file, secret_file) {
        Ok(words) => print_token(rt, &words, now),
        Err(error) => refuse(rt, &error),
    }
}

/// The file that a value is in, if it does and the file can be opened.
fn opened<T>(rt: &HostRuntime, source: &Source<T>) -> Option<File> {
    match source {
        Source::Given(_) => None,
        Source::InFile(name) => File::open(rt, name.as_str()).ok(),
    }
}

/// The token goes to the standard output, and the one line of a fault or a warning to the standard error.
fn print_token(rt: &HostRuntime, words: &TokenWords, now: u64) -> Ended {
    let mut output = FaultKeeper::new(io::writer(rt));
    let ended = issue_token(rt.alloc(), rt, words, &mut output);
    let line = match ended {
        Ended::Done => token_warning(words, now),
        _ => token_fault(ended),
    };
    if let Some(line) = line {
        notice(rt, line);
    }
    tell_streams(rt, ended, STANDARD_INPUT, None, output.fault())
}

// ---- faults

const STANDARD_INPUT: &str = "standard input";

const CONFIG: &str = "--config";

const OUT: &str = "--out";

const REQUESTS: &str = "--requests";

/// Where an input or an output failed, a line says which, and why.
fn tell_streams(
    rt: &HostRuntime,
    ended: Ended,
    name: &str,
    input: Option<ErrorKind>,
    output: Option<ErrorKind>,
) -> Ended {
    if ended == Ended::Failed {
        tell_fault(rt, name, input);
        tell_fault(rt, "standard output", output);
    }
    ended
}

fn tell_fault(rt: &HostRuntime, name: &str, fault: Option<ErrorKind>) {
    if let Some(kind) = fault {
        if let Ok(line) = fault_text(rt, name, kind) {
            notice(rt, line.as_str());
        }
    }
}

fn fault_text(rt: &HostRuntime, name: &str, kind: ErrorKind) -> Result<String, AllocError> {
    format!(in rt.alloc(); "{name}: {kind}")
}

/// The file of settings can't be opened.
fn unopened(rt: &HostRuntime, error: &io::Error) -> Ended {
    let ended = ended_by_io(error);
    tell_streams(rt, ended, CONFIG, Some(error.kind()), None)
}

/// The one line of a fault of what runs on sockets goes to the standard error.
fn tell(rt: &HostRuntime, ended: Ended) -> Ended {
    if let Ok(Some(line)) = running_fault(rt.alloc(), ended) {
        notice(rt, line.as_str());
    }
    ended
}

/// Help and the version go to the standard output, and the one line of a fault to the standard error.
fn explain(rt: &HostRuntime, error: &WordsError) -> io::Result<Ended> {
    match (ended_by(error), error) {
        (Ended::Done, WordsError::Clap(help)) => {
            rt.print(help)?;
            Ok(Ended::Done)
        }
        _ => Ok(refuse(rt, error)),
    }
}

/// The one line of a fault goes to the standard error.
fn refuse(rt: &HostRuntime, error: &WordsError) -> Ended {
    if let Ok(line) = fault_line(rt.alloc(), error) {
        notice(rt, line.as_str());
    }
    ended_by(error)
}

/// The command line could not be read, or help not be written.
fn stopped(rt: &HostRuntime, error: &io::Error) -> Ended {
    let ended = started_by_io(error);
    match ended {
        Ended::BadCommandLine => notice(rt, "error: a word of the command line isn't UTF-8"),
        Ended::OutOfMemory => notice(rt, "out of memory"),
        _ => {}
    }
    ended
}

/// One line on the standard error. One that can't be written is no failure.
fn notice(rt: &HostRuntime, line: &str) {
    let _written = rt.eprintln(line);
}
