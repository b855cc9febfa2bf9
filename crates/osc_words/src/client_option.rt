//! The options of `osc client`.
ghost use Rattle.std.specs.Prelude.{◌≡◌};
ghost use Rattle.osc_words.specs.ClientOptions as spec;

/// An option of `osc client`. Each has one value.
#[derive(Clone, Copy, Debug, PartialEq, Eq)]
pub enum ClientOption {
    /// `--turns`: after how many turns it gives up.
    Turns,
    /// `--timeout`: after how many seconds of its own clock it gives up.
    Timeout,
    /// `--method`: what is to be done with the resource.
    Method,
    /// `--path`: the resource.
    Path,
    /// `--payload`: the request's payload, in hexadecimal.
    Payload,
    /// `--text`: the request's payload, as it is.
    Text,
    /// `--payload-file`: the file that the request's payload is in.
    PayloadFile,
    /// `--format`: the Content-Format of the payload.
    Format,
    /// `--config`: the file that the settings are in.
    Config,
    /// `--requests`: the file that many requests are in.
    Requests,
    /// `--every`: how many seconds pass from one of them to the next, at the least.
    Every,
}

impl ClientOption {
    /// All of them, those first that a request needs.
    pub(crate) const ALL: [ClientOption; 11] = [
        ClientOption::Turns,
        ClientOption::Timeout,
        ClientOption::Method,
        ClientOption::Path,
        ClientOption::Payload,
        ClientOption::Text,
        ClientOption::PayloadFile,
        ClientOption::Format,
        ClientOption::Config,
        ClientOption::Requests,
        ClientOption::Every,
    ];

    /// Its name on the command line, without the hyphens.
    pub fn name(self) -> &'static str
        ensures { result.now ≡ spec.name_of self }
    {
        match self {
            ClientOption::Turns => "turns",
            ClientOption::Timeout => "timeout",
            ClientOption::Method => "method",
            ClientOption::Path => "path",
            ClientOption::Payload => "payload",
            ClientOption::Text => "text",
            ClientOption::PayloadFile => "payload-file",
            ClientOption::Format => "format",
            ClientOption::Config => "config",
            ClientOption::Requests => "requests",
            ClientOption::Every => "every",
        }
    }

    /// What a value of it has to be.
    pub fn form(self) -> &'static str
        ensures { result.now ≡ spec.form_of self }
    {
        match self {
            ClientOption::Turns => "a number of 64 bits in decimal digits",
            ClientOption::Timeout => "a number of seconds in decimal digits",
            ClientOption::Method => "GET, POST, PUT or DELETE",
            ClientOption::Path => "a path of 1 to 8 segments of 1 to 32 bytes, as /a/b",
            ClientOption::Payload => "bytes in hexadecimal",
            ClientOption::Text => "a text",
            ClientOption::PayloadFile => "a file",
            ClientOption::Format => "a number of 16 bits in decimal digits",
            ClientOption::Config => "a file of settings",
            ClientOption::Requests => "a file of requests",
            ClientOption::Every => "a number of 64 bits in decimal digits",
        }
    }

    /// What help calls its value.
    pub(crate) fn value_name(self) -> &'static str {
        match self {
            ClientOption::Turns | ClientOption::Format => "N",
            ClientOption::Timeout | ClientOption::Every => "SECONDS",
            ClientOption::Method => "METHOD",
            ClientOption::Path => "PATH",
            ClientOption::Payload => "HEX",
            ClientOption::Text => "TEXT",
            ClientOption::PayloadFile | ClientOption::Config | ClientOption::Requests => "FILE",
        }
    }

    /// What help says of it.
    pub(crate) fn help(self) -> &'static str {
        match self {
            ClientOption::Turns =>
                "The most turns that it takes, each a datagram or 10 ms without one",
            ClientOption::Timeout =>
                "The seconds after which it gives up; this or --turns is to be given",
            ClientOption::Method => "GET, POST, PUT or DELETE",
            ClientOption::Path => "The resource, as /a/b: 1 to 8 segments of 1 to 32 bytes",
            ClientOption::Payload => "The bytes of the payload; none by default",
            ClientOption::Text => "The payload as a text, in place of --payload",
            ClientOption::PayloadFile => "A file that the payload stands in, in place of --payload",
            ClientOption::Format =>
                "The Content-Format of the payload: 0 to 65535; none by default",
            ClientOption::Config =>
                "A file that the settings stand in; the standard input by default",
            ClientOption::Requests =>
                "A file of requests, one a line, in place of --method and --path; - is the standard input",
            ClientOption::Every =>
                "The least seconds from one of these requests to the next; 0 by default",
        }
    }
}
