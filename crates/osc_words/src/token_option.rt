//! The options of `osc token`.
ghost use Rattle.std.specs.Prelude.{◌≡◌};
ghost use Rattle.osc_words.specs.Options as spec;

/// An option of `osc token`. Each has one value.
#[derive(Clone, Copy, Debug, PartialEq, Eq)]
pub enum TokenOption {
    /// `--key`: the key that the token's issuer and the server share.
    Key,
    /// `--key-file`: the file that the key is in.
    KeyFile,
    /// `--aud`: the server that the token is for.
    Audience,
    /// `--id`: the id of the input material.
    Id,
    /// `--secret`: the master secret.
    Secret,
    /// `--secret-file`: the file that the secret is in.
    SecretFile,
    /// `--salt`: the salt that master salts begin with.
    Salt,
    /// `--context`: the id context.
    Context,
    /// `--alg`: the AEAD algorithm of the holder's contexts.
    Algorithm,
    /// `--scope`: what the holder may do.
    Scope,
    /// `--exp`: the second from which on the token counts no more.
    Expires,
    /// `--for`: how long the token counts from when it is issued.
    Lasts,
    /// `--nbf`: the first second at which the token counts.
    NotBefore,
    /// `--iv`: the IV under which the token is sealed.
    Iv,
}

impl TokenOption {
    /// All of them, those first that a token needs.
    pub(crate) const ALL: [TokenOption; 14] = [
        TokenOption::Key,
        TokenOption::KeyFile,
        TokenOption::Audience,
        TokenOption::Id,
        TokenOption::Secret,
        TokenOption::SecretFile,
        TokenOption::Scope,
        TokenOption::Salt,
        TokenOption::Context,
        TokenOption::Algorithm,
        TokenOption::Expires,
        TokenOption::Lasts,
        TokenOption::NotBefore,
        TokenOption::Iv,
    ];

    /// Its name on the command line, without the hyphens.
    pub fn name(self) -> &'static str
        ensures { result.now ≡ spec.name_of self }
    {
        match self {
            TokenOption::Key => "key",
            TokenOption::KeyFile => "key-file",
            TokenOption::Audience => "aud",
            TokenOption::Id => "id",
            TokenOption::Secret => "secret",
            TokenOption::SecretFile => "secret-file",
            TokenOption::Salt => "salt",
            TokenOption::Context => "context",
            TokenOption::Algorithm => "alg",
            TokenOption::Scope => "scope",
            TokenOption::Expires => "exp",
            TokenOption::Lasts => "for",
            TokenOption::NotBefore => "nbf",
            TokenOption::Iv => "iv",
        }
    }

    /// Whether there is no token without it, whatever else is given.
    pub fn is_required(self) -> bool
        ensures { result ≡ spec.is_required self }
    {
        matches!(
            self,
            TokenOption::Audience | TokenOption::Id | TokenOption::Scope
        )
    }

    /// What a value of it has to be.
    pub fn form(self) -> &'static str
        ensures { result.now ≡ spec.form_of self }
    {
        match self {
            TokenOption::Key => "16 bytes in hexadecimal",
            TokenOption::KeyFile => "a file of 16 bytes in hexadecimal",
            TokenOption::Audience => "a text",
            TokenOption::Secret => "1 to 64 bytes in hexadecimal",
            TokenOption::SecretFile => "a file of 1 to 64 bytes in hexadecimal",
            TokenOption::Id | TokenOption::Salt | TokenOption::Context => {
                "0 to 64 bytes in hexadecimal"
            }
            TokenOption::Algorithm => "10 or 30",
            TokenOption::Scope => "paths with methods, as /e:GET+PUT,/log:GET",
            TokenOption::Expires | TokenOption::NotBefore => {
                "a number of 64 bits in decimal digits"
            }
            TokenOption::Lasts =>
                "a time in seconds, minutes, hours or days, as 90s, 15m, 12h or 30d",
            TokenOption::Iv => "13 bytes in hexadecimal",
        }
    }

    /// What help calls its value.
    pub(crate) fn value_name(self) -> &'static str {
        match self {
            TokenOption::Audience | TokenOption::Scope => "TEXT",
            TokenOption::KeyFile | TokenOption::SecretFile => "FILE",
            TokenOption::Lasts => "TIME",
            TokenOption::Algorithm | TokenOption::Expires | TokenOption::NotBefore => "N",
            _ => "HEX",
        }
    }

    /// What help says of it.
    pub(crate) fn help(self) -> &'static str {
        match self {
            TokenOption::Key => "The key that the issuer and the server share: 16 bytes",
            TokenOption::KeyFile =>
                "A file that the key stands in, in place of --key; unlike that, no other user sees it",
            TokenOption::Audience => "The server that the token is for",
            TokenOption::Id => "The id of the input material: 0 to 64 bytes",
            TokenOption::Secret => "The master secret: 1 to 64 bytes",
            TokenOption::SecretFile =>
                "A file that the secret stands in, in place of --secret; unlike that, no other user sees it",
            TokenOption::Salt => "The salt that master salts begin with: 0 to 64 bytes",
            TokenOption::Context => "The id context: 0 to 64 bytes",
            TokenOption::Algorithm =>
                "The algorithm of the holder's contexts: 10, tags of 8 bytes, or 30, of 16; 10 by default",
            TokenOption::Scope =>
                "What the holder may do, as /log:GET+POST,/t:GET+SUB; SUB takes in the paths below",
            TokenOption::Expires => "The second from which on the token counts no more",
            TokenOption::Lasts =>
                "How long the token counts from now on, in place of --exp: 90s, 15m, 12h or 30d",
            TokenOption::NotBefore => "The first second at which the token counts",
            TokenOption::Iv =>
                "The IV: 13 bytes, of which no other token under the key has the same; random by default",
        }
    }
}
