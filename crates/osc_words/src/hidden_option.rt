//! The values that others should not see.
ghost use Rattle.std.specs.Prelude.{◌≡◌};
ghost use Rattle.osc_words.specs.Sources as spec;

use crate::token_option::TokenOption;

/// A value of `osc token` that is given by one option, or is in a file that another names.
#[derive(Clone, Copy, Debug, PartialEq, Eq)]
pub enum HiddenOption {
    /// `--key` or `--key-file`.
    Key,
    /// `--secret` or `--secret-file`.
    Secret,
}

impl HiddenOption {
    /// The option that gives the value.
    pub fn option(self) -> TokenOption
        ensures { result ≡ spec.option_of self }
    {
        match self {
            HiddenOption::Key => TokenOption::Key,
            HiddenOption::Secret => TokenOption::Secret,
        }
    }

    /// The option that names the file.
    pub fn file_option(self) -> TokenOption
        ensures { result ≡ spec.file_option_of self }
    {
        match self {
            HiddenOption::Key => TokenOption::KeyFile,
            HiddenOption::Secret => TokenOption::SecretFile,
        }
    }
}
