//! The values that one of several options gives.
ghost use Rattle.std.specs.Prelude.{◌≡◌, IfOk, string_bytes};
ghost use Rattle.osc_words.specs.Choices as spec;

use crate::hidden_option::HiddenOption;
use std::alloc::{AllocError, Global};

/// A value that one of several options gives.
#[derive(Clone, Copy, Debug, PartialEq, Eq)]
pub enum Choice {
    /// One that others should not see: exactly one of its two options is given.
    Hidden(HiddenOption),
    /// How long `osc client` waits: exactly one of `--turns` and `--timeout` is given.
    Patience,
    /// The payload of `osc client`: at most one of `--payload`, `--text` and `--payload-file` is given.
    Payload,
    /// What `osc client` asks for: `--method` and `--path`, or `--requests`, without what goes with the other alone.
    Asked,
    /// When a token of `osc token` is over: at most one of `--exp` and `--for` is given.
    Expiry,
}

impl Choice {
    /// The line that says that more of them are given, or fewer.
    pub(crate) fn not_one(self, alloc: Global) -> Result<String, AllocError>
        ensures { IfOk result (λ line. string_bytes line ≡ spec.not_one_text self) }
    {
        match self {
            Choice::Hidden(option) => hidden_not_one(alloc, option),
            Choice::Patience => {
                "error: exactly one of --turns and --timeout has to be given".to_string(alloc)
            }
            Choice::Payload => {
                "error: at most one of --payload, --text and --payload-file may be given".to_string(
                    alloc,
                )
            }
            Choice::Asked => {
                "error: either --method and --path have to be given, or --requests, and nothing that goes with the other".to_string(
                    alloc,
                )
            }
            Choice::Expiry => {
                "error: at most one of --exp and --for may be given".to_string(alloc)
            }
        }
    }
}

fn hidden_not_one(alloc: Global, option: HiddenOption) -> Result<String, AllocError>
    ensures { IfOk result (λ line. string_bytes line ≡ spec.not_one_text (Choice.Hidden option)) }
{
    let value = option.option().name();
    let file = option.file_option().name();
    format!(in alloc; "error: exactly one of --{value} and --{file} has to be given")
}
