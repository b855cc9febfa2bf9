//! The payload of a request that is in a file.
ghost use Rattle.std.specs.Prelude.{◌≡◌, IfErr, IfOk, IfSome, MatchResult, option_and_then};
ghost use Rattle.osc_programs.specs.Input.{IsWithin, longest_payload_file};
ghost use Rattle.osc_programs.specs.PayloadFile as spec;

use crate::ended::Ended;
use crate::input::{LONGEST_PAYLOAD_FILE, bytes_within};
use osc_model::Bytes;
use osc_words::{ClientOption, ClientWords, NamedOption, WordsError};
use std::alloc::Global;
use std::io::Read;

/// What the client is asked for, with the payload that is given, or that the file holds which is opened for it. The file is read only where the
/// payload is in one, and then a missing one is one that can't be read.
///
/// # Errors
///
/// `Unread` for a file that can't be read, or has more than 1048576 bytes, and `Memory` without memory.
pub fn with_payload<F: Read + Drop>(
    alloc: Global,
    words: ClientWords,
    file: Option<F>,
) -> Result<ClientWords, WordsError>
    ensures { MatchResult result
        (spec.IsWithPayload words words.payload_file (option_and_then F.remaining file))
        spec.IsUnreadPayload }
{
    let stands = words.payload_file.is_some();
    if stands {
        let payload = payload_in(alloc, file)?;
        Ok(filled(words, payload))
    } else {
        Ok(words)
    }
}

// The same words, with this payload.
fn filled(words: ClientWords, payload: Bytes) -> ClientWords
    ensures { result ≡ spec.with_payload words payload }
{
    let mut filled = words;
    filled.request.payload = payload;
    filled
}

// All that the file gives, if it was opened and that is no more than a payload's file may have.
fn payload_in<F: Read + Drop>(alloc: Global, file: Option<F>) -> Result<Bytes, WordsError>
    ensures within { IfOk result (λ _. IsWithin longest_payload_file (option_and_then F.remaining file)) }
    ensures bytes { IfOk result (λ payload. IfSome (option_and_then F.remaining file) (λ known. payload ≡ known)) }
    ensures fault { IfErr result spec.IsUnreadPayload }
{
    let unread = WordsError::Unread(NamedOption::Client(ClientOption::PayloadFile));
    let Some(mut reader) = file else {
        return Err(unread);
    };
    match bytes_within(alloc, &mut reader, LONGEST_PAYLOAD_FILE) {
        Ok(Some(bytes)) => Ok(Bytes::from_vec(bytes)),
        Ok(None) => Err(unread),
        Err(Ended::OutOfMemory) => Err(WordsError::Memory),
        Err(_) => Err(unread),
    }
}
