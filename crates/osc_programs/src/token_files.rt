//! What the key and the secret of a token are, where they are in files.
ghost use Rattle.std.specs.Prelude.{◌≡◌, IfErr, IfOk, IfSome, MatchResult, option_and_then};
ghost use Rattle.osc_programs.specs.TokenFiles as spec;
ghost use Rattle.osc_script.specs.{SpellsHexWithin};
ghost use Rattle.osc_words.specs.{file_option_of};

use crate::ended::Ended;
use crate::input::{LONGEST_KEY, bytes_within};
use osc_model::Bytes;
use osc_words::{
    HiddenOption, NamedOption, Source, TokenAsked, TokenWords, WordsError, held_key, held_secret,
};
use std::alloc::Global;
use std::io::Read;

/// The token that is asked for and issued at this second, counted from 1970, with the key and the secret that are given, or that the files
/// hold which are opened for them. A file is read only where what it holds isn't given, and then a missing one is one that can't be read.
///
/// # Errors
///
/// `Unread` for a file that can't be read, `Value` for one that holds no such value, as one of more than 256 bytes, the key's before the secret's, and `Memory` for
/// lack of memory.
pub fn filled<K: Read + Drop, S: Read + Drop>(
    alloc: Global,
    asked: TokenAsked,
    now: u64,
    key_file: Option<K>,
    secret_file: Option<S>,
) -> Result<TokenWords, WordsError>
    ensures { MatchResult result
        (spec.IsFilled asked now (option_and_then K.remaining key_file) (option_and_then S.remaining secret_file))
        (spec.IsUnfilled asked (option_and_then K.remaining key_file) (option_and_then S.remaining secret_file)) }
{
    let TokenAsked {
        key,
        secret,
        claims,
        iv,
    } = asked;
    let key = key_of(alloc, key, key_file)?;
    let secret = secret_of(alloc, secret, secret_file)?;
    Ok(TokenWords {
        key,
        claims: claims.with(now, secret),
        iv,
    })
}

fn key_of<K: Read + Drop>(
    alloc: Global,
    source: Source<[u8; 16]>,
    file: Option<K>,
) -> Result<[u8; 16], WordsError>
    ensures { MatchResult result
        (spec.Gives (SpellsHexWithin 16 16) source (option_and_then K.remaining file))
        (spec.GivesNone (SpellsHexWithin 16 16) HiddenOption.Key source (option_and_then K.remaining file)) }
{
    match source {
        Source::Given(key) => Ok(key),
        Source::InFile(_) => read_key(alloc, file),
    }
}

fn secret_of<S: Read + Drop>(
    alloc: Global,
    source: Source<Bytes>,
    file: Option<S>,
) -> Result<Bytes, WordsError>
    ensures { MatchResult result
        (spec.Gives (SpellsHexWithin 1 64) source (option_and_then S.remaining file))
        (spec.GivesNone (SpellsHexWithin 1 64) HiddenOption.Secret source (option_and_then S.remaining file)) }
{
    match source {
        Source::Given(secret) => Ok(secret),
        Source::InFile(_) => read_secret(alloc, file),
    }
}

// ---- files

// The key that the file holds.
fn read_key<K: Read + Drop>(alloc: Global, file: Option<K>) -> Result<[u8; 16], WordsError>
    ensures { MatchResult result
        (spec.HoldsIt (SpellsHexWithin 16 16) (option_and_then K.remaining file))
        (spec.HoldsNone (SpellsHexWithin 16 16) HiddenOption.Key (option_and_then K.remaining file)) }
{
    let bytes = bytes_in(alloc, HiddenOption::Key, file)?;
    match held_key(&bytes) {
        Some(key) => Ok(key),
        None => Err(held_none(HiddenOption::Key)),
    }
}

// The secret that the file holds.
fn read_secret<S: Read + Drop>(alloc: Global, file: Option<S>) -> Result<Bytes, WordsError>
    ensures { MatchResult result
        (spec.HoldsIt (SpellsHexWithin 1 64) (option_and_then S.remaining file))
        (spec.HoldsNone (SpellsHexWithin 1 64) HiddenOption.Secret (option_and_then S.remaining file)) }
{
    let bytes = bytes_in(alloc, HiddenOption::Secret, file)?;
    match held_secret(alloc, &bytes)? {
        Some(secret) => Ok(secret),
        None => Err(held_none(HiddenOption::Secret)),
    }
}

// All that the file gives, if it was opened and that is no more than 256 bytes: a value and the end of its line have fewer.
fn bytes_in<R: Read + Drop>(
    alloc: Global,
    option: HiddenOption,
    file: Option<R>,
) -> Result<Vec<u8>, WordsError>
    ensures bytes { IfOk result (λ bytes. IfSome (option_and_then R.remaining file) (λ known. bytes.items ≡ known)) }
    ensures fault { IfErr result (spec.HasNoBytes option (option_and_then R.remaining file)) }
{
    let Some(mut reader) = file else {
        return Err(unread(option));
    };
    match bytes_within(alloc, &mut reader, LONGEST_KEY) {
        Ok(Some(bytes)) => Ok(bytes),
        Ok(None) => Err(held_none(option)),
        Err(Ended::OutOfMemory) => Err(WordsError::Memory),
        Err(_) => Err(unread(option)),
    }
}

// The file can't be read.
fn unread(option: HiddenOption) -> WordsError
    ensures { result ≡ WordsError.Unread (NamedOption.Token (file_option_of option)) }
{
    WordsError::Unread(NamedOption::Token(option.file_option()))
}

// The file holds no such value.
fn held_none(option: HiddenOption) -> WordsError
    ensures { result ≡ WordsError.Value (NamedOption.Token (file_option_of option)) }
{
    WordsError::Value(NamedOption::Token(option.file_option()))
}
