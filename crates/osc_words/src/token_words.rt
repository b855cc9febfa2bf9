//! What the options of `osc token` stand for.
ghost use Rattle.std.specs.Prelude.{◌≡◌, MatchResult, [], codes, unwrap_or};
ghost use Rattle.clap.specs.Words.{found_of, rows_of};
ghost use Rattle.osc_model.specs.{algorithm_number};
ghost use Rattle.osc_script.specs.{SpellsHexWithin, SpellsNumber, SpellsScope};
ghost use Rattle.osc_words.specs.Options.{value_of};
ghost use Rattle.osc_words.specs.Inner.Reading.{IsInOne, IsNotOneOf, IsRefusal, IsRefusalOf};
ghost use Rattle.osc_words.specs.Sources.{IsSource};
ghost use Rattle.osc_words.specs.Times as times_spec;
ghost use Rattle.osc_words.specs.Filled.{with_secret};
ghost use Rattle.osc_words.specs.TokenWords as spec;
ghost use Rattle.osc_words.specs.Values.{IsGiven};

use crate::choice::Choice;
use crate::hidden_option::HiddenOption;
use crate::named_option::NamedOption;
use crate::source::{FileName, Source};
use crate::token_option::TokenOption;
use crate::words::WordsError;
use crate::{given, times};
use clap::ArgMatches;
use osc_model::limits::LONGEST_PART;
use osc_model::{Algorithm, Bytes};
use osc_script::values;
use osc_token::{Audience, Claims, InputMaterial};
use std::alloc::Global;
use std::fmt;

/// What `osc token` is asked for, before the files are read that the key and the secret may be in.
#[derive(PartialEq, Eq, Drop)]
pub struct TokenAsked {
    /// The key that the token's issuer and the server share.
    pub key: Source<[u8; 16]>,
    /// The master secret.
    pub secret: Source<Bytes>,
    /// What the token claims beside the secret.
    pub claims: OpenClaims,
    /// The IV under which the token is sealed; one is drawn where there is none.
    pub iv: Option<[u8; 13]>,
}

/// When a token is over.
#[derive(Clone, Copy, Debug, PartialEq, Eq)]
pub enum Expiry {
    /// From this second on, counted from 1970.
    At(u64),
    /// This number of seconds after it is issued.
    After(u64),
}

impl Expiry {
    /// The second from which on a token is over that is issued at this second, both counted from 1970.
    pub fn second(self, now: u64) -> u64
        ensures { result ≡ times_spec.second_of now self }
    {
        match self {
            Expiry::At(second) => second,
            Expiry::After(seconds) => now.saturating_add(seconds),
        }
    }
}

/// What a token claims, but for the secret.
#[derive(PartialEq, Eq, Drop)]
pub struct OpenClaims {
    pub audience: Audience,
    pub not_before: Option<u64>,
    pub expires: Option<Expiry>,
    pub id: Bytes,
    pub salt: Bytes,
    pub id_context: Option<Bytes>,
    pub alg: Algorithm,
    pub scope: Bytes,
}

/// The token to be printed.
#[derive(PartialEq, Eq, Drop)]
pub struct TokenWords {
    /// The key that the token's issuer and the server share.
    pub key: [u8; 16],
    /// What the token claims.
    pub claims: Claims,
    /// The IV under which the token is sealed; one is drawn where there is none.
    pub iv: Option<[u8; 13]>,
}

// The key and the secret aren't printed.
impl fmt::Debug for TokenAsked {
    fn fmt<W: fmt::Write>(&self, f: &mut fmt::Formatter<W>) -> fmt::Result {
        f.write_str("TokenAsked")
    }
}

// The key isn't printed.
impl fmt::Debug for TokenWords {
    fn fmt<W: fmt::Write>(&self, f: &mut fmt::Formatter<W>) -> fmt::Result {
        f.write_str("TokenWords")
    }
}

impl OpenClaims {
    /// All the claims of a token that is issued at this second, counted from 1970, with this secret.
    pub fn with(self, now: u64, secret: Bytes) -> Claims
        ensures { result ≡ with_secret self now secret }
    {
        Claims {
            audience: self.audience,
            not_before: self.not_before,
            expires: match self.expires {
                Some(expiry) => Some(expiry.second(now)),
                None => None,
            },
            material: InputMaterial {
                id: self.id,
                secret,
                salt: self.salt,
                id_context: self.id_context,
                alg: self.alg,
            },
            scope: self.scope,
        }
    }
}

/// What the options say of a token.
pub(crate) fn token_asked(alloc: Global, options: &ArgMatches<'_>) -> Result<TokenAsked, WordsError>
    ensures { MatchResult result (spec.AreTokenWords (rows_of (found_of options.now))) (IsRefusal (rows_of (found_of options.now))) }
{
    Ok(TokenAsked {
        key: key(alloc, options)?,
        secret: secret(alloc, options)?,
        iv: array(options, TokenOption::Iv)?,
        claims: claims(alloc, options)?,
    })
}

fn claims(alloc: Global, options: &ArgMatches<'_>) -> Result<OpenClaims, WordsError>
    ensures { MatchResult result (spec.AreClaims (rows_of (found_of options.now))) (IsRefusal (rows_of (found_of options.now))) }
{
    Ok(OpenClaims {
        audience: audience(alloc, options)?,
        not_before: number(options, TokenOption::NotBefore)?,
        expires: expires(options)?,
        id: required_bytes(alloc, options, TokenOption::Id, 0)?,
        salt: salt(alloc, options)?,
        id_context: bytes(alloc, options, TokenOption::Context, 0)?,
        alg: algorithm(options)?,
        scope: scope(alloc, options)?,
    })
}

// ---- what is given, or is in a file

// The key, or the file that it is in.
fn key(alloc: Global, options: &ArgMatches<'_>) -> Result<Source<[u8; 16]>, WordsError>
    ensures { MatchResult result
        (IsSource (SpellsHexWithin 16 16) HiddenOption.Key (rows_of (found_of options.now)))
        (IsRefusal (rows_of (found_of options.now))) }
{
    match name_of_file(alloc, options, HiddenOption::Key)? {
        Some(name) => Ok(Source::InFile(name)),
        None => Ok(Source::Given(required_array(options, TokenOption::Key)?)),
    }
}

// The secret likewise.
fn secret(alloc: Global, options: &ArgMatches<'_>) -> Result<Source<Bytes>, WordsError>
    ensures { MatchResult result
        (IsSource (SpellsHexWithin 1 64) HiddenOption.Secret (rows_of (found_of options.now)))
        (IsRefusal (rows_of (found_of options.now))) }
{
    match name_of_file(alloc, options, HiddenOption::Secret)? {
        Some(name) => Ok(Source::InFile(name)),
        None => Ok(Source::Given(required_bytes(alloc, options, TokenOption::Secret, 1)?)),
    }
}

// The file that the value is in, or none where it is given; it is one of the two.
fn name_of_file(
    alloc: Global,
    options: &ArgMatches<'_>,
    option: HiddenOption,
) -> Result<Option<FileName>, WordsError>
    ensures { MatchResult result (IsInOne option (rows_of (found_of options.now))) (IsNotOneOf option (rows_of (found_of options.now))) }
{
    let value = given::text(options, NamedOption::Token(option.option()));
    let file = given::text(options, NamedOption::Token(option.file_option()));
    match (value, file) {
        (Some(_), None) => Ok(None),
        (None, Some(name)) => Ok(Some(FileName::new(alloc, name)?)),
        (Some(_), Some(_)) | (None, None) => Err(WordsError::NotOne(Choice::Hidden(option))),
    }
}

// ---- one option

// `N` bytes, which have to be given.
fn required_array<const N: usize>(
    options: &ArgMatches<'_>,
    option: TokenOption,
) -> Result<[u8; N], WordsError>
    ensures { MatchResult result
        (λ bytes. IsGiven (SpellsHexWithin N N) (value_of option (rows_of (found_of options.now))) (Some bytes))
        (IsRefusalOf (NamedOption.Token option) (λ bytes. IsGiven (SpellsHexWithin N N) (value_of option (rows_of (found_of options.now))) (Some bytes))) }
{
    let option = NamedOption::Token(option);
    let Some(bytes) = values::array(given::required_text(options, option)?) else {
        return Err(WordsError::Value(option));
    };
    Ok(bytes)
}

// `N` bytes, where they are given.
fn array<const N: usize>(
    options: &ArgMatches<'_>,
    option: TokenOption,
) -> Result<Option<[u8; N]>, WordsError>
    ensures { MatchResult result
        (IsGiven (SpellsHexWithin N N) (value_of option (rows_of (found_of options.now))))
        (IsRefusalOf (NamedOption.Token option) (IsGiven (SpellsHexWithin N N) (value_of option (rows_of (found_of options.now))))) }
{
    let option = NamedOption::Token(option);
    let Some(text) = given::text(options, option) else {
        return Ok(None);
    };
    let Some(bytes) = values::array(text) else {
        return Err(WordsError::Value(option));
    };
    Ok(Some(bytes))
}

// From `least` to 64 bytes, which have to be given.
fn required_bytes(
    alloc: Global,
    options: &ArgMatches<'_>,
    option: TokenOption,
    least: usize,
) -> Result<Bytes, WordsError>
    ensures { MatchResult result
        (λ bytes. IsGiven (SpellsHexWithin least 64) (value_of option (rows_of (found_of options.now))) (Some bytes))
        (IsRefusalOf (NamedOption.Token option) (λ bytes. IsGiven (SpellsHexWithin least 64) (value_of option (rows_of (found_of options.now))) (Some bytes))) }
{
    let option = NamedOption::Token(option);
    let text = given::required_text(options, option)?;
    let Some(bytes) = values::bytes_within(alloc, text, least, LONGEST_PART)? else {
        return Err(WordsError::Value(option));
    };
    Ok(bytes)
}

// From `least` to 64 bytes, where they are given.
fn bytes(
    alloc: Global,
    options: &ArgMatches<'_>,
    option: TokenOption,
    least: usize,
) -> Result<Option<Bytes>, WordsError>
    ensures { MatchResult result
        (IsGiven (SpellsHexWithin least 64) (value_of option (rows_of (found_of options.now))))
        (IsRefusalOf (NamedOption.Token option) (IsGiven (SpellsHexWithin least 64) (value_of option (rows_of (found_of options.now))))) }
{
    let option = NamedOption::Token(option);
    let Some(text) = given::text(options, option) else {
        return Ok(None);
    };
    let Some(bytes) = values::bytes_within(alloc, text, least, LONGEST_PART)? else {
        return Err(WordsError::Value(option));
    };
    Ok(Some(bytes))
}

// The salt; an absent one is empty.
fn salt(alloc: Global, options: &ArgMatches<'_>) -> Result<Bytes, WordsError>
    ensures { MatchResult result
        (SpellsHexWithin 0 64 (unwrap_or (value_of TokenOption.Salt (rows_of (found_of options.now))) []))
        (IsRefusalOf (NamedOption.Token TokenOption.Salt) (SpellsHexWithin 0 64 (unwrap_or (value_of TokenOption.Salt (rows_of (found_of options.now))) []))) }
{
    let option = NamedOption::Token(TokenOption::Salt);
    let text = given::text(options, option).unwrap_or("");
    values::bytes_within(alloc, text, 0, LONGEST_PART)?.ok_or(WordsError::Value(option))
}

// The algorithm; an absent one is that of number 10.
fn algorithm(options: &ArgMatches<'_>) -> Result<Algorithm, WordsError>
    ensures { MatchResult result
        (λ alg. SpellsNumber (unwrap_or (value_of TokenOption.Algorithm (rows_of (found_of options.now))) (codes "10")) (algorithm_number alg))
        (IsRefusalOf (NamedOption.Token TokenOption.Algorithm) (λ alg. SpellsNumber (unwrap_or (value_of TokenOption.Algorithm (rows_of (found_of options.now))) (codes "10")) (algorithm_number alg))) }
{
    let option = NamedOption::Token(TokenOption::Algorithm);
    let text = given::text(options, option).unwrap_or("10");
    let Some(number) = values::number(text) else {
        return Err(WordsError::Value(option));
    };
    Algorithm::from_number(number).ok_or(WordsError::Value(option))
}

// When the token is over, where one of the two options says so.
fn expires(options: &ArgMatches<'_>) -> Result<Option<Expiry>, WordsError>
    ensures { MatchResult result
        (times_spec.IsExpiry (value_of TokenOption.Expires (rows_of (found_of options.now))) (value_of TokenOption.Lasts (rows_of (found_of options.now))))
        (IsRefusal (rows_of (found_of options.now))) }
{
    let second = given::text(options, NamedOption::Token(TokenOption::Expires));
    let time = given::text(options, NamedOption::Token(TokenOption::Lasts));
    match (second, time) {
        (Some(text), None) => match values::number(text) {
            Some(second) => Ok(Some(Expiry::At(second))),
            None => Err(WordsError::Value(NamedOption::Token(TokenOption::Expires))),
        },
        (None, Some(text)) => match times::time(text) {
            Some(seconds) => Ok(Some(Expiry::After(seconds))),
            None => Err(WordsError::Value(NamedOption::Token(TokenOption::Lasts))),
        },
        (None, None) => Ok(None),
        (Some(_), Some(_)) => Err(WordsError::NotOne(Choice::Expiry)),
    }
}

// A number, where it is given.
fn number(options: &ArgMatches<'_>, option: TokenOption) -> Result<Option<u64>, WordsError>
    ensures { MatchResult result
        (IsGiven SpellsNumber (value_of option (rows_of (found_of options.now))))
        (IsRefusalOf (NamedOption.Token option) (IsGiven SpellsNumber (value_of option (rows_of (found_of options.now))))) }
{
    given::number(options, NamedOption::Token(option))
}

fn audience(alloc: Global, options: &ArgMatches<'_>) -> Result<Audience, WordsError>
    ensures { MatchResult result
        (λ audience. value_of TokenOption.Audience (rows_of (found_of options.now)) ≡ Some audience)
        (IsRefusalOf (NamedOption.Token TokenOption.Audience) (λ audience. value_of TokenOption.Audience (rows_of (found_of options.now)) ≡ Some audience)) }
{
    let text = given::required_text(options, NamedOption::Token(TokenOption::Audience))?;
    Ok(Audience::new(alloc, text)?)
}

fn scope(alloc: Global, options: &ArgMatches<'_>) -> Result<Bytes, WordsError>
    ensures { MatchResult result
        (λ bytes. IsGiven SpellsScope (value_of TokenOption.Scope (rows_of (found_of options.now))) (Some bytes))
        (IsRefusalOf (NamedOption.Token TokenOption.Scope) (λ bytes. IsGiven SpellsScope (value_of TokenOption.Scope (rows_of (found_of options.now))) (Some bytes))) }
{
    let option = NamedOption::Token(TokenOption::Scope);
    let text = given::required_text(options, option)?;
    let Some(bytes) = values::scope(alloc, text)? else {
        return Err(WordsError::Value(option));
    };
    Ok(bytes)
}
