//! A token's words in, the token out.
ghost use Rattle.std.specs.Prelude.{◌≡◌, ◌≢◌, ◌⊎◌, ◌<◌, ◌≤◌, ℕ, List, [], IfOk, IfSome, None, Ok, Err, length, string_bytes};
ghost use Rattle.std.specs.Io.KnownBytes.{Appends};
ghost use Rattle.osc_cbor.specs.{spelling};
ghost use Rattle.osc_token.specs.{most_claims, claims_item};
ghost use Rattle.osc_turn.specs.{IsDrawn};
ghost use Rattle.osc_programs.specs.Ended as ends;
ghost use Rattle.osc_programs.specs.TokenLine as spec;
ghost use Rattle.osc_programs.specs.Written.{IsBegun};

use crate::ended::{Ended, ended_by_io};
use osc_ccm::Ccm;
use osc_log::write_some;
use osc_token::{MintError, mint};
use osc_turn::{Seeds, generator_of};
use osc_words::TokenWords;
use rand::Rng;
use std::alloc::Global;
use std::io::{self, Write};

/// Writes the token that the words ask for, sealed under this IV: its bytes in hexadecimal, and a line feed. It ends as on
/// a bad command line where the claims have more than 65535 bytes; nothing is written then, nor for lack of memory.
///
/// An IV is used for one token alone under a key.
pub fn token<W: Write>(alloc: Global, words: &TokenWords, iv: &[u8; 13], writer: &mut W) -> Ended
    ensures done { result ≡ Ended.Done → (text : List ℕ) × spec.IsTokenLine words.now.claims words.now.key iv.now text
        × Appends (W.contents writer.old) (W.contents writer.new) text }
    ensures too_long { result ≡ Ended.BadCommandLine → (most_claims < length (spelling (claims_item words.now.claims)))
        × Appends (W.contents writer.old) (W.contents writer.new) [] }
    ensures never_too_long { most_claims < length (spelling (claims_item words.now.claims)) → result ≡ Ended.BadCommandLine }
    ensures memory { result ≡ Ended.OutOfMemory → Appends (W.contents writer.old) (W.contents writer.new) [] }
    ensures lines { (n : ℕ) → result ≢ Ended.BadLine n }
    ensures ends { ends.EndsToken result }
{
    match token_line(alloc, words, iv) {
        Ok(line) => written(writer, line.as_bytes()),
        Err(MintError::TooLong) => Ended::BadCommandLine,
        Err(MintError::Memory) => Ended::OutOfMemory,
    }
}

fn token_line(alloc: Global, words: &TokenWords, iv: &[u8; 13]) -> Result<String, MintError>
    ensures line { IfOk result (λ line. spec.IsTokenLine words.now.claims words.now.key iv.now (string_bytes line)) }
    ensures short { IfOk result (λ _. length (spelling (claims_item words.now.claims)) ≤ most_claims) }
    ensures too_long { result ≡ Err MintError.TooLong → most_claims < length (spelling (claims_item words.now.claims)) }
    ensures needs_memory { result ≡ Err MintError.Memory → length (spelling (claims_item words.now.claims)) ≤ most_claims }
{
    let mut bytes = Vec::new(alloc);
    mint::<Ccm<8>>(alloc, &words.claims, &words.key, iv, &mut bytes)?;
    let mut line = hex::encode(alloc, bytes.as_slice())?;
    line.push('\n')?;
    Ok(line)
}

/// An IV that is drawn at random: the first bytes of a generator whose seed comes from the source.
pub fn drawn_iv<S: Seeds>(source: &S) -> io::Result<[u8; 13]>
    ensures { IfOk result (λ iv. IsDrawn (S.gave source.now) 13 iv) }
{
    let mut generator = generator_of(source)?;
    let mut iv = [0; 13];
    generator.fill_bytes(&mut iv);
    Ok(iv)
}

/// The IV that the words ask for, or one that is drawn.
pub fn iv_of<S: Seeds>(source: &S, words: &TokenWords) -> io::Result<[u8; 13]>
    ensures asked { IfSome words.now.iv (λ iv. result ≡ Ok iv) }
    ensures drawn { words.now.iv ≡ None → IfOk result (λ iv. IsDrawn (S.gave source.now) 13 iv) }
{
    match words.iv {
        Some(iv) => Ok(iv),
        None => drawn_iv(source),
    }
}

/// Writes the token that the words ask for, under their IV or one that is drawn, as [`token`] does.
pub fn issue_token<S: Seeds, W: Write>(
    alloc: Global,
    source: &S,
    words: &TokenWords,
    writer: &mut W,
) -> Ended
    ensures asked { result ≡ Ended.Done → IfSome words.now.iv (λ iv. (text : List ℕ)
        × spec.IsTokenLine words.now.claims words.now.key iv text × Appends (W.contents writer.old) (W.contents writer.new) text) }
    ensures drawn { result ≡ Ended.Done → words.now.iv ≡ None → (iv : List ℕ) × IsDrawn (S.gave source.now) 13 iv × ((text : List ℕ)
        × spec.IsTokenLine words.now.claims words.now.key iv text × Appends (W.contents writer.old) (W.contents writer.new) text) }
    ensures too_long { result ≡ Ended.BadCommandLine → (most_claims < length (spelling (claims_item words.now.claims)))
        × Appends (W.contents writer.old) (W.contents writer.new) [] }
    ensures never_too_long { most_claims < length (spelling (claims_item words.now.claims)) → result ≢ Ended.Done }
    ensures memory { result ≡ Ended.OutOfMemory → Appends (W.contents writer.old) (W.contents writer.new) [] }
    ensures lines { (n : ℕ) → result ≢ Ended.BadLine n }
    ensures ends { ends.EndsToken result }
{
    match iv_of(source, words) {
        Ok(iv) => token(alloc, words, &iv, writer),
        Err(error) => ended_by_io(&error),
    }
}

/// Writes all of it; of an output that fails, it has a beginning then.
pub fn written<W: Write>(writer: &mut W, text: &[u8]) -> Ended
    ensures done { result ≡ Ended.Done → Appends (W.contents writer.old) (W.contents writer.new) text.now }
    ensures begun { IsBegun text.now (W.contents writer.old) (W.contents writer.new) }
    ensures cases { (result ≡ Ended.Done) ⊎ (result ≡ Ended.Failed) }
    ensures ends { ends.EndsToken result }
{
    if write_some(writer, text) < text.len() {
        return Ended::Failed;
    }
    match writer.flush() {
        Ok(()) => Ended::Done,
        Err(_) => Ended::Failed,
    }
}
