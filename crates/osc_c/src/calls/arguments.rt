//! Arguments that a caller hands in as numbers and bytes.
ghost use Rattle.std.specs.Prelude.{◌≡◌, ◌↔◌, ◌==◌, ◌<◌, ◌≤◌, ◌^◌, if◌then◌else◌, IfOk, IfErr, IsTrue, OnOk, None, Some};
ghost use Rattle.std.specs.Str.{IsUtf8};
ghost use Rattle.osc_c.specs.Arguments.{IsFormat, IsFormatNumber, IsUnfit, Tells};
ghost use Rattle.osc_c.specs.Filled.{IsEither};
ghost use Rattle.osc_c.specs.declared.calls.outcome.Outcome.TheVariants.{BadArgument};
ghost use Rattle.osc_model.specs.{IsPath};
ghost use Rattle.osc_client.specs.{IsHost};

use crate::calls::outcome::Outcome;
use osc_model::limits::LONGEST_HOST;
use osc_model::{Bytes, Moment, Path};
use std::alloc::{AllocError, Global};
use std::str;

/// Refuses a struct whose first member isn't its size.
pub(crate) fn sized(size: usize, wanted: usize) -> Result<(), Outcome>
    ensures ok { OnOk result (size ≡ wanted) }
    ensures err { IfErr result (λ outcome. (outcome ≡ BadArgument) × ¬ (size ≡ wanted)) }
{
    if size != wanted {
        return Err(Outcome::BadArgument);
    }
    Ok(())
}

/// Refuses a struct that is to be filled in, where its first member is neither its whole size nor that without its last members.
pub(crate) fn sized_either(size: usize, whole: usize, short: usize) -> Result<(), Outcome>
    ensures ok { OnOk result (IsEither whole short size) }
    ensures err { IfErr result (λ outcome. (outcome ≡ BadArgument) × ¬ IsEither whole short size) }
{
    if size == short {
        return Ok(());
    }
    sized(size, whole)
}

/// The moment of this number of milliseconds.
pub(crate) fn moment(ms: u64) -> Result<Moment, Outcome>
    ensures ok { IfOk result (λ moment. moment.ms ≡ ms) }
    ensures fits { OnOk result (ms < 2 ^ 63) }
    ensures err { IfErr result (λ outcome. (outcome ≡ BadArgument) × ¬ (ms < 2 ^ 63)) }
{
    match Moment::new(ms) {
        Some(moment) => Ok(moment),
        None => Err(Outcome::BadArgument),
    }
}

/// The path of this text.
pub(crate) fn path(alloc: Global, text: &[u8]) -> Result<Path, Outcome>
    ensures ok { IfOk result (λ path. (path ≡ text.now) × IsPath text.now) }
    ensures err { IfErr result (IsUnfit (IsPath text.now)) }
{
    match Path::from_text(alloc, text)? {
        Some(path) => Ok(path),
        None => Err(Outcome::BadArgument),
    }
}

/// The text of these bytes.
pub(crate) fn text(bytes: &[u8]) -> Result<&str, Outcome>
    ensures ok { IfOk result (λ text. (text.now ≡ bytes.now) × IsUtf8 bytes.now) }
    ensures err { IfErr result (λ outcome. (outcome ≡ BadArgument) × ¬ (IsUtf8 bytes.now)) }
{
    match str::from_utf8(bytes) {
        Ok(text) => Ok(text),
        Err(_) => Err(Outcome::BadArgument),
    }
}

/// Whether a request can name this host.
pub(crate) fn is_host(host: &[u8]) -> bool
    ensures { IsTrue result ↔ IsHost host.now }
{
    !host.is_empty() && host.len() <= LONGEST_HOST
}

/// The Content-Format or Accept of this number; -1 stands for none.
pub(crate) fn format(number: i32) -> Result<Option<u16>, Outcome>
    ensures ok { IfOk result (λ format. IsFormat number format × IsFormatNumber number) }
    ensures err { IfErr result (λ outcome. (outcome ≡ BadArgument) × ¬ (IsFormatNumber number)) }
{
    if number < -1 || number > 65_535 {
        return Err(Outcome::BadArgument);
    }
    if number == -1 {
        return Ok(None);
    }
    Ok(Some(number as u16))
}

/// The number of this Content-Format; -1 for none.
pub(crate) fn format_number(format: Option<u16>) -> i32
    ensures { IsFormat result format }
{
    match format {
        Some(format) => format as i32,
        None => -1,
    }
}

/// Owned bytes, where they are there.
pub(crate) fn optional(
    alloc: Global,
    is_there: bool,
    bytes: &[u8],
) -> Result<Option<Bytes>, AllocError>
    ensures { IfOk result (λ owned. owned ≡ (if is_there then Some bytes.now else None)) }
{
    if is_there {
        Ok(Some(Bytes::from_slice(alloc, bytes)?))
    } else {
        Ok(None)
    }
}

/// Whether this flag is set: 1 is, 0 isn't.
pub(crate) fn flag(number: u8) -> Result<bool, Outcome>
    ensures set { IfOk result (λ set. (set ≡ (number == 1)) × (number ≤ 1)) }
    ensures err { IfErr result (λ outcome. (outcome ≡ BadArgument) × ¬ (number ≤ 1)) }
{
    if number > 1 {
        return Err(Outcome::BadArgument);
    }
    Ok(number == 1)
}

/// Tells a number, where there is one.
pub(crate) fn tell(number: Option<u64>, out: &mut u64) -> Outcome
    ensures { Tells number out.old result out.new }
{
    match number {
        Some(number) => {
            *out = number;
            Outcome::Done
        }
        None => Outcome::Nothing,
    }
}
