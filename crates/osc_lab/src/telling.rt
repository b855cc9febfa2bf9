//! The lines that a lab tells.
ghost use Rattle.std.specs.Prelude.{◌≡◌, ◌++◌, Some, IfErr, IfOk, OnOk, codes, option_map, option_to_list, string_bytes};
ghost use Rattle.std.specs.Io.KnownBytes.{Appends};
ghost use Rattle.osc_simulation.specs.{learnt_text, line};
ghost use Rattle.osc_lab.specs.Inner.Telling as inner;
ghost use Rattle.osc_lab.specs.Telling as spec;

use crate::cast::Who;
use osc_model::ClientResult;
use osc_programs::{Ended, written};
use osc_simulation::{learnt_text, name_of_number};
use std::alloc::{AllocError, Global};
use std::io::Write;

/// Writes all of it, at once.
pub(crate) fn tell<W: Write>(writer: &mut W, text: &[u8]) -> Result<(), Ended>
    ensures written { OnOk result (Appends (W.contents writer.old) (W.contents writer.new) text.now) }
    ensures failed { IfErr result (λ ended. ended ≡ Ended.Failed) }
{
    match written(writer, text) {
        Ended::Done => Ok(()),
        _ => Err(Ended::Failed),
    }
}

/// Tells what this client learnt, if it did: `CLIENT RESULT`.
pub(crate) fn tell_result<W: Write>(
    who: Who<'_>,
    learnt: Option<&ClientResult>,
    writer: &mut W,
) -> Result<(), Ended>
    ensures told { OnOk result (Appends (W.contents writer.old) (W.contents writer.new)
        (spec.all_told who.entry.cast.clients.now (option_to_list (spec.learnt_by who.entry.number (option_map (λ it. it.now) learnt.entry))))) }
    ensures untold { IfErr result (λ ended. inner.IsUntold ended (W.contents writer.old) (W.contents writer.new)) }
{
    match learnt {
        None => Ok(()),
        Some(learnt) => tell_line(
            who.cast.alloc,
            name_of_number(who.cast.clients, who.number),
            learnt,
            writer,
        ),
    }
}

fn tell_line<W: Write>(
    alloc: Global,
    client: &str,
    learnt: &ClientResult,
    writer: &mut W,
) -> Result<(), Ended>
    ensures told { OnOk result (Appends (W.contents writer.old) (W.contents writer.new) (line (client.now ++ codes " " ++ learnt_text learnt.now))) }
    ensures untold { IfErr result (λ ended. inner.IsUntold ended (W.contents writer.old) (W.contents writer.new)) }
{
    match told_line(alloc, client, learnt) {
        Ok(line) => tell(writer, line.as_bytes()),
        Err(_) => Err(Ended::OutOfMemory),
    }
}

fn told_line(alloc: Global, client: &str, learnt: &ClientResult) -> Result<String, AllocError>
    ensures { IfOk result (λ text. string_bytes text ≡ line (client.now ++ codes " " ++ learnt_text learnt.now)) }
{
    let learnt = learnt_text(alloc, learnt)?;
    format!(in alloc; "{client} {learnt}\n")
}

/// Tells that this client waits still, where it does: `CLIENT open`.
pub(crate) fn tell_open<W: Write>(
    alloc: Global,
    client: &str,
    waits: bool,
    writer: &mut W,
) -> Result<(), Ended>
    ensures told { OnOk result (Appends (W.contents writer.old) (W.contents writer.new) (spec.open_text client.now waits)) }
    ensures untold { IfErr result (λ ended. inner.IsUntold ended (W.contents writer.old) (W.contents writer.new)) }
{
    if !waits {
        return Ok(());
    }
    match open_line(alloc, client) {
        Ok(line) => tell(writer, line.as_bytes()),
        Err(_) => Err(Ended::OutOfMemory),
    }
}

fn open_line(alloc: Global, client: &str) -> Result<String, AllocError>
    ensures { IfOk result (λ text. string_bytes text ≡ line (client.now ++ codes " open")) }
{
    format!(in alloc; "{client} open\n")
}
